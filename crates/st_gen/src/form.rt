//! The eight forms of a drawn card. deck.rt draws a number and calls `form_of`; statement.rt writes
//! the statement of the form. docs/deck.md has the table of forms. No other crate sees them.
//!
//! Proved: the result is `form_of` of specs/Deck.antt. Numbers above 7 are not drawn; here they
//! count as 7.
//!
//! Pinned, by `form_of`, docs/deck.md and vectors/soak.txt: the order of the forms, since it
//! decides the deck of a seed. Free: the form of the match. A new form is a variant, a case of
//! `form_of` here and in specs/Deck.antt, and its statement in statement.rt; it changes every deck.

ghost use Rattle.std.specs.Prelude.{◌≡◌};
ghost use Rattle.st_gen.specs.Deck.{form_of};

// The form of a drawn card: what its statement does.
#[derive(Clone, Copy)]
pub(crate) enum StatementForm {
    // LVI: an index word gets the address of a drawn word as its value.
    LoadValue,
    // V+I: 0 to 3 words are added to the value of an index word.
    AddValue,
    // L: a drawn word is loaded.
    LoadWord,
    // +: a drawn field is added to the accumulator.
    Add,
    // ST: the accumulator is stored in a drawn field.
    Store,
    // M+1: one is added to a drawn field.
    AddOne,
    // C0110: exclusive or with a drawn field.
    Connect,
    // *: by the field that an index word addresses, whose value then grows by half a word.
    Multiply,
}

// The form with this number, 0 to 7.
pub(crate) fn form_of(number: u32) -> StatementForm
    ensures { result ≡ form_of number }
{
    match number {
        0 => StatementForm::LoadValue,
        1 => StatementForm::AddValue,
        2 => StatementForm::LoadWord,
        3 => StatementForm::Add,
        4 => StatementForm::Store,
        5 => StatementForm::AddOne,
        6 => StatementForm::Connect,
        _ => StatementForm::Multiply,
    }
}
