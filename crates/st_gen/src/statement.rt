//! The statements of the drawn cards, as text from the operation on. deck.rt calls
//! `draw_statement`. docs/deck.md has the table of statements. Drawn words are 4,096 to 4,351; the
//! instructions of a deck of at most 4,000 cards end before them.
//!
//! Proved, by the clauses of `draw_statement`: the text is `statement` of specs/Deck.antt for the
//! form and the generator's state (`text`), and a call makes exactly as many draws as `letters`
//! there says (`drawn`). By the law `MadeDecksAreNotRefused` (specs/Laws.antt of `st_laws`) the
//! assembler accepts these statements.
//!
//! Pinned, by `statement`, docs/deck.md and vectors/soak.txt: the texts and the order of draws; by
//! the law `DrawnWordsInFigures` (specs/Laws.antt of `st_laws`): the two constants. Free: the split
//! into functions.

ghost use Rattle.std.specs.Prelude.{◌≡◌, ◌≤◌, ◌++◌, length};
ghost use Rattle.st_gen.specs.Deck.{number_after, field_operands, statement, letters};
ghost use Rattle.st_gen.specs.declared.form.StatementForm.TheVariants.{LoadValue, AddValue, LoadWord, AddOne, Multiply};

use crate::form::StatementForm;
use crate::generator::Generator;
use st_text::{Line, open_line, push_short_decimal};

/// The word address of the first word that drawn statements use.
pub const FIRST_DRAWN_WORD: u32 = 4_096;
/// The number of words that drawn statements use.
pub const DRAWN_WORDS: u32 = 256;

// LVI: index word 1 to 7, a word.
fn load_value(generator: &mut Generator) -> Line
    ensures drawn { generator.new.x ≡ number_after 2 generator.old.x }
    ensures text { result.bytes ≡ statement LoadValue generator.old.x }
{
    let mut text = open_line("LVI,$X");
    push_short_decimal(&mut text, 1 + generator.draw(7));
    text.push_str(",");
    push_short_decimal(&mut text, FIRST_DRAWN_WORD + generator.draw(DRAWN_WORDS));
    text.push_str(".0");
    text
}

// V+I: index word 1 to 7, 0 to 3 words.
fn add_value(generator: &mut Generator) -> Line
    ensures drawn { generator.new.x ≡ number_after 2 generator.old.x }
    ensures text { result.bytes ≡ statement AddValue generator.old.x }
{
    let mut text = open_line("V+I,$X");
    push_short_decimal(&mut text, 1 + generator.draw(7));
    text.push_str(",");
    push_short_decimal(&mut text, generator.draw(4));
    text.push_str(".0");
    text
}

// L: a whole word.
fn load_word(generator: &mut Generator) -> Line
    ensures drawn { generator.new.x ≡ number_after 1 generator.old.x }
    ensures text { result.bytes ≡ statement LoadWord generator.old.x }
{
    let mut text = open_line("L(BU,64),");
    push_short_decimal(&mut text, FIRST_DRAWN_WORD + generator.draw(DRAWN_WORDS));
    text.push_str(".0");
    text
}

// The text of an operation on an unsigned binary field, its operands drawn.
fn field_operation(operation: &str, generator: &mut Generator) -> Line
    requires { length operation.now ≤ 8 }
    ensures drawn { generator.new.x ≡ number_after 4 generator.old.x }
    ensures text { result.bytes ≡ operation.now ++ field_operands generator.old.x }
{
    let mut text = open_line(operation);
    text.push_str("(BU,");
    push_short_decimal(&mut text, 1 + generator.draw(64));
    text.push_str("),");
    push_short_decimal(&mut text, FIRST_DRAWN_WORD + generator.draw(DRAWN_WORDS));
    text.push_str(".");
    push_short_decimal(&mut text, generator.draw(64));
    text.push_str(",");
    push_short_decimal(&mut text, generator.draw(64));
    text
}

// M+1: a signed field of 8 to 64 bits.
fn add_one(generator: &mut Generator) -> Line
    ensures drawn { generator.new.x ≡ number_after 3 generator.old.x }
    ensures text { result.bytes ≡ statement AddOne generator.old.x }
{
    let mut text = open_line("M+1(B,");
    push_short_decimal(&mut text, 8 + generator.draw(57));
    text.push_str(",8),");
    push_short_decimal(&mut text, FIRST_DRAWN_WORD + generator.draw(DRAWN_WORDS));
    text.push_str(".");
    push_short_decimal(&mut text, generator.draw(64));
    text
}

// *: an unsigned field of 1 to 64 bits at index word 1 to 7, in the progressive form V+I.
fn multiply(generator: &mut Generator) -> Line
    ensures drawn { generator.new.x ≡ number_after 2 generator.old.x }
    ensures text { result.bytes ≡ statement Multiply generator.old.x }
{
    let mut text = open_line("*(BU,");
    push_short_decimal(&mut text, 1 + generator.draw(64));
    text.push_str(")(V+I),0.32($X");
    push_short_decimal(&mut text, 1 + generator.draw(7));
    text.push_str(")");
    text
}

// The statement of this form, its operands drawn.
pub(crate) fn draw_statement(form: StatementForm, generator: &mut Generator) -> Line
    ensures drawn { generator.new.x ≡ number_after (letters form) generator.old.x }
    ensures text { result.bytes ≡ statement form generator.old.x }
{
    match form {
        StatementForm::LoadValue => load_value(generator),
        StatementForm::AddValue => add_value(generator),
        StatementForm::LoadWord => load_word(generator),
        StatementForm::Add => field_operation("+", generator),
        StatementForm::Store => field_operation("ST", generator),
        StatementForm::AddOne => add_one(generator),
        StatementForm::Connect => field_operation("C0110", generator),
        StatementForm::Multiply => multiply(generator),
    }
}
