//! The faults of cards: each reason for which a job is refused, and its name in the report. All
//! crates that parse (`st_card`, `st_expr`, `st_strap`, `st_asm`, `st_object`) return them;
//! `st_top` and `st_account` print the name. docs/strap.md lists the faults.
//!
//! Proved: `name` is `name_of` of specs/Faults.antt, at most 32 bytes. Pinned: the names, by this
//! definition, docs/strap.md, vectors/faults.txt, vectors/controls.txt and vectors/objects.txt; the
//! order of the variants, by `rank` in specs/Order.antt of `st_strap`, where it is the order in
//! which faults count. A new fault needs a case of `text_of`, of `name_of` and of `rank`. Free: the
//! form of the match.

ghost use Rattle.std.specs.Prelude.{◌≡◌, ◌≤◌, length};
ghost use Rattle.st_card.specs.Faults.{name_of};

use arrayvec::ArrayString;

/// Why a card is refused. If a card has several faults in one pass, the first in this list counts,
/// with two exceptions: after the END card `CardAfterEnd` precedes `BadName`, and on card 20,001
/// `TooManyCards` precedes every other fault.
#[derive(Clone, Copy, Debug, PartialEq, Eq)]
pub enum Fault {
    /// A byte is neither a blank nor a visible ASCII character.
    NotAscii,
    /// The card has more than 80 characters.
    CardTooLong,
    /// Column 1 is wrong, the name is malformed, or a name is present where none is allowed or
    /// absent where one is required.
    BadName,
    /// The operation is unknown.
    UnknownOperation,
    /// The data description is malformed, not valid, or not allowed with the operation.
    BadDataDescription,
    /// The progressive form is unknown or not allowed here, or there is an extra parenthesis.
    BadProgressive,
    /// The number of fields is wrong for the operation.
    BadFieldCount,
    /// A field is not the expression or number that the operation requires.
    BadExpression,
    /// An index field or index part is malformed, present where none is allowed, or absent where
    /// one is required.
    BadIndex,
    /// A number is above the greatest value that its place allows.
    NumberTooLarge,
    /// A control card comes before the END card, or is unknown, malformed, repeated or past a
    /// limit.
    BadControlCard,
    /// A statement card comes after the END card.
    CardAfterEnd,
    /// The job has no END card.
    NoEnd,
    /// The job has more than 20,000 cards.
    TooManyCards,
    /// An earlier card defines the same name.
    NameTwice,
    /// No card defines the symbol, and it is not a system symbol.
    UndefinedSymbol,
    /// The symbol must be defined by an earlier card, and no earlier card defines it.
    SymbolNotEarlier,
    /// The card defines one name more than a job may define.
    TooManyNames,
    /// The address is outside 0 to 2^24 - 1.
    AddressOutOfRange,
    /// A value does not fit in its field.
    ValueDoesNotFit,
    /// An address is not on the boundary that its use requires.
    NotOnABoundary,
    /// A bit is assembled or skipped outside the words of storage from 32 on.
    LocationOutOfStorage,
    /// The line is not a valid next line of an object text.
    BadObjectCard,
}

impl Fault {
    /// The fault's name, as it is printed with the refused card.
    pub fn name(&self) -> ArrayString<32>
        ensures { result.bytes ≡ name_of self.now }
    {
        let mut name = ArrayString::new();
        name.push_str(text_of(*self));
        name
    }
}

// The fault's name as a string.
fn text_of(fault: Fault) -> &'static str
    ensures text { result.now ≡ name_of fault }
    ensures short { length result.now ≤ 32 }
{
    match fault {
        Fault::NotAscii => "NOT ASCII",
        Fault::CardTooLong => "CARD TOO LONG",
        Fault::BadName => "BAD NAME",
        Fault::UnknownOperation => "UNKNOWN OPERATION",
        Fault::BadDataDescription => "BAD DATA DESCRIPTION",
        Fault::BadProgressive => "BAD PROGRESSIVE",
        Fault::BadFieldCount => "BAD FIELD COUNT",
        Fault::BadExpression => "BAD EXPRESSION",
        Fault::BadIndex => "BAD INDEX",
        Fault::NumberTooLarge => "NUMBER TOO LARGE",
        Fault::BadControlCard => "BAD CONTROL CARD",
        Fault::CardAfterEnd => "CARD AFTER END",
        Fault::NoEnd => "NO END",
        Fault::TooManyCards => "TOO MANY CARDS",
        Fault::NameTwice => "NAME TWICE",
        Fault::UndefinedSymbol => "UNDEFINED SYMBOL",
        Fault::SymbolNotEarlier => "SYMBOL NOT EARLIER",
        Fault::TooManyNames => "TOO MANY NAMES",
        Fault::AddressOutOfRange => "ADDRESS OUT OF RANGE",
        Fault::ValueDoesNotFit => "VALUE DOES NOT FIT",
        Fault::NotOnABoundary => "NOT ON A BOUNDARY",
        Fault::LocationOutOfStorage => "LOCATION OUT OF STORAGE",
        Fault::BadObjectCard => "BAD OBJECT CARD",
    }
}
