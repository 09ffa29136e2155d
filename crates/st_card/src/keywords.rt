//! The table of the requests that control cards and object texts can make: their keywords, in the
//! order in which they are written, with their words and numbers. control_cards.rt, written.rt,
//! `st_object` and `st_dis` use it. docs/strap.md has the rules.
//!
//! Proved: the table is that of specs/Keywords.antt, so one table serves cards, object texts and
//! decks; numbers have 1 to 12 digits. The law `NumbersAgree` (specs/Laws.antt of `st_laws`)
//! compares them with those of object texts. Pinned: keywords, order and numbers, by
//! specs/Keywords.antt, docs/strap.md, docs/object-text.md and vectors/controls.txt. Free: the
//! bodies, if proofs/keywords follows the loops. A new request is a variant of `Mark`, `Once`, `Number`
//! or `Pair`, by how many numbers its line has, and a row of ORDER, `place`, `word` and, if it is
//! allowed once, `most`; `Controls` (control_cards.rt) has its field.

ghost use Rattle.std.specs.Prelude.{◌≡◌, ◌≤◌, ◌<◌, length};
ghost use Rattle.std.specs.Option.{option_map};
ghost use Rattle.arrayvec.specs.ArrayString.{array_string_len};
ghost use Rattle.st_text.specs.Pieces.{words};
ghost use Rattle.st_card.specs.Keywords as spec;

use crate::cards::columns;
use crate::limits::{MOST_BACK, MOST_NUMBER};
use arrayvec::ArrayVec;
use st_bits::limits::MOST_INSTRUCTIONS;
use st_text::{Line, first_word, number_up_to, open_line};

/// The keyword of a request whose line has no number. It may be requested once.
#[derive(Clone, Copy, Debug, PartialEq, Eq)]
pub enum Mark {
    /// The trace, one line for each instruction.
    Trace,
    /// The timing of the run in ticks.
    Time,
    /// The timetable.
    Chart,
}

/// The keyword of a request whose line has one number, from 1 up to the request's own limit. It may
/// be requested once.
#[derive(Clone, Copy, Debug, PartialEq, Eq)]
pub enum Once {
    /// The budget, the most instructions that the run may complete: 1 to 10,000,000.
    Budget,
    /// The number of instructions to step back at the end of the run, 1 to 64.
    Back,
}

/// The keyword of a request whose line has one number, and which may be requested several times.
#[derive(Clone, Copy, Debug, PartialEq, Eq)]
pub enum Number {
    /// A delay of storage in ticks, 1 to 255; at most 4,096 delays in all. A card may have several.
    Delays,
    /// A tick at which a snapshot of the machine is printed, greater than the last one; at most 64
    /// ticks.
    Snap,
}

/// The keyword of a request whose line has two numbers.
#[derive(Clone, Copy, Debug, PartialEq, Eq)]
pub enum Pair {
    /// An external signal: the number of completed instructions at which it comes, up to 10,000,000
    /// and not less than that of the last signal, and its indicator, 0 to 13; at most 4,096
    /// signals.
    Signals,
    /// A part of storage to be dumped: its first and last word address, up to 98,303; at most 16
    /// parts.
    Dump,
}

/// The keyword of a request, on a control card or a line of an object text.
#[derive(Clone, Copy, Debug, PartialEq, Eq)]
pub enum Keyword {
    /// The listing: no number; allowed once. Only a card requests it.
    Listing,
    /// A request without a number.
    Mark(Mark),
    /// A request with one number, allowed once.
    Once(Once),
    /// A request with one number.
    Number(Number),
    /// A request with two numbers.
    Pair(Pair),
}

/// One request that has a line, with its numbers.
#[derive(Clone, Copy, Debug, PartialEq, Eq)]
pub enum Control {
    /// A request without a number.
    Mark(Mark),
    /// A request with one number, allowed once.
    Once(Once, u64),
    /// A request with one number.
    Number(Number, u64),
    /// A request with two numbers.
    Pair(Pair, u64, u64),
}

/// The text in which a request is written.
#[derive(Clone, Copy, Debug, PartialEq, Eq)]
pub enum ControlForm {
    /// A control card of a deck.
    Card,
    /// A line of an object text.
    ObjectLine,
}

/// The outcome of adding a request.
#[derive(Clone, Copy, Debug, PartialEq, Eq)]
pub enum Addition {
    /// The request was added.
    Added,
    /// The request was refused, and nothing changed.
    Refused,
    /// There was not enough memory for the request, and nothing changed.
    NoMemory,
}

/// The keywords in the order in which requests are written.
pub const ORDER: [Keyword; 10] = [
    Keyword::Once(Once::Budget),
    Keyword::Number(Number::Delays),
    Keyword::Pair(Pair::Signals),
    Keyword::Pair(Pair::Dump),
    Keyword::Mark(Mark::Trace),
    Keyword::Mark(Mark::Time),
    Keyword::Mark(Mark::Chart),
    Keyword::Number(Number::Snap),
    Keyword::Once(Once::Back),
    Keyword::Listing,
];

/// A keyword's position in that order.
pub fn place(keyword: Keyword) -> usize
    ensures place { result ≡ spec.place keyword }
    ensures within { result < length spec.keyword_order }
{
    match keyword {
        Keyword::Once(Once::Budget) => 0,
        Keyword::Number(Number::Delays) => 1,
        Keyword::Pair(Pair::Signals) => 2,
        Keyword::Pair(Pair::Dump) => 3,
        Keyword::Mark(Mark::Trace) => 4,
        Keyword::Mark(Mark::Time) => 5,
        Keyword::Mark(Mark::Chart) => 6,
        Keyword::Number(Number::Snap) => 7,
        Keyword::Once(Once::Back) => 8,
        Keyword::Listing => 9,
    }
}

// The word of a keyword.
fn word(keyword: Keyword, form: ControlForm) -> &'static str
    ensures text { result.now ≡ spec.word keyword form }
    ensures short { length result.now ≤ 7 }
{
    match keyword {
        Keyword::Once(Once::Budget) => "BUDGET",
        Keyword::Number(Number::Delays) => match form {
            ControlForm::Card => "DELAYS",
            ControlForm::ObjectLine => "DELAY",
        },
        Keyword::Pair(Pair::Signals) => "SIGNAL",
        Keyword::Pair(Pair::Dump) => "DUMP",
        Keyword::Mark(Mark::Trace) => "TRACE",
        Keyword::Mark(Mark::Time) => "TIME",
        Keyword::Mark(Mark::Chart) => "CHART",
        Keyword::Number(Number::Snap) => "SNAP",
        Keyword::Once(Once::Back) => "BACK",
        Keyword::Listing => "LIST",
    }
}

// The greatest number of a request that is allowed once.
pub(crate) fn most(once: Once) -> u64
    ensures { result ≡ spec.most once }
{
    match once {
        Once::Budget => MOST_INSTRUCTIONS,
        Once::Back => MOST_BACK,
    }
}

/// Whether an object text has to have a line with this keyword.
pub fn is_required(keyword: Keyword) -> bool
    ensures { result ≡ spec.is_required keyword }
{
    match keyword {
        Keyword::Once(Once::Budget) | Keyword::Number(Number::Delays) => true,
        _ => false,
    }
}

/// The keyword of a request.
pub fn keyword_of(control: Control) -> Keyword
    ensures { result ≡ spec.keyword_of control }
{
    match control {
        Control::Mark(mark) => Keyword::Mark(mark),
        Control::Once(once, _) => Keyword::Once(once),
        Control::Number(number, _) => Keyword::Number(number),
        Control::Pair(pair, _, _) => Keyword::Pair(pair),
    }
}

// The request of a keyword with these numbers, if its line has so many.
fn control_of(keyword: Keyword, numbers: &[u64]) -> Option<Control>
    ensures { result ≡ spec.control_of keyword numbers.now }
{
    match keyword {
        Keyword::Listing => None,
        Keyword::Mark(mark) => match numbers {
            [] => Some(Control::Mark(mark)),
            _ => None,
        },
        Keyword::Once(once) => match numbers {
            [n] => Some(Control::Once(once, *n)),
            _ => None,
        },
        Keyword::Number(number) => match numbers {
            [n] => Some(Control::Number(number, *n)),
            _ => None,
        },
        Keyword::Pair(pair) => match numbers {
            [a, b] => Some(Control::Pair(pair, *a, *b)),
            _ => None,
        },
    }
}

// The prefix of a line.
fn front(form: ControlForm) -> &'static str
    ensures text { result.now ≡ spec.front form }
    ensures short { length result.now ≤ 1 }
{
    match form {
        ControlForm::Card => "/",
        ControlForm::ObjectLine => "",
    }
}

// The beginning of a line, with its keyword.
pub(crate) fn keyword_line(form: ControlForm, keyword: Keyword) -> Line
    ensures text { result.bytes ≡ spec.keyword_text form keyword }
    ensures room { array_string_len result ≤ 8 }
{
    let mut line = open_line(front(form));
    line.push_str(word(keyword, form));
    line
}

/// The keyword that begins a line; `None` for any other word.
pub fn keyword_in(form: ControlForm, word: &[u8]) -> Option<Keyword>
    ensures { result ≡ spec.keyword_in form word.now spec.keyword_order }
{
    let mut rest = ORDER.as_slice();
    // Proofs name the loops by their labels.
    'keywords: while let [keyword, after @ ..] = rest {
        if word == keyword_line(form, *keyword).as_str().as_bytes() {
            return Some(*keyword);
        }
        rest = after;
    }
    None
}

// The numbers of a control card: 72 columns hold at most 36 words.
pub(crate) type Numbers = ArrayVec<u64, 36>;

// The words of a text as numbers; `None` if a word is not a number.
pub(crate) fn read_numbers(text: &[u8]) -> Option<Numbers>
    requires { length text.now ≤ 72 }
    ensures { option_map (λ v. v.items) result ≡ spec.card_numbers (words text.now) }
{
    let mut numbers = ArrayVec::new();
    let mut rest = text;
    'words: while let Some((word, after)) = first_word(rest) {
        numbers.push(card_number(word)?);
        rest = after;
    }
    Some(numbers)
}

// The number that a word spells with 1 to 12 digits; `None` for any other word.
fn card_number(word: &[u8]) -> Option<u64>
    ensures { result ≡ spec.card_number word.now }
{
    if word.len() > 12 {
        return None;
    }
    number_up_to(word, MOST_NUMBER)
}

/// The request of a keyword with the numbers in this text, of which 72 characters are read.
pub fn control_in(keyword: Keyword, text: &[u8]) -> Option<Control>
    ensures { result ≡ spec.control_in keyword text.now }
{
    let numbers = read_numbers(columns(text))?;
    control_of(keyword, numbers.as_slice())
}
