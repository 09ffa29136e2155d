//! The requests of a job's control cards: budget, delays, signals, dumps and what the report shows.
//! The assembler (`st_asm`) adds a card at a time (`add`), `st_object` a line of an object text at
//! a time (`ask`); `st_run`, `st_telling`, `st_top` and `st_account` read the result. docs/strap.md
//! has the rules.
//!
//! Proved: the new requests are those of specs/Controls.antt (`asked_with_card`, `with_keyword`),
//! or the card is refused and nothing changed (`Settles`, `Explains` of specs/Answers.antt).
//! `IsWithinLimits` of specs/Limits.antt is kept. Laws (specs/Laws.antt): `NumbersAgree` of
//! `st_laws`, `ControlsComeBack` of `st_dis`. Pinned: which cards are accepted, by
//! specs/Controls.antt, docs/strap.md and vectors/controls.txt. Free: the bodies, if
//! proofs/control_cards follows those of `delays_in` and `add`. A new request touches the files
//! that docs/changing.md lists.

ghost use Rattle.std.specs.Prelude.{◌≡◌, ◌≤◌, [], ◌∷◌, length, slice_get, true, Some, None, if◌then◌else◌, OnOk, OnErr, IfErr};
ghost use Rattle.std.specs.List.{list_all};
ghost use Rattle.std.specs.Option.{option_map};
ghost use Rattle.st_card.specs.Controls as spec;
ghost use Rattle.st_card.specs.Keywords.{most as most_of};
ghost use Rattle.st_text.specs.Pieces.{words};
ghost use Rattle.st_card.specs.Limits.{IsWithinLimits};
ghost use Rattle.st_card.specs.Written.{asked_by, where_asked, unless_zero};
ghost use Rattle.st_card.specs.Answers.{Settles, Appends, Marks, Explains};

use crate::cards::columns;
use crate::faults::Fault;
use crate::keywords::{
    Addition, Control, ControlForm, Keyword, Mark, Number, Once, Pair, keyword_in, most,
    read_numbers,
};
use crate::limits::{MOST_DUMPS, MOST_SNAPS};
use arrayvec::ArrayVec;
use st_bits::indicators::CHANNEL_SIGNAL;
use st_bits::limits::{LAST_WORD, LONGEST_LIST, MOST_DELAY, MOST_INSTRUCTIONS};
use st_text::first_word;
use std::alloc::Global;
use std::marker::Model;

/// An external signal: it turns on an indicator after a number of completed instructions.
#[derive(Clone, Copy, Debug, PartialEq, Eq)]
pub struct Signal {
    /// The number of completed instructions at which the signal comes, up to 10,000,000.
    pub count: u64,
    /// The indicator that the signal turns on, 0 to 13.
    pub indicator: u8,
}

/// Why a control card was not added.
#[derive(Clone, Copy, Debug, PartialEq, Eq)]
pub enum CardError {
    /// The card with number `card` is unknown, malformed, repeated where only one is allowed, or
    /// past a limit.
    Refused { card: u32, fault: Fault },
    /// There was not enough memory for the card's request.
    NoMemory,
}

/// The requests of a job's control cards.
#[derive(Debug, Drop)]
pub struct Controls {
    /// The budget: the most instructions that the run may complete, up to 10,000,000; 0 if no card
    /// sets it.
    pub budget: u64,
    /// The delays of storage in ticks, each 1 to 255, at most 4,096 of them.
    pub delays: Vec<u8>,
    /// The signals in nondecreasing order of their counts, at most 4,096 of them.
    pub signals: Vec<Signal>,
    /// The parts of storage to be dumped, each as its first and last word address, up to 98,303; at
    /// most 16 parts.
    pub dumps: ArrayVec<(u32, u32), MOST_DUMPS>,
    /// The ticks of the snapshots in increasing order, each of at most 12 digits; at most 64 of
    /// them.
    pub snaps: ArrayVec<u64, MOST_SNAPS>,
    /// Whether a listing is requested.
    pub list: bool,
    /// Whether a trace, one line for each instruction, is requested.
    pub trace: bool,
    /// Whether the timing of the run in ticks is requested.
    pub time: bool,
    /// Whether the timetable is requested.
    pub chart: bool,
    /// The number of instructions to step back at the end of the run, 1 to 64; 0 if no card
    /// requests it.
    pub back: u8,
}

impl Model for Controls {
    ghost use Rattle.st_card.specs.Controls.{Asked};

    // Contracts see all fields, the lists without their capacities.
    ghost Value = { Asked };

    ghost view = { λ c. record {
      budget = c.budget;
      delays = c.delays.items;
      signals = c.signals.items;
      dumps = c.dumps.items;
      snaps = c.snaps.items;
      list = c.list;
      trace = c.trace;
      time = c.time;
      chart = c.chart;
      back = c.back;
    } };
}

impl Controls {
    /// Controls without any request.
    pub fn new(alloc: Global) -> Controls
        ensures nothing { result ≡ spec.nothing_asked }
        ensures limits { IsWithinLimits result }
    {
        Controls {
            budget: 0,
            delays: Vec::new(alloc),
            signals: Vec::new(alloc),
            dumps: ArrayVec::new(),
            snaps: ArrayVec::new(),
            list: false,
            trace: false,
            time: false,
            chart: false,
            back: 0,
        }
    }

    /// The budget of the run in instructions; 0 if no card sets it.
    pub fn budget(&self) -> u64
        ensures { result ≡ self.now.budget }
    {
        self.budget
    }

    /// The requested delays of storage, in ticks.
    pub fn delays(&self) -> &[u8]
        ensures { result.now ≡ self.now.delays }
    {
        self.delays.as_slice()
    }

    /// The requested signals.
    pub fn signals(&self) -> &[Signal]
        ensures { result.now ≡ self.now.signals }
    {
        self.signals.as_slice()
    }

    /// The ticks of the requested snapshots.
    pub fn snaps(&self) -> &[u64]
        ensures { result.now ≡ self.now.snaps }
    {
        self.snaps.as_slice()
    }

    /// Whether a listing is requested.
    pub fn is_listed(&self) -> bool
        ensures { result ≡ self.now.list }
    {
        self.list
    }

    /// Whether a trace, one line for each instruction, is requested.
    pub fn is_traced(&self) -> bool
        ensures { result ≡ self.now.trace }
    {
        self.trace
    }

    /// Whether the timing of the run in ticks is requested.
    pub fn is_timed(&self) -> bool
        ensures { result ≡ self.now.time }
    {
        self.time
    }

    /// Whether the timetable is requested.
    pub fn is_charted(&self) -> bool
        ensures { result ≡ self.now.chart }
    {
        self.chart
    }

    /// Adds the request of a control card.
    ///
    /// `card` is the card's number. Only the first 72 characters of its `text` are read. A card
    /// that is unknown, malformed, repeated where only one is allowed, or past a limit is refused
    /// with `BadControlCard`. After a refusal, and after a lack of memory, the controls are
    /// unchanged.
    pub fn add(&mut self, card: u32, text: &[u8]) -> Result<(), CardError>
        ensures ok { OnOk result (spec.asked_with_card self.old text.now ≡ Some self.new) }
        ensures err { IfErr result (Explains (spec.asked_with_card self.old text.now) card) }
        ensures unchanged { OnErr result (self.new ≡ self.old) }

        // Controls that only control cards have changed stay within the limits of control cards.
        ensures limits { IsWithinLimits self.old → IsWithinLimits self.new }
    {
        match self.add_text(columns(text)) {
            Addition::Added => Ok(()),
            Addition::Refused => Err(CardError::Refused {
                card,
                fault: Fault::BadControlCard,
            }),
            Addition::NoMemory => Err(CardError::NoMemory),
        }
    }

    /// Adds one request.
    ///
    /// The request is refused if it is past a limit, or if it is repeated where only one is allowed.
    /// After a refusal, and after a lack of memory, the controls are unchanged.
    pub fn add_control(&mut self, control: Control) -> Addition
        ensures { Settles self.old self.new (spec.with_control self.old control) result }
    {
        match control {
            Control::Mark(mark) => self.ask(Keyword::Mark(mark), &[]),
            Control::Once(once, n) => self.ask(Keyword::Once(once), &[n]),
            Control::Number(number, n) => self.ask(Keyword::Number(number), &[n]),
            Control::Pair(pair, a, b) => self.ask(Keyword::Pair(pair), &[a, b]),
        }
    }

    /// The number of requests with this keyword that have a line.
    pub fn count(&self, keyword: Keyword) -> usize
        ensures { result ≡ length (asked_by keyword self.now) }
    {
        match keyword {
            Keyword::Listing => 0,
            Keyword::Mark(mark) => usize::from(self.is_marked(mark)),
            Keyword::Once(once) => usize::from(self.number(once) != 0),
            Keyword::Number(Number::Delays) => self.delays.len(),
            Keyword::Number(Number::Snap) => self.snaps.len(),
            Keyword::Pair(Pair::Signals) => self.signals.len(),
            Keyword::Pair(Pair::Dump) => self.dumps.len(),
        }
    }

    // The request with this keyword that has this index among them.
    pub(crate) fn request(&self, keyword: Keyword, index: usize) -> Option<Control>
        ensures { result ≡ slice_get (asked_by keyword self.now) index }
    {
        match keyword {
            Keyword::Listing => None,
            Keyword::Mark(mark) => only(index, self.is_marked(mark), Control::Mark(mark)),
            Keyword::Once(once) => {
                let n = self.number(once);
                nonzero(index, n, Control::Once(once, n))
            }
            Keyword::Number(Number::Delays) => match self.delays.get(index) {
                Some(delay) => Some(Control::Number(Number::Delays, u64::from(*delay))),
                None => None,
            },
            Keyword::Number(Number::Snap) => match self.snaps.get(index) {
                Some(tick) => Some(Control::Number(Number::Snap, *tick)),
                None => None,
            },
            Keyword::Pair(Pair::Signals) => match self.signals.get(index) {
                Some(signal) => Some(Control::Pair(
                    Pair::Signals,
                    signal.count,
                    u64::from(signal.indicator),
                )),
                None => None,
            },
            Keyword::Pair(Pair::Dump) => match self.dumps.get(index) {
                Some((first, last)) => Some(Control::Pair(
                    Pair::Dump,
                    u64::from(*first),
                    u64::from(*last),
                )),
                None => None,
            },
        }
    }

    // Adds the request of a keyword with its numbers, at most 36.
    //
    // The request is refused if the count of numbers is wrong, if it is past a limit, or if it is
    // repeated where only one is allowed. After a refusal, and after a lack of memory, the controls
    // are unchanged.
    fn ask(&mut self, keyword: Keyword, numbers: &[u64]) -> Addition
        requires { length numbers.now ≤ 36 }
        ensures { Settles self.old self.new
            (spec.with_keyword keyword self.old numbers.now) result }
    {
        match keyword {
            Keyword::Listing => set_flag(&mut self.list, numbers),
            Keyword::Mark(mark) => self.add_mark(mark, numbers),
            Keyword::Once(once) => self.add_once(once, numbers),
            Keyword::Number(Number::Delays) => self.add_delays(numbers),
            Keyword::Number(Number::Snap) => self.add_snap(numbers),
            Keyword::Pair(Pair::Signals) => self.add_signal(numbers),
            Keyword::Pair(Pair::Dump) => self.add_dump(numbers),
        }
    }

    // Adds the request of a control card with this text.
    fn add_text(&mut self, text: &[u8]) -> Addition
        requires { length text.now ≤ 72 }
        ensures { Settles self.old self.new (spec.with_words self.old (words text.now)) result }
    {
        let Some((word, rest)) = first_word(text) else {
            return Addition::Refused;
        };
        let Some(keyword) = keyword_in(ControlForm::Card, word) else {
            return Addition::Refused;
        };
        let Some(numbers) = read_numbers(rest) else {
            return Addition::Refused;
        };
        self.ask(keyword, numbers.as_slice())
    }

    // Whether the request of this mark is made.
    fn is_marked(&self, mark: Mark) -> bool
        ensures { result ≡ spec.is_marked mark self.now }
    {
        match mark {
            Mark::Trace => self.trace,
            Mark::Time => self.time,
            Mark::Chart => self.chart,
        }
    }

    // Makes the request of this mark.
    fn set_mark(&mut self, mark: Mark)
        ensures { self.new ≡ spec.with_mark mark true self.old }
    {
        match mark {
            Mark::Trace => self.trace = true,
            Mark::Time => self.time = true,
            Mark::Chart => self.chart = true,
        }
    }

    // The number of a request that is allowed once; 0 without it.
    fn number(&self, once: Once) -> u64
        ensures { result ≡ spec.number_of once self.now }
    {
        match once {
            Once::Budget => self.budget,
            Once::Back => u64::from(self.back),
        }
    }

    // Makes a request that is allowed once, with a number within its limit.
    fn set_number(&mut self, once: Once, n: u64)
        requires { n ≤ most_of once }
        ensures { self.new ≡ spec.with_number once n self.old }
    {
        match once {
            Once::Budget => self.budget = n,
            Once::Back => self.back = n as u8,
        }
    }

    // Adds a request without a number.
    fn add_mark(&mut self, mark: Mark, numbers: &[u64]) -> Addition
        ensures { Settles self.old self.new (spec.with_flag (spec.is_marked mark self.old)
            (spec.with_mark mark true self.old) numbers.now) result }
    {
        if self.is_marked(mark) || !numbers.is_empty() {
            return Addition::Refused;
        }
        self.set_mark(mark);
        Addition::Added
    }

    // Adds a request that is allowed once.
    fn add_once(&mut self, once: Once, numbers: &[u64]) -> Addition
        ensures { Settles self.old self.new (spec.with_once once self.old numbers.now) result }
    {
        match numbers {
            [n] if self.number(once) == 0 && (1..=most(once)).contains(n) => {
                self.set_number(once, *n);
                Addition::Added
            }
            _ => Addition::Refused,
        }
    }

    // Adds `/DELAYS d d ..`.
    fn add_delays(&mut self, numbers: &[u64]) -> Addition
        requires { length numbers.now ≤ 36 }
        ensures { Settles self.old self.new (spec.with_delays self.old numbers.now) result }
    {
        if numbers.is_empty() || self.delays.len() + numbers.len() > LONGEST_LIST {
            return Addition::Refused;
        }
        match delays_in(numbers) {
            None => Addition::Refused,
            Some(delays) => push_delays(&mut self.delays, delays.as_slice()),
        }
    }

    // Adds `/SIGNAL count indicator`.
    fn add_signal(&mut self, numbers: &[u64]) -> Addition
        ensures { Settles self.old self.new (spec.with_signal self.old numbers.now) result }
    {
        match numbers {
            [count, indicator]
                if self.signals.len() < LONGEST_LIST
                    && *count <= MOST_INSTRUCTIONS
                    && *indicator <= u64::from(CHANNEL_SIGNAL)
                    && self.signals.last().is_none_or(|last| last.count <= *count) => {
                let signal = Signal {
                    count: *count,
                    indicator: *indicator as u8,
                };
                push_signal(&mut self.signals, signal)
            }
            _ => Addition::Refused,
        }
    }

    // Adds `/DUMP from to`.
    fn add_dump(&mut self, numbers: &[u64]) -> Addition
        ensures { Settles self.old self.new (spec.with_dump self.old numbers.now) result }
    {
        match numbers {
            [first, last]
                if !self.dumps.is_full() && first <= last && *last <= u64::from(LAST_WORD) => {
                self.dumps.push((*first as u32, *last as u32));
                Addition::Added
            }
            _ => Addition::Refused,
        }
    }

    // Adds `/SNAP tick`.
    fn add_snap(&mut self, numbers: &[u64]) -> Addition
        ensures { Settles self.old self.new (spec.with_snap self.old numbers.now) result }
    {
        match numbers {
            [tick] if !self.snaps.is_full() && self.snaps.last().is_none_or(|last| last < tick) => {
                self.snaps.push(*tick);
                Addition::Added
            }
            _ => Addition::Refused,
        }
    }
}

// The control, if the flag is set and the index is zero.
fn only(index: usize, asked: bool, control: Control) -> Option<Control>
    ensures { result ≡ slice_get (where_asked asked control) index }
{
    if asked && index == 0 {
        Some(control)
    } else {
        None
    }
}

// The control, if the number is not zero and the index is.
fn nonzero(index: usize, n: u64, control: Control) -> Option<Control>
    ensures { result ≡ slice_get (unless_zero n control) index }
{
    if n != 0 && index == 0 {
        Some(control)
    } else {
        None
    }
}

// Sets a flag that is not set yet, if no numbers follow its keyword.
fn set_flag(flag: &mut bool, numbers: &[u64]) -> Addition
    ensures { Marks flag.old flag.new numbers.now result }
{
    if *flag || !numbers.is_empty() {
        return Addition::Refused;
    }
    *flag = true;
    Addition::Added
}

// The numbers as delays, if each is 1 to 255.
fn delays_in(numbers: &[u64]) -> Option<ArrayVec<u8, 36>>
    requires { length numbers.now ≤ 36 }
    ensures { option_map (λ v. v.items) result
        ≡ (if list_all (spec.is_in_range 1 MOST_DELAY) numbers.now then Some numbers.now
        else None) }
{
    let mut delays = ArrayVec::new();
    let mut rest = numbers;
    // Proofs name the loop by its label.
    'numbers: while let [number, after @ ..] = rest {
        if !(1..=MOST_DELAY).contains(number) {
            return None;
        }
        delays.push(*number as u8);
        rest = after;
    }
    Some(delays)
}

// Appends delays to a list.
fn push_delays(delays: &mut Vec<u8>, more: &[u8]) -> Addition
    ensures { Appends delays.old.items delays.new.items more.now result }
{
    match delays.extend_from_slice(more) {
        Ok(()) => Addition::Added,
        Err(_) => Addition::NoMemory,
    }
}

// Appends a signal to a list.
fn push_signal(signals: &mut Vec<Signal>, signal: Signal) -> Addition
    ensures { Appends signals.old.items signals.new.items (signal ∷ []) result }
{
    match signals.push(signal) {
        Ok(()) => Addition::Added,
        Err(_) => Addition::NoMemory,
    }
}
