//! Observers of the words that an entry (instruction) requests: bus.rt, fetching.rt, reading.rt and
//! issue.rt notify one of each word, in order, with its role and source. docs/ledger.md has the
//! lines that the ledger makes of these words ("Uses").
//!
//! The overlapped machine (`st_ahead`, by the calls of `st_next`) uses `Nobody`, so that nothing is
//! stored; the ledger (`st_plain`) uses `Uses` to list the words. Another observer implements
//! `Watch` with `noted`, the observer after some words, and proves its laws (`noted_none`,
//! `noted_more`).
//!
//! Proved: each method is `noted` of one word. The clauses `told` of the calls that notify say
//! exactly which words come.
//!
//! Pinned, by the clauses `told` and by `Supply` of uses.rt: four methods, one for each source. A
//! register is never requested; `fill` of issue.rt notifies of those among the operand words,
//! `st_plain` of an index-side word. Free: the bodies.
ghost use Rattle.std.specs.Prelude.{◌≡◌, refl, ◌∷◌, ◌++◌, [], List};
ghost use Rattle.st_rows.specs.Supplies.{writer_back};
ghost use Rattle.st_rows.specs.KeptUses.{uses_with, uses_with_none, uses_with_more};
ghost use Rattle.st_rows.specs.declared.uses.Use.{Use as Used};
ghost use Rattle.st_rows.specs.declared.uses.Supply.TheVariants as from;

use crate::past::LastEntries;
use crate::uses::{ReadTicks, Role, Supply, Use, Uses, Writer};

/// An observer of the words that an entry requests. It is notified of each word with its source, in
/// the order of the requests.
pub trait Watch {
    // The observer after it is notified of these words.
    ghost noted: { List Used → Self → Self };

    /// Word `w` is read: `read` has the ticks of its request, turn, bank, acceptance and answer.
    fn read(&mut self, role: Role, w: u32, read: &ReadTicks)
        ensures { self.new ≡ noted
            (record { role = role; word = w; supply = from.Read read.now } ∷ []) self.old };

    /// An instruction word is held, and its answer is at this tick.
    fn held(&mut self, role: Role, w: u32, answer: u64)
        ensures { self.new ≡ noted
            (record { role = role; word = w; supply = from.Held answer } ∷ []) self.old };

    /// A word is forwarded from its latest writer in `past`, the last eight entries: `back` entries
    /// before this one. It completes at this tick.
    fn forwarded(&mut self, role: Role, w: u32, past: &LastEntries, done: u64)
        ensures { self.new ≡ noted (record {
          role = role;
          word = w;
          supply = from.Forwarded (record { back = writer_back past.now w; done = done });
        } ∷ []) self.old };

    /// Word `w` is a register, which is never requested.
    fn register(&mut self, role: Role, w: u32)
        ensures { self.new ≡ noted
            (record { role = role; word = w; supply = from.Register } ∷ []) self.old };

    ghost noted_none: { (m : Self) → noted [] m ≡ m };

    ghost noted_more: { (a b : List Used) (m : Self) → noted b (noted a m) ≡ noted (a ++ b) m };
}

/// The observer that ignores all words.
#[derive(Clone, Copy, Debug, Default, PartialEq, Eq)]
pub struct Nobody;

impl Watch for Nobody {
    ghost noted = { λ _ m. m };

    ghost noted_none = { λ m. refl };

    ghost noted_more = { λ a b m. refl };

    fn read(&mut self, _role: Role, _w: u32, _read: &ReadTicks) {}

    fn held(&mut self, _role: Role, _w: u32, _answer: u64) {}

    fn forwarded(&mut self, _role: Role, _w: u32, _past: &LastEntries, _done: u64) {}

    fn register(&mut self, _role: Role, _w: u32) {}
}

/// Appends each word to the list.
impl Watch for Uses {
    ghost noted = { uses_with };

    ghost noted_none = { uses_with_none };

    ghost noted_more = { uses_with_more };

    fn read(&mut self, role: Role, word: u32, read: &ReadTicks) {
        self.push(Use {
            role,
            word,
            supply: Supply::Read(*read),
        });
    }

    fn held(&mut self, role: Role, word: u32, answer: u64) {
        self.push(Use {
            role,
            word,
            supply: Supply::Held(answer),
        });
    }

    fn forwarded(&mut self, role: Role, word: u32, past: &LastEntries, done: u64) {
        let back = past.latest_back(word);
        self.push(Use {
            role,
            word,
            supply: Supply::Forwarded(Writer { back, done }),
        });
    }

    fn register(&mut self, role: Role, word: u32) {
        self.push(Use {
            role,
            word,
            supply: Supply::Register,
        });
    }
}
