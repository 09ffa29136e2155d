//! The progress of an entry (one executed instruction) through its instruction words: each word is
//! requested in order, after the answers of the words before it and after the completion of earlier
//! entries that write those words. docs/timetable.md has the rules.
//!
//! `st_next` calls `restart` and `word`; reading.rt continues with the operand words in this
//! structure. `wanted` has the tick of the first request; ticks are at most 2^64 - 512.
//!
//! Proved: the progress after a word is `fetch_word` of specs/Words.antt (clause `after`). The log
//! and the observer get the request of that word (clauses `log` and `told`).
//!
//! Pinned, by `fetch_word` and docs/timetable.md: the next word, and the address, await the
//! completion of each earlier entry that writes a word so far (`awaited`). Free: the bodies.
ghost use Rattle.std.specs.Prelude.{◌≡◌, ◌-◌, ◌≤◌, ◌^◌, ◌∷◌, [], max};
ghost use Rattle.st_fetch.specs.Planned.{tick_of};
ghost use Rattle.st_rows.specs.Asked.{word_asked};
ghost use Rattle.st_rows.specs.Notes.{log_after_reads};
ghost use Rattle.st_rows.specs.Words.{fetch_word};
ghost use Rattle.st_rows.specs.Ranges.{IsFetchingWithin, ArePastWithin};
ghost use Rattle.st_rows.specs.Supplies.{told};
ghost use Rattle.st_rows.specs.Uses.{use_of};
ghost use Rattle.st_rows.specs.declared.uses.Role.TheVariants.{Instruction};

use crate::bus::Bus;
use crate::log::Log;
use crate::past::LastEntries;
use crate::uses::{Role, Wish};
use crate::watch::Watch;
use st_banks::Delays;

/// A request for words: its tick, the delays of storage, and the previous entries, which may write
/// these words.
#[derive(Clone, Copy)]
pub struct Wanted<'a> {
    /// The tick of the request.
    pub tick: u64,
    /// The delays of storage.
    pub delays: &'a Delays,
    /// The previous entries of the segment.
    pub past: &'a LastEntries,
}

/// The progress of an entry through its words: the instruction words first, then the others.
#[derive(Clone, Copy, Debug, Default, PartialEq, Eq)]
pub struct Fetching {
    /// The bus after the words that are read so far.
    pub bus: Bus,
    /// For instruction words, their latest answer so far, 0 before the first. For operands, the
    /// latest of their answers and the tick at which the entry is prepared.
    pub answered: u64,
    /// The latest completion of an entry that writes one of the instruction words, 0 if none does.
    pub awaited: u64,
}

impl Fetching {
    /// The progress before any word is fetched.
    pub fn new(bus: Bus) -> Fetching
        ensures { result ≡ record { bus = bus; answered = 0; awaited = 0 } }
    {
        Fetching {
            bus,
            answered: 0,
            awaited: 0,
        }
    }

    /// Starts the next entry: no word is fetched, and the bus stays as it is.
    pub fn restart(&mut self)
        ensures { self.new ≡ record { bus = self.old.bus; answered = 0; awaited = 0 } }
    {
        self.answered = 0;
        self.awaited = 0;
    }

    /// Fetches the next instruction word and reports it to the observer. If the word is not held,
    /// its read is recorded in the log.
    #[inline(always)]
    pub fn word<W: Watch>(&mut self, log: &mut Log, watch: &mut W, wanted: &Wanted<'_>, w: u32)
        requires room { IsFetchingWithin (2 ^ 64 - 512) self.old }
        requires before { ArePastWithin (2 ^ 64 - 512) wanted.now.past.now }
        requires early { wanted.now.tick ≤ 2 ^ 64 - 512 }
        requires storage { 32 ≤ w }

        ensures after { let x = wanted.now in
            self.new ≡ fetch_word x.delays.now.list x.past.now self.old w x.tick }
        ensures log { let x = wanted.now in log.new ≡ log_after_reads x.delays.now.list
            (word_asked (tick_of self.old.bus.held.words w) w
            (max (max x.tick self.old.answered) self.old.awaited)) self.old.bus log.old }
        ensures told { let x = wanted.now in let ds = x.delays.now.list in
            watch.new ≡ W.noted (told ds x.past.now (use_of ds x.past.now self.old
            (record { role = Instruction; w = w; from = x.tick }) ∷ [])) watch.old }
    {
        let want = wanted.tick.max(self.answered).max(self.awaited);
        let wish = Wish {
            role: Role::Instruction,
            w,
            from: want,
        };
        let tick = self.bus.request(log, watch, wanted.delays, wish);
        self.answered = self.answered.max(tick);
        let past = wanted.past;
        self.awaited = self.awaited.max(past.latest_done(w));
    }
}
