//! The bus: the one way to the banks of storage, which accepts at most one read a tick, in the
//! order of the requests; and which instruction words are held (an instruction buffer of four).
//! docs/timetable.md has the rules.
//!
//! fetching.rt, reading.rt and issue.rt make their reads here, instruction words and following
//! words by `request`, others by `read`. Each read is added to the log (log.rt) and told to an
//! observer (`Watch`). Addresses are word addresses; ticks are at most 2^64 - 512. issue.rt reads
//! `free`; `st_ahead` and `st_account` take `banks` at the end of a segment.
//!
//! Proved: the answers and the bus after them are those of specs/BusTimes.antt (clauses `value`,
//! `after`), the log has at most 64 records (specs/Notes.antt), the observer hears what
//! specs/Supplies.antt says. Law: `ReadsComeInOrder` (specs/Laws.antt).
//!
//! Pinned, by specs/BusTimes.antt and docs/timetable.md: one read a tick, in order, at the latest
//! of want, turn and bank; four held words. Free: the bodies.
ghost use Rattle.std.specs.Prelude.{◌≡◌, ◌-◌, ◌≤◌, ◌^◌, ◌∷◌, [], take, false};
ghost use Rattle.st_rows.specs.BusTimes.{no_reads, bus_after_read, answer_at, bus_after_request, answer_tick_on};
ghost use Rattle.st_fetch.specs.Planned.{tick_of};
ghost use Rattle.st_rows.specs.Asked.{word_asked};
ghost use Rattle.st_rows.specs.Notes.{note, log_after_reads};
ghost use Rattle.st_rows.specs.Ranges.{IsBusWithin};
ghost use Rattle.st_rows.specs.Supplies.{read_ticks, fetch_supply};
ghost use Rattle.st_rows.specs.declared.uses.Supply.TheVariants as from;

use crate::log::{Log, Made};
use crate::uses::{ReadTicks, Wish};
use crate::watch::Watch;
use st_banks::{Delays, LastAnswers};
use st_fetch::HeldWords;

/// The bus to storage. It accepts at most one read per tick, in the order of the requests.
#[derive(Clone, Copy, Debug, Default, PartialEq, Eq)]
pub struct Bus {
    /// The last answer of each bank.
    pub banks: LastAnswers,
    /// The first tick at which the next read can be accepted.
    pub free: u64,
    /// The instruction words that were requested last.
    pub held: HeldWords,
}

impl Bus {
    /// The bus of a segment that starts at the tick `start` with these last answers of the banks.
    pub fn new(banks: LastAnswers, start: u64) -> Bus
        ensures { result ≡ no_reads banks start }
    {
        Bus {
            banks,
            free: start,
            held: HeldWords::new(),
        }
    }

    /// Reads a word, records the read in the log, and reports it to the observer. Returns the tick
    /// of the answer.
    #[inline(always)]
    pub fn read<W: Watch>(
        &mut self,
        log: &mut Log,
        watch: &mut W,
        delays: &Delays,
        wish: Wish,
    ) -> u64
        requires room { IsBusWithin (2 ^ 64 - 512) self.old }
        requires early { wish.from ≤ 2 ^ 64 - 512 }
        ensures value { result ≡ answer_at delays.now.list self.old wish.w wish.from }
        ensures after { self.new ≡ bus_after_read delays.now.list self.old wish.w wish.from }
        ensures log { log.new ≡ take 64 (note self.old (record {
          w = wish.w;
          want = wish.from;
          fetch = false;
        }) ∷ log.old) }
        ensures told { watch.new ≡ W.noted (record {
          role = wish.role;
          word = wish.w;
          supply = from.Read (read_ticks delays.now.list self.old wish.w wish.from);
        } ∷ []) watch.old }
    {
        let Wish { role, w, from } = wish;
        let accept = self.banks.accept_tick(w, self.free, from);
        let answer = delays.answer(accept);
        let before = self.banks.of(w);
        log.put(Made {
            tick: accept,
            before,
            w,
        });
        let ticks = ReadTicks {
            want: from,
            turn: self.free,
            free: before,
            accept,
            answer,
        };
        watch.read(role, w, &ticks);
        self.banks.answer(w, answer);
        self.free = accept + 1;
        answer
    }

    /// Requests an instruction word. A word that is not held is read, and is held from then on.
    /// Returns the tick of its answer.
    #[inline(always)]
    pub fn request<W: Watch>(
        &mut self,
        log: &mut Log,
        watch: &mut W,
        delays: &Delays,
        wish: Wish,
    ) -> u64
        requires room { IsBusWithin (2 ^ 64 - 512) self.old }
        requires early { wish.from ≤ 2 ^ 64 - 512 }
        ensures value { result ≡ answer_tick_on delays.now.list self.old wish.w wish.from }
        ensures after { self.new ≡ bus_after_request delays.now.list self.old wish.w wish.from }
        ensures log { log.new ≡ log_after_reads delays.now.list
            (word_asked (tick_of self.old.held.words wish.w) wish.w wish.from) self.old log.old }
        ensures told { watch.new ≡ W.noted (record {
          role = wish.role;
          word = wish.w;
          supply = fetch_supply (tick_of self.old.held.words wish.w) delays.now.list self.old
              wish.w wish.from;
        } ∷ []) watch.old }
    {
        if let Some(tick) = self.held.tick_of(wish.w) {
            watch.held(wish.role, wish.w, tick);
            return tick;
        }
        let tick = self.read(log, watch, delays, wish);
        self.held.request(wish.w, tick);
        tick
    }
}
