//! The look-ahead of a machine: levels (entries in flight: prepared, not complete), the issue state
//! after them (the input of the timetable), a log of reads, and the fetch unit; and its start and
//! end with a segment, the entries between two flushes. docs/timetable.md has the rules.
//!
//! machine.rt calls `new`, `end` and `give_up`; other files of this crate advance it. A segment
//! starts one tick after the completion that ended the last one, plus one for each flushed level.
//!
//! Proved: the next segment is open (`IsOpened` in specs/Forecast.antt), at that tick and with the
//! banks of the reads that are accepted before `now` (`answers_before` in specs/Inside.antt), or
//! idle banks if no entry completed. Pinned: these ticks, by `opening_issue` (specs/Rows.antt of
//! `st_rows`), docs/timetable.md and vectors/timetable.txt. Free: whether the fetch unit is rebuilt
//! or reused; the bodies, if proofs/lookahead follows.
ghost use Rattle.std.specs.Prelude.{◌≡◌, ℕ, ◌+◌, ◌≤◌, ◌-◌, ◌^◌, Option, All, List};
ghost use Rattle.st_bits.specs.Indicators.{IsIndicatorIfAny};
ghost use Rattle.st_bits.specs.declared.limits.TheConstants.{MOST_DELAY};
ghost use Rattle.st_state.specs.Machine.{Machine, IsMachine};
ghost use Rattle.st_prep.specs.Fetch.{index_words as index_words_of};
ghost use Rattle.st_rows.specs.Rows.{opening_issue};
ghost use Rattle.st_rows.specs.declared.issue.IssueState.{IssueState as IssueStateOf};
ghost use Rattle.st_banks.specs.Bank.{idle_banks};

use st_banks::{Delays, LastAnswers};
use st_next::FetchUnit;
use st_prep::{Place, Prepared, index_words, place_of};
use st_ring::{Completed, Levels};
use st_rows::{IssueState, Log};
use st_state::State;
use std::marker::Model;

/// The look-ahead of a machine with N levels, 1 to 8.
#[derive(Drop)]
pub struct Lookahead<const N: usize> {
    /// The entries in flight, and the index words with their speculative changes.
    pub levels: Levels<N>,
    /// The issue state after the levels.
    pub issue: IssueState,
    /// The reads of the segment that can still be undone.
    pub log: Log,
    /// The next entry. All reads are made on its bus.
    pub next: FetchUnit,
}

impl<const N: usize> Model for Lookahead<N> {
    ghost use Rattle.st_ahead.specs.Forecast.{LookaheadView};

    ghost Value = { LookaheadView };

    ghost view = { λ lookahead. record {
      levels = lookahead.levels;
      issue = lookahead.issue;
      log = lookahead.log;
      next = lookahead.next;
    } };
}

impl<const N: usize> Lookahead<N> {
    ghost use Rattle.st_ahead.specs.Forecast.{IsLookahead, IsOpened, count};
    ghost use Rattle.st_ahead.specs.Inside.{answers_before};

    /// A look-ahead without levels. Its segment starts at the tick `start`, at most 2^64 - 1,024,
    /// with these last answers of the banks, none later than `start` + 255. `table` is the
    /// indicator of an interrupt, if its table instruction comes first.
    pub fn new(state: &State, table: Option<u8>, banks: LastAnswers, start: u64) -> Lookahead<N>
        requires some { 1 ≤ N }
        requires few { N ≤ 8 }
        requires indicator { IsIndicatorIfAny table }
        requires early { start ≤ 2 ^ 64 - 1024 }
        requires banks { All (λ t. t ≤ start + MOST_DELAY) banks.ticks }

        ensures opened { IsOpened table state.now (opening_issue banks start) result }
        ensures machine { IsMachine state.now }
    {
        let issue = IssueState::new(banks, start);
        let next = FetchUnit::new(place_of(state, table), issue.bus);
        Lookahead {
            levels: Levels::new(index_words(state)),
            issue,
            log: Log::new(),
            next,
        }
    }

    /// Ends the segment at the tick `now`, at most 2^64 - 2,048: flushes the levels, restores their
    /// index words, and opens the next segment one tick later, plus one for each flushed level. In
    /// the banks the reads that are accepted at `now` or later are undone. Returns the number of
    /// flushed levels.
    pub fn end(&mut self, state: &State, table: Option<u8>, now: u64) -> u8
        requires indicator { IsIndicatorIfAny table }
        requires early { now ≤ 2 ^ 64 - 2048 }
        requires near { All (λ b. b ≤ now + MOST_DELAY) (answers_before now self.old).ticks }

        ensures dropped { result ≡ count self.old }
        ensures banks { All (λ b. b ≤ now + 1 + count self.old + MOST_DELAY)
            (answers_before now self.old).ticks }
        ensures opened { (ds : List ℕ) (tick : ℕ) (t : Option ℕ) (s : Machine) (f : IssueStateOf) →
            IsLookahead ds N tick now t s f self.old → index_words_of s ≡ index_words_of state.now →
            IsOpened table state.now (opening_issue (answers_before now self.old) (now + 1 + count
            self.old)) self.new }
        ensures few { count self.old ≤ N }
        ensures machine { IsMachine state.now }
    {
        let mut banks = self.next.words.bus.banks;
        self.log.undo(&mut banks, now);
        let dropped = self.levels.undo();
        let start = now + 1 + u64::from(dropped);
        self.issue = IssueState::new(banks, start);
        self.log.clear();
        self.next = FetchUnit::new(place_of(state, table), self.issue.bus);
        dropped
    }

    /// Ends the segment at a tick `now`, at most 2^64 - 2,048, that completed no entry. All reads
    /// are forgotten, and the banks are idle. Returns the number of flushed levels.
    pub fn give_up(&mut self, state: &State, table: Option<u8>, now: u64) -> u8
        requires indicator { IsIndicatorIfAny table }
        requires early { now ≤ 2 ^ 64 - 2048 }

        // The levels are flushed, and the next segment is open.
        ensures dropped { result ≡ count self.old }
        ensures opened { (ds : List ℕ) (tick : ℕ) (t : Option ℕ) (s : Machine) (f : IssueStateOf) →
            IsLookahead ds N tick now t s f self.old → index_words_of s ≡ index_words_of state.now →
            IsOpened table state.now (opening_issue idle_banks
            (now + 1 + count self.old)) self.new }

        ensures few { count self.old ≤ N }
        ensures machine { IsMachine state.now }
    {
        let count = self.levels.undo();
        let start = now + 1 + u64::from(count);
        let banks = LastAnswers::new();
        self.issue = IssueState::new(banks, start);
        self.log.clear();
        self.next = FetchUnit::new(place_of(state, table), self.issue.bus);
        count
    }
}
