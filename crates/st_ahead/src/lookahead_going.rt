//! Advances the look-ahead from one preparation to the next, up to a completion: the inner loop of
//! the overlapped machine. docs/timetable.md has the rules.
//!
//! lookahead_run.rt and lookahead_steps.rt call `go_to`. In each round the fetch unit plans the
//! next entry, by facts known before the oldest level completes; if its P (the tick of its
//! preparation) comes before that, it becomes a level, an entry in flight, with the row that
//! `st_rows` computes. Ticks are below 2^63.
//!
//! Proved: after `go_to` the levels are all entries with P before the completion, or by `last`
//! (`HasGone` in specs/Going.antt), for all delays and 1 to 8 levels. Pinned: which entries become
//! levels at which P, by this definition, docs/timetable.md and vectors/timetable.txt; that
//! operands are not put into levels here, which lookahead_tick.rt does (`fill`). Free: inlining,
//! the order of tests, and the bodies, if proofs/lookahead follows.
ghost use Rattle.std.specs.Prelude.{◌≡◌, ℕ, ◌+◌, ◌-◌, ◌<◌, ◌≤◌, ◌^◌, true, false, nat_le, if◌then◌else◌, Option, None, Some};
ghost use Rattle.st_rows.specs.declared.issue.IssueState.{IssueState as IssueStateOf};
ghost use Rattle.st_ring.specs.Levels.{due_of};

use crate::lookahead::Lookahead;
use st_banks::Delays;
use st_next::PlanContext;
use st_prep::{Place, Prepared};
use st_rows::{FormedEntry, Nobody, Timing, WordRuns};
use st_state::State;

impl<const N: usize> Lookahead<N> {
    ghost use Rattle.st_ahead.specs.Forecast.{count};
    ghost use Rattle.st_ahead.specs.Going.{IsGoing, Goes, GoesUpTo, Reaches, HasGone, WaitsFor};

    // Entries that are prepared before the oldest level completes, and by the tick `last`, below
    // 2^63, become levels with empty slots. Returns the tick of that completion, if it is not after
    // `last`; otherwise nothing more happens by `last`.
    #[inline(always)]
    pub(crate) fn go_to(&mut self, last: u64, state: &State, delays: &Delays) -> Option<u64>
        requires some { 1 ≤ N }
        requires few { N ≤ 8 }
        requires early { last < 2 ^ 63 }
        requires going { Reaches delays.now.list N last state.now self.old }

        // The look-ahead before that completion, or after `last`.
        ensures goes { (t : Option ℕ) (f : IssueStateOf) (since : ℕ) →
            GoesUpTo delays.now.list N since last t state.now f self.old →
            HasGone delays.now.list N since last t state.now f self.new result }
        ensures before { count self.old ≤ N }
        ensures few { count self.new ≤ N }
    {
        'entries: loop {
            let due = self.due();
            self.plan_before(due, state, delays);
            if !self.is_next_before(due, last) {
                return stop_at(due, last);
            }
            let p = self.next.formed.p;
            self.push(p, state, delays);
        }
    }

    // The tick at which the oldest level completes, 2^64 - 1 if there is none.
    fn due(&self) -> u64
        ensures tick { result ≡ due_of self.now.levels.plans }
        ensures few { count self.now ≤ N }
    {
        self.levels.due()
    }

    // Whether the next entry is planned, with P before the tick `due` and not after the tick
    // `last`.
    fn is_next_before(&self, due: u64, last: u64) -> bool
        ensures yes { result ≡ true → (self.now.next.planned ≡ true)
            × (self.now.next.formed.p < due) × (self.now.next.formed.p ≤ last) }
        ensures no { result ≡ false → WaitsFor due last self.now }
    {
        if !self.next.planned {
            return false;
        }
        self.next.formed.p < due && self.next.formed.p <= last
    }

    // Advances the fetch unit by the facts known before the tick `due`, at which the oldest level
    // completes. The next entry is planned as soon as its words are known. The look-ahead has
    // advanced to a tick below 2^63.
    #[inline(always)]
    fn plan_before<'a>(&mut self, due: u64, state: &'a State, delays: &'a Delays)
        requires some { 1 ≤ N }
        requires few { N ≤ 8 }
        requires due { due ≡ due_of self.old.levels.plans }
        requires going { Reaches delays.now.list N (2 ^ 63 - 1) state.now self.old }

        ensures going { (t : Option ℕ) (f : IssueStateOf) (tick : ℕ) →
            IsGoing delays.now.list N tick tick t state.now f self.old →
            IsGoing delays.now.list N tick due t state.now f self.new }
        ensures levels { self.new.levels ≡ self.old.levels }
    {
        if self.next.planned {
            return;
        }
        let timing = Timing { delays, levels: N };
        let context = PlanContext {
            timing,
            state,
            issue: &self.issue,
            index: self.levels.index(),
        };
        self.next
            .plan_before(due, &context, &mut self.log, &mut Nobody);
    }

    // Makes the next entry a level at the tick `now`, its P.
    #[inline(always)]
    fn push(&mut self, now: u64, state: &State, delays: &Delays)
        requires some { 1 ≤ N }
        requires few { N ≤ 8 }
        requires early { now < 2 ^ 63 }
        requires going { Goes delays.now.list N now (now + 1) state.now self.old }
        requires planned { self.old.next.planned ≡ true }
        requires due { self.old.next.formed.p ≡ now }

        ensures going { (t : Option ℕ) (f : IssueStateOf) →
            IsGoing delays.now.list N now (now + 1) t state.now f self.old →
            IsGoing delays.now.list N now now t state.now f self.new }
        ensures count { count self.new ≡ count self.old + 1 }
        ensures few { count self.new ≤ N }
    {
        self.next.prepare(self.levels.index(), state);
        let timing = Timing { delays, levels: N };
        let next = FormedEntry {
            entry: &self.next.entry,
            timing: &timing,
            formed: self.next.formed,
            registers: WordRuns::default(),
        };
        let filled = self
            .issue
            .fill(&next, &mut self.next.words, &mut self.log, &mut Nobody);
        self.levels.push(&self.next.prepared, &self.issue, &filled);
        self.issue
            .pass(&self.next.entry, &filled.row, &self.next.words.bus);
        let place = place_behind(&self.next.prepared);
        self.next.restart(place);
    }
}

// The tick `due`, if it is not after `last`.
fn stop_at(due: u64, last: u64) -> Option<u64>
    ensures { result ≡ (if nat_le due last then Some due else None) }
{
    if due <= last { Some(due) } else { None }
}

// The place after an entry, by its predicted counter.
fn place_behind(prepared: &Prepared) -> Place
    ensures { result ≡ record {
      counter = prepared.now.following;
      address = prepared.now.following;
      table = None;
    } }
{
    Place {
        counter: prepared.following,
        address: prepared.following,
        table: None,
    }
}
