//! Advances the look-ahead to the next tick, for a caller that settles (decides after) each tick:
//! entries with P, the tick of preparation, at this tick become levels, entries in flight.
//! docs/timetable.md has the rules. machine.rt calls `go_on` when a decision is to continue. Most
//! ticks prepare nothing: the first test ends the call.
//!
//! Proved: the look-ahead is that of the next tick (`IsLookahead` in specs/Forecast.antt), if it
//! was that of this tick before. Not proved: that the first test saves time.
//!
//! Pinned: the clause of `go_on`, by machine.rt, which needs it for `IsInside` (specs/Inside.antt).
//! Free: the test, and the bodies, if proofs/lookahead follows; lookahead_going.rt does the work.
ghost use Rattle.std.specs.Prelude.{◌≡◌, ℕ, ◌+◌, ◌<◌, ◌≤◌, ◌^◌, true, Option};
ghost use Rattle.st_rows.specs.declared.issue.IssueState.{IssueState as IssueStateOf};

use crate::lookahead::Lookahead;
use st_banks::Delays;
use st_state::State;

impl<const N: usize> Lookahead<N> {
    ghost use Rattle.st_ahead.specs.Forecast.{IsLookahead};
    ghost use Rattle.st_ahead.specs.Going.{Reaches};

    /// Advances from the tick `now`, below 2^63, to the next one, once an entry that completes at
    /// `now` is executed: entries with P at `now` become levels.
    pub fn go_on(&mut self, now: u64, state: &State, delays: &Delays)
        requires some { 1 ≤ N }
        requires few { N ≤ 8 }
        requires early { now < 2 ^ 63 }
        requires going { Reaches delays.now.list N now state.now self.old }
        ensures { (t : Option ℕ) (f : IssueStateOf) →
            IsLookahead delays.now.list N now now t state.now f self.old →
            IsLookahead delays.now.list N now (now + 1) t state.now f self.new }
    {
        if self.is_prepared_behind(now) {
            return;
        }
        self.go_to(now, state, delays);
        self.fill(state, now);
    }

    // Whether the next entry is planned, with P after the tick `now`.
    fn is_prepared_behind(&self, now: u64) -> bool
        ensures { result ≡ true → (self.now.next.planned ≡ true) × (now < self.now.next.formed.p) }
    {
        self.next.planned && now < self.next.formed.p
    }
}
