//! The effect of a tick on the look-ahead: the oldest entry in flight completes if its C, the tick
//! of completion, is this one, and operands that have arrived are put into the levels.
//! docs/timetable.md has the rules.
//!
//! machine.rt calls `tick`; lookahead_run.rt calls `complete` and `fill` at the ticks that it stops
//! at. The tick is a number below 2^63, one after the last.
//!
//! Proved: the state and the look-ahead after `tick` (`IsTicked` in specs/Ticked.antt): a
//! completion executes the next entry of the state. Pinned: what completes at which tick, by this
//! definition, docs/timetable.md and vectors/timetable.txt; that `complete` sets the place of the
//! next entry after a serializing one, by `IsOutlook` (specs/Forecast.antt). Free: the tests that
//! skip work, and the bodies, if proofs/lookahead follows.
ghost use Rattle.std.specs.Prelude.{◌≡◌, ℕ, ◌+◌, ◌<◌, ◌≤◌, ◌^◌, List, Option, None};
ghost use Rattle.st_bits.specs.declared.limits.TheConstants.{MOST_DELAY};
ghost use Rattle.st_state.specs.Machine.{Machine, word};
ghost use Rattle.st_exec.specs.Completion.{state_after_execution, prediction};
ghost use Rattle.st_rows.specs.Ranges.{AreDelaysUpTo};
ghost use Rattle.st_rows.specs.Rows.{row_of_entry, issue_after_entry};
ghost use Rattle.st_rows.specs.declared.issue.IssueState.{IssueState as IssueStateOf};
ghost use Rattle.st_segment.specs.Entries.{entry};
ghost use Rattle.st_ring.specs.Levels.{IsCompleted, AreNotDone};
ghost use Rattle.st_ahead.specs.Forecast.{IsLookahead, IsOutlook, count};
ghost use Rattle.st_ahead.specs.Ticked.{IsTicked};

use crate::lookahead::Lookahead;
use st_prep::place_of;
use st_ring::Completed;
use st_state::State;

impl<const N: usize> Lookahead<N> {
    /// Makes the tick `now`: the oldest entry completes if it is due, and is executed on the state;
    /// then operands that arrive at this tick are put into their levels. Before the call no
    /// decision is owed, and fewer than 2^63 instructions are completed.
    pub fn tick(&mut self, state: &mut State, now: u64) -> Option<Completed>
        requires few { state.old.done < 2 ^ 63 }
        ensures ticked { (ds : List ℕ) (tick : ℕ) (t : Option ℕ) (f : IssueStateOf) → 1 ≤ N → N ≤ 8 →
            AreDelaysUpTo MOST_DELAY ds →
            IsLookahead ds N tick now t state.old f self.old →
            (1 ≤ count self.old → now ≡ tick + 1) →
            IsTicked ds N now t state.old f self.old state.new self.new result }
        ensures few { count self.old ≤ N }
    {
        if self.levels.is_due(now) {
            let done = self.complete(state);
            self.fill(state, now);
            return Some(done);
        }
        if self.levels.len() > 0 {
            self.fill(state, now);
        }
        None
    }

    // Completes the oldest entry. After a serializing entry the place of the next one is known only
    // now.
    pub(crate) fn complete(&mut self, state: &mut State) -> Completed
        requires some { 0 < count self.old }
        requires few { state.old.done < 2 ^ 63 }
        ensures { (ds : List ℕ) (tick now : ℕ) (t : Option ℕ) (f : IssueStateOf) → AreDelaysUpTo
            MOST_DELAY ds →
            IsOutlook ds N tick now t state.old f self.old →
            (row_of_entry ds N f (entry t state.old)).c ≡ now →
            (state.new ≡ state_after_execution t state.old) × IsCompleted ds N t state.old f result
            × IsOutlook ds N tick now None (prediction t state.old)
            (issue_after_entry ds N f (entry t state.old)) self.new
            × (self.new.log ≡ self.old.log) × (self.new.next.words ≡ self.old.next.words) }
    {
        let done = self.levels.complete(state);
        if self.levels.len() == 0 && self.issue.serial {
            self.next.place = place_of(state, None);
        }
        done
    }

    // Puts the operands that have arrived by the tick `now` into their levels, which are prepared
    // and not completed by then. The state that the entries in flight follow has equal words, but
    // may have another counter.
    pub(crate) fn fill(&mut self, state: &State, now: u64)
        ensures filled { (ds : List ℕ) (tick next : ℕ) (t : Option ℕ) (s : Machine) (f : IssueStateOf) →
            AreDelaysUpTo MOST_DELAY ds →
            IsOutlook ds N tick next t s f self.old → tick ≤ now → next ≤ now + 1 →
            AreNotDone now self.old.levels →
            ((w : ℕ) → word state.now w ≡ word s w) →
            IsLookahead ds N now next t s f self.new × (self.new.log ≡ self.old.log)
            × (self.new.next ≡ self.old.next) }
        ensures few { count self.new ≤ N }
    {
        self.levels.fill(state, now);
    }
}
