//! Runs until an entry completes after which an event is possible: the fast path of a run, without
//! a decision at each tick.
//!
//! `st_run` calls `run_to` of machine.rt, which calls `run_to` of this file; `docs/inside.md`
//! describes it. An event is possible if `count` instructions are complete (a signal or the
//! budget), an order is due, a branch was mispredicted, an interrupt is due, or the machine is at
//! rest. Operands are put into the levels only before it returns (`fill`), since completion does
//! not use them.
//!
//! Proved: the look-ahead, the state and the queued rows are those of single ticks, each settled by
//! continuing (`HasRunTo` in specs/Running.antt, `rows_in_ticks` in specs/RowsDone.antt), if the
//! machine neither rests nor takes an interrupt at the start (`GoesFrom`). Pinned: the conditions
//! of a stop, by `may_come_from_outside` in specs/RunTo.antt (count and orders) and by `answer` in
//! specs/Calls.antt (the other three), and what the result says of them, by `is_quiet` in
//! specs/RunTo.antt. Free: the loop, if proofs/lookahead follows. Speed is only measured
//! (`docs/COSTS.md`).
ghost use Rattle.std.specs.Prelude.{◌≡◌, ℕ, ◌<◌, ◌≤◌, ◌^◌, ◌||◌, not, is_some, option_map};
ghost use Rattle.st_exec.specs.Step.{interrupt as interrupt_of, rests};
ghost use Rattle.st_rows.specs.declared.issue.IssueState.{IssueState as IssueStateOf};
ghost use Rattle.st_ahead.specs.RunTo.{order_is_due};

use crate::committed::CommittedState;
use crate::events::Row;
use crate::lookahead::Lookahead;
use crate::row_queue::RowQueue;
use st_banks::Delays;
use st_exec::{interrupt, is_at_rest};
use st_ring::Completed;
use st_state::{State, done_in, is_due};

/// The limits of a run: `count`, the number of completed instructions at which it ends, at most
/// 2^63, and `last`, its last tick, below 2^63.
#[derive(Clone, Copy)]
pub struct Limits {
    /// The number of completed instructions at which the run ends.
    pub count: u64,
    /// The last tick that is made.
    pub last: u64,
    pub ghost most: { count ≤ 2 ^ 63 },
    pub ghost early: { last < 2 ^ 63 },
}

/// A completion after which an event is possible.
#[derive(Clone, Copy, Debug, PartialEq, Eq)]
pub struct Stop {
    /// The completed entry.
    pub done: Completed,
    /// The tick at which the entry completed.
    pub tick: u64,
    /// Whether no order is due and the decision is to continue.
    pub quiet: bool,
}

impl<const N: usize> Lookahead<N> {
    ghost use Rattle.st_ahead.specs.Overlap.{machine_between_ticks};
    ghost use Rattle.st_ahead.specs.Running.{GoesFrom, HasRunTo};
    ghost use Rattle.st_ahead.specs.RowsDone.{queue_with, rows_in_ticks, ticks_passed};

    /// Makes ticks, each with the decision to continue, up to the tick `limits.last`, or until an
    /// entry completes after which an event is possible: `limits.count` instructions are completed,
    /// an order is due, or the decision is not to continue. Returns this completion. The rows of
    /// earlier completions are queued, if there is room. Fewer than 2^63 instructions are completed
    /// before.
    pub fn run_to(
        &mut self,
        limits: Limits,
        committed: &mut CommittedState,
        rows: &mut RowQueue,
        delays: &Delays,
    ) -> Option<Stop>
        requires some { 1 ≤ N }
        requires few { N ≤ 8 }
        requires done { committed.old.state.done < 2 ^ 63 }
        requires starts { (f : IssueStateOf) × (now : ℕ) × (let x = committed.old in
            GoesFrom delays.now.list N limits.last now x.taken x.state f self.old) }

        ensures { (f : IssueStateOf) (now : ℕ) → let x = committed.old in let y = committed.new in
            let ds = delays.now.list in let last = limits.last in
            GoesFrom ds N last now x.taken x.state f self.old →
            HasRunTo ds N limits.count last now x.taken x.state f y.taken y.state self.new result
            × (rows.new ≡ queue_with
            (rows_in_ticks (ticks_passed last now (option_map (λ stop. stop.tick) result))
            (machine_between_ticks ds N x.state x.taken f now)) rows.old) }
    {
        let Limits { count, last } = limits;
        'entries: loop {
            let Some(tick) = self.go_to(last, &committed.state, delays) else {
                self.fill(&committed.state, last);
                return None;
            };
            let done = self.complete(&mut committed.state);
            committed.taken = None;
            let quiet = is_quiet(&done, &committed.state);
            if !quiet || count <= done_in(&committed.state) {
                self.fill(&committed.state, tick);
                return Some(Stop { done, tick, quiet });
            }
            rows.put(row_of(&done, tick, &committed.state));
        }
    }
}

// The row of an entry that completed at the tick.
fn row_of(done: &Completed, tick: u64, state: &State) -> Row
    ensures { result ≡ record {
      number = state.now.done;
      address = done.now.address;
      p = done.now.p;
      r = done.now.r;
      c = tick;
    } }
{
    Row {
        number: state.done,
        address: done.address,
        p: done.p,
        r: done.r,
        c: tick,
    }
}

// Whether, after a completion, no order is due and the decision is to continue.
fn is_quiet(done: &Completed, state: &State) -> bool
    ensures { result ≡ not (order_is_due state.now || is_some done.now.mispredicted
        || is_some (interrupt_of state.now) || rests state.now) }
{
    if interrupt(state).is_some() {
        return false;
    }
    if is_due(state.reader, state.done) || is_due(state.printer, state.done) {
        return false;
    }
    if is_at_rest(state) {
        return false;
    }
    done.mispredicted.is_none()
}
