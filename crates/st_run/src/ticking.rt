//! Ticks (clock cycles) up to the next completion of an instruction or the next snapshot: the two
//! ways in which a run calls `Machine::run_to` of `st_ahead`. docs/timetable.md has the rules. Only
//! progress.rt uses this module: it calls `run_until` for one entry, and `run_many` for as many as
//! no external event can follow; counts and ticks are below 2^63.
//!
//! Proved, by the clauses `made`, `quiet` and `rows`: the ticks that are made are those of
//! `AreTicked` (specs/Ticking.antt) or `RunsTo` (`st_ahead`), the result says whether no order is
//! due and the decision is to continue, and rows are queued in order. Not proved here: that the
//! oldest entry completes before tick 2^63 (`in_time`, a `requires`); progress.rt has this from its
//! invariant `IsUnderWay` (specs/Progress.antt).
//!
//! Pinned, by `AreTicked`: a snapshot stops the ticks before a later completion. Pinned, by
//! `last_for` of specs/Ticking.antt: LAST. Free: the bodies.
ghost use Rattle.std.specs.Prelude.{◌≡◌, ◌-◌, ◌<◌, ◌≤◌, ◌^◌, None, IfSome, option_map};
ghost use Rattle.st_ahead.specs.Overlap.{oldest_row};
ghost use Rattle.st_refine.specs.Reached.{IsLedOn};
ghost use Rattle.st_run.specs.Together.{IsBeforeEntry};
ghost use Rattle.st_run.specs.Ticking.{AreMade, AreTicked, last_for};
ghost use Rattle.st_ahead.specs.RunTo.{RunsTo, is_quiet};
ghost use Rattle.st_ahead.specs.RowsDone.{queue_with, rows_in_ticks, ticks_passed};

use crate::driven::Driven;
use st_ahead::{Halt, RowQueue};

// The last tick that may be made, one that no run reaches.
const LAST: u64 = (1 << 63) - 1;

// Makes ticks until an entry completes, and returns its completion; or up to the tick of the next
// snapshot if it is earlier. With a queue without room, no row is queued. Before it the last tick
// is settled and the run continues (`IsBeforeEntry`); no snapshot is earlier than the last tick.
pub(crate) fn run_until<const N: usize>(
    driven: &mut Driven<N>,
    snap: Option<u64>,
    rows: &mut RowQueue,
) -> Option<Halt>
    requires before { IsBeforeEntry driven.old }
    requires in_time { (oldest_row driven.old.machine).c < 2 ^ 63 }
    requires few { driven.old.machine.state.done < 2 ^ 63 }
    requires snap { IfSome snap (λ x. driven.old.machine.now - 1 ≤ x) }

    // The ticks that were made, and what is known of the decision.
    ensures made { AreMade (AreTicked (option_map (λ h. h.row) result) snap) driven.old driven.new }
    ensures quiet { IfSome result (λ h. h.quiet ≡ is_quiet driven.new.machine) }
    ensures led { IsLedOn driven.old.machine driven.new.machine }
    ensures rows { rows.old.room ≡ 0 → rows.new ≡ rows.old }
{
    driven.machine.run_to(0, last_of(snap), rows)
}

// Makes ticks until an entry completes after which an external event is possible, or until `count`
// instructions have completed. Returns its completion; the rows of the entries before it are queued
// as far as there is room.
pub(crate) fn run_many<const N: usize>(
    driven: &mut Driven<N>,
    count: u64,
    rows: &mut RowQueue,
) -> Option<Halt>
    requires before { IsBeforeEntry driven.old }
    requires few { driven.old.machine.state.done < 2 ^ 63 }
    requires count { count ≤ 2 ^ 63 }
    ensures made { AreMade (RunsTo count (last_for None) (option_map (λ h. h.row) result))
        driven.old driven.new }
    ensures quiet { IfSome result (λ h. h.quiet ≡ is_quiet driven.new.machine) }
    ensures led { IsLedOn driven.old.machine driven.new.machine }
    ensures rows { rows.new ≡ queue_with
        (rows_in_ticks (ticks_passed (last_for None) driven.old.machine.now
        (option_map (λ h. h.row.c) result)) driven.old.machine) rows.old }
{
    driven.machine.run_to(count, LAST, rows)
}

// The tick of the snapshot, or the last tick that may be made.
fn last_of(snap: Option<u64>) -> u64
    ensures { result ≡ last_for snap }
{
    match snap {
        Some(x) if x < LAST => x,
        _ => LAST,
    }
}
