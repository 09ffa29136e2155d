//! The progress of a run, and its next event: an entry (instruction) is completed, then its events
//! are queued and returned one at a time; snapshots (the machine as it is at a requested tick) come
//! at their ticks. docs/timetable.md has the rules.
//!
//! Only run.rt and teller.rt use this module. `left` is the remaining budget, `tick` the tick of
//! the last completion; counts and ticks are below 2^63. If no snapshot remains, `go_far` completes
//! many entries in one call of the machine and queues their rows.
//!
//! Proved, by the clauses `told`: the returned event, followed by the events that remain after the
//! call, are those that remained before it (`rest_behind` in specs/Progress.antt, part of
//! `reported_events` of the timed run).
//!
//! Pinned, by `reported_events` (specs/ReportedEvents.antt) and docs/report.md: the order of
//! events. Free: how many entries one call completes, within the 64 rows of the queue.
ghost use Rattle.std.specs.Prelude.{◌≡◌, ◌+◌, ◌-◌, ◌<◌, ◌≤◌, ◌^◌, ℕ, true, false, if◌then◌else◌, [], ◌∷◌, MatchOption, IfSome, slice_get};
ghost use Rattle.st_ahead.specs.Overlap.{levels_of};
ghost use Rattle.st_ahead.specs.RunTo.{is_quiet};
ghost use Rattle.st_refine.specs.Reached.{IsLedOn};
ghost use Rattle.st_run.specs.ExternalEvents.{signal_due};
ghost use Rattle.st_run.specs.Telling.{told_at_end, AreLeftOut, HasGoneFar, rows_then, IsShown, IsLeft, AreInTime};
ghost use Rattle.st_run.specs.Progress.{rest_behind, told_ahead, told_after, told_by, IsBeforeNext, IsTold, IsUnderWay};
ghost use Rattle.st_run.specs.declared.run_events.RunEvent.TheVariants as tells;
ghost use Rattle.st_run.specs.declared.run_phase.RunPhase.TheVariants as turns;

use crate::driven::Driven;
use crate::leaving::{leave, levels_ahead, pass_on};
use crate::output_queue::OutputQueue;
use crate::run_events::{RunEvent, TimedRunEvent};
use crate::run_phase::RunPhase;
use crate::ticking::{run_many, run_until};
use arrayvec::{ArrayString, ArrayVec};
use st_ahead::{Halt, Row, RowQueue};
use st_card::Signal;
use st_state::done_in;

// The greatest count of completed instructions, 2^63 - 1: all counts are below 2^63.
const MOST: u64 = (1 << 63) - 1;

// The greatest number of rows that are computed at once, which is the capacity of the queue.
const ROWS: u64 = 64;

// A run between two events: the machine with its external events, the remaining snapshots, the
// remaining budget after the next instruction, the tick of the last completion, the pending events,
// the last printed text, and the phase.
//
// `IsUnderWay` is its invariant: the machine agrees with the phase, no entry is in flight while an
// interrupt is pending, and the ticks and counts of all remaining events are below 2^63.
// `IsBeforeNext` is the invariant in the phase before an entry; `IsTold` says that no event is
// pending. `rest_behind` are the remaining events, `told_ahead` and `told_after` those before an
// entry and after it. The clause `shut` says that a queue of rows has no room, so that it stays
// empty; `led`, that the machine is used within its protocol.
#[derive(Drop)]
pub(crate) struct Progress<'a, const N: usize> {
    // The machine with its external events.
    pub driven: Driven<'a, N>,
    // The ticks of the remaining snapshots, increasing.
    pub snaps: &'a [u64],
    // The number of instructions that may complete after the next one.
    pub left: u64,
    // The tick of the last completion, 0 before the first.
    pub tick: u64,
    // The pending events.
    pub queue: OutputQueue,
    // The text that was printed last.
    pub printed: ArrayString<64>,
    // The phase of the run.
    pub turn: RunPhase,
}

// The next event; `None` if and only if the run is over.
pub(crate) fn tell_next<const N: usize>(
    run: &mut Progress<N>,
    rows: &mut RowQueue,
) -> Option<TimedRunEvent>
    requires run { IsUnderWay run.old }
    requires shut { rows.old.room ≡ 0 }
    ensures rows { rows.new ≡ rows.old }
    ensures kept { IsUnderWay run.new }
    ensures led { IsLedOn run.old.driven.machine run.new.driven.machine }
    ensures told { MatchOption result (rest_behind run.old ≡ [])
        (λ t. rest_behind run.old ≡ told_by t run.new ∷ rest_behind run.new) }
{
    if let Some(event) = run.queue.next(&mut run.printed) {
        return Some(at_once(&run.driven, run.tick, event));
    }
    match run.turn {
        RunPhase::Before => Some(go(run, rows)),
        RunPhase::AtEnd(rests) => Some(finish(run, rests)),
        RunPhase::Over => None,
    }
}

// Skips completions up to the next event of another kind. Returns the last of the completions.
// Returns None if another kind of event is next, or may be.
pub(crate) fn pass_entries<const N: usize>(
    run: &mut Progress<N>,
    rows: &mut RowQueue,
) -> Option<Row>
    requires run { IsUnderWay run.old }
    requires shut { rows.old.room ≡ 0 }
    ensures rows { rows.new ≡ rows.old }
    ensures kept { IsUnderWay run.new }
    ensures led { IsLedOn run.old.driven.machine run.new.driven.machine }
    ensures told { MatchOption result (rest_behind run.new ≡ rest_behind run.old)
        (λ row. AreLeftOut row (rest_behind run.old) (rest_behind run.new)) }
{
    if !may_go_far(run) {
        return None;
    }
    let done = done_of(&run.driven);
    Some(go_far(run, done, MOST, rows))
}

// If no other kind of event is next, completes entries until one is and queues their rows, for all
// of which there is room.
#[inline(never)]
pub(crate) fn make_rows<const N: usize>(run: &mut Progress<N>, rows: &mut RowQueue)
    requires run { IsUnderWay run.old }
    requires none { rows.old.rows ≡ [] }
    requires shut { rows.old.room ≡ 0 }

    // The events, and the run after them.
    ensures kept { IsUnderWay run.new }
    ensures led { IsLedOn run.old.driven.machine run.new.driven.machine }
    ensures shut { rows.new.room ≡ 0 }
    ensures told { rest_behind run.old ≡ rows_then rows.new.rows (rest_behind run.new) }
{
    if !may_go_far(run) {
        return;
    }
    rows.open();
    let done = done_of(&run.driven);
    let row = go_far(run, done, done + ROWS, rows);
    rows.put(row);
    rows.shut();
}

// Whether a completion is next and no snapshots remain.
fn may_go_far<const N: usize>(run: &Progress<N>) -> bool
    ensures { result ≡ true → (run.now.turn ≡ turns.Before) × (run.now.snaps.now ≡ [])
        × IsTold run.now }
{
    let RunPhase::Before = run.turn else {
        return false;
    };
    if !run.snaps.is_empty() {
        return false;
    }
    run.queue.is_empty()
}

// Before the next entry, with no snapshots remaining: completes it and the following entries as
// long as no external event is possible between them and the count is below `most`. Returns the row
// of the last one; the rows of the others are queued as far as there is room. `done` instructions
// have completed before.
fn go_far<const N: usize>(run: &mut Progress<N>, done: u64, most: u64, rows: &mut RowQueue) -> Row
    requires run { IsBeforeNext run.old }
    requires turn { run.old.turn ≡ turns.Before }
    requires waits { IsTold run.old }
    requires snaps { run.old.snaps.now ≡ [] }
    requires done { done ≡ run.old.driven.machine.state.done }

    ensures kept { IsUnderWay run.new }
    ensures led { IsLedOn run.old.driven.machine run.new.driven.machine }
    ensures told { HasGoneFar done most result (told_ahead run.old) (rest_behind run.new) rows.old
        rows.new }
{
    let count = count_of(&run.driven, done, run.left, most);
    let Some(halt) = run_many(&mut run.driven, count, rows) else {
        unreachable!()
    };
    run.left -= halt.row.number - 1 - done;
    leave_entry(run, &halt);
    halt.row
}

// The count of completed instructions up to which only completions can occur, at most `most`:
// limited by the budget and the next signal. At most 2^63.
fn count_of<const N: usize>(driven: &Driven<N>, done: u64, left: u64, most: u64) -> u64
    requires { done < 2 ^ 63 }
    ensures few { result ≤ 2 ^ 63 }
    ensures most { result ≤ most }
    ensures left { result ≤ done + left + 1 }
    ensures signal { (d : ℕ) → d < result → signal_due d driven.now.signals ≡ false }
{
    count_before(driven.pending.signals(), done, left).min(most)
}

// The count of completed instructions up to which only completions can occur, by the remaining
// signals and the budget.
fn count_before(signals: &[Signal], done: u64, left: u64) -> u64
    requires { done < 2 ^ 63 }
    ensures few { result ≤ 2 ^ 63 }
    ensures left { result ≤ done + left + 1 }
    ensures signal { (d : ℕ) → d < result → signal_due d signals.now ≡ false }
{
    let most = if left > MOST - done {
        MOST
    } else {
        done + left + 1
    };
    match signals {
        [first, ..] => first.count.min(most),
        [] => most,
    }
}

// The event of a row.
pub(crate) fn event_of_row(row: Row) -> TimedRunEvent
    ensures { result ≡ record {
      done = row.number;
      tick = row.c;
      event = tells.Done row.address row.p row.r;
    } }
{
    TimedRunEvent {
        done: row.number,
        tick: row.c,
        event: RunEvent::Done {
            address: row.address,
            p: row.p,
            r: row.r,
        },
    }
}

// Before the next entry: returns the next snapshot, or completes that entry.
fn go<const N: usize>(run: &mut Progress<N>, rows: &mut RowQueue) -> TimedRunEvent
    requires run { IsBeforeNext run.old }
    requires turn { run.old.turn ≡ turns.Before }
    requires waits { IsTold run.old }
    requires shut { rows.old.room ≡ 0 }

    // The events, and the run after them.
    ensures rows { rows.new ≡ rows.old }
    ensures kept { IsUnderWay run.new }
    ensures led { IsLedOn run.old.driven.machine run.new.driven.machine }
    ensures told { told_ahead run.old ≡ told_by result run.new ∷ rest_behind run.new }
{
    let snap = first_of(run.snaps);
    let Some(halt) = run_until(&mut run.driven, snap, rows) else {
        return show(run);
    };
    leave_entry(run, &halt);
    event_of_row(halt.row)
}

// The snapshot whose tick has just been made (`IsShown`).
fn show<const N: usize>(run: &mut Progress<N>) -> TimedRunEvent
    requires shown { IsShown run.old.left run.old.tick run.old.snaps.now run.old.driven }
    requires turn { run.old.turn ≡ turns.Before }
    requires waits { IsTold run.old }
    ensures kept { IsUnderWay run.new }
    ensures led { IsLedOn run.old.driven.machine run.new.driven.machine }
    ensures told { told_ahead run.old ≡ told_by result run.new ∷ rest_behind run.new }
{
    let Some((at, after)) = split_first(run.snaps) else {
        unreachable!()
    };
    run.snaps = after;
    at_once(&run.driven, run.tick, RunEvent::Shown(at))
}

// Queues the events that follow the completion of an entry; usually there are none. The entry has
// just completed (`IsLeft`).
fn leave_entry<const N: usize>(run: &mut Progress<N>, halt: &Halt)
    requires left { IsLeft run.old.left run.old.snaps.now halt.now.row.c run.old.driven }
    requires quiet { halt.now.quiet ≡ is_quiet run.old.driven.machine }
    requires number { halt.now.row.number ≡ run.old.driven.machine.state.done }
    requires turn { run.old.turn ≡ turns.Before }
    requires waits { IsTold run.old }
    ensures kept { IsUnderWay run.new }
    ensures led { IsLedOn run.old.driven.machine run.new.driven.machine }
    ensures told { told_after run.old ≡ rest_behind run.new }
{
    if !pass_on(&mut run.driven, halt, run.left) {
        leave_fully(run, halt.row.c);
        return;
    }
    run.tick = halt.row.c;
    run.left = run.left.saturating_sub(1);
}

// Queues the events that follow the completion of an entry at a tick, in the general case.
fn leave_fully<const N: usize>(run: &mut Progress<N>, tick: u64)
    requires left { IsLeft run.old.left run.old.snaps.now tick run.old.driven }
    ensures kept { IsUnderWay run.new }
    ensures led { IsLedOn run.old.driven.machine run.new.driven.machine }
    ensures told { told_after run.old ≡ rest_behind run.new }
{
    let mut drops = levels_ahead(&run.driven);
    let decided = leave(&mut run.driven, run.left);
    clear_unless(decided.ends, &mut drops);
    run.queue = OutputQueue {
        drops,
        text: decided.text,
        taken: decided.taken,
    };
    run.turn = decided.turn;
    run.tick = tick;
    run.left = run.left.saturating_sub(1);
}

// At the end: the next snapshot up to the last tick, or the end event.
fn finish<const N: usize>(run: &mut Progress<N>, rests: bool) -> TimedRunEvent
    requires turn { run.old.turn ≡ turns.AtEnd rests }
    requires levels { levels_of run.old.driven.machine ≡ [] }
    requires in_time { AreInTime
        (told_at_end rests run.old.tick run.old.snaps.now run.old.driven.machine.state) }
    requires waits { IsTold run.old }

    ensures kept { IsUnderWay run.new }
    ensures led { IsLedOn run.old.driven.machine run.new.driven.machine }
    ensures told { told_at_end rests run.old.tick run.old.snaps.now run.old.driven.machine.state
        ≡ told_by result run.new ∷ rest_behind run.new }
{
    let Some((at, after)) = split_due(run.snaps, run.tick) else {
        run.turn = RunPhase::Over;
        return at_once(&run.driven, run.tick, RunEvent::Ended(rests));
    };
    run.snaps = after;
    at_once(&run.driven, run.tick, RunEvent::Shown(at))
}

// An event at the tick of the last completion.
fn at_once<const N: usize>(driven: &Driven<N>, tick: u64, event: RunEvent) -> TimedRunEvent
    ensures { result ≡ record { done = driven.now.machine.state.done; tick = tick; event = event } }
{
    TimedRunEvent {
        done: done_of(driven),
        tick,
        event,
    }
}

// The number of completed instructions of a machine.
fn done_of<const N: usize>(driven: &Driven<N>) -> u64
    ensures { result ≡ driven.now.machine.state.done }
{
    done_in(driven.machine.state())
}

// The tick of the next snapshot, None if there is none.
fn first_of(snaps: &[u64]) -> Option<u64>
    ensures { result ≡ slice_get snaps.now 0 }
{
    match snaps {
        [first, ..] => Some(*first),
        [] => None,
    }
}

// The tick of the next snapshot and the list of the later ones; None if there is none.
fn split_first(snaps: &[u64]) -> Option<(u64, &[u64])>
    ensures { MatchOption result (snaps.now ≡ []) (λ r. snaps.now ≡ r.0 ∷ r.1.now) }
{
    match snaps {
        [first, after @ ..] => Some((*first, after)),
        [] => None,
    }
}

// The tick of the next snapshot and the list of the later ones, if it is at most `tick`; None
// otherwise.
fn split_due(snaps: &[u64], tick: u64) -> Option<(u64, &[u64])>
    ensures { MatchOption result (IfSome (slice_get snaps.now 0) (λ x. tick < x))
        (λ r. (snaps.now ≡ r.0 ∷ r.1.now) × (r.0 ≤ tick)) }
{
    let (first, after) = split_first(snaps)?;
    if first <= tick {
        Some((first, after))
    } else {
        None
    }
}

// Removes the flushed entries unless the segment ends.
fn clear_unless(ends: bool, drops: &mut ArrayVec<(u32, u64), 8>)
    ensures { drops.new.items ≡ (if ends then drops.old.items else []) }
{
    if !ends {
        drops.clear();
    }
}
