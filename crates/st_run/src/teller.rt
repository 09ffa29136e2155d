//! A run with a queue of rows, the ticks of completed instructions: rows are computed in batches
//! and returned one at a time. docs/timetable.md has the rules of rows. Only run.rt uses this
//! module: `next_of`, `next_row_of` and `pass_over` are `Run::next`, `next_row` and `pass_entries`.
//! progress.rt does the work.
//!
//! Proved, by the clauses `told`: the rows in the queue, followed by the remaining events of the
//! run, are the events that remain (`rest_with_rows` in specs/Progress.antt), so each way to ask
//! for the next event sees all events in order. Not proved: that batches save time.
//!
//! Pinned, by the clauses `shut`: the queue has no room between two calls, so that nothing is
//! dropped. Free: when rows are computed, and how many in one batch.
ghost use Rattle.std.specs.Prelude.{◌≡◌, [], ◌∷◌, MatchOption};
ghost use Rattle.st_refine.specs.Reached.{IsLedOn};
ghost use Rattle.st_run.specs.Telling.{row_told, AreLeftOut};
ghost use Rattle.st_run.specs.Progress.{rest_with_rows, told_by, IsUnderWay};

use crate::progress::{Progress, event_of_row, make_rows, pass_entries, tell_next};
use crate::run_events::TimedRunEvent;
use st_ahead::{Row, RowQueue};

// The progress of a run, and the queue of rows that completed but have not been returned as events.
// `IsUnderWay` is the invariant that progress.rt describes.
#[derive(Drop)]
pub(crate) struct Teller<'a, const N: usize> {
    // The run.
    pub progress: Progress<'a, N>,
    // The rows that are not returned yet.
    pub rows: RowQueue,
}

// The next event: the first queued row, or the next event of the run. `None` if and only if the run
// is over.
pub(crate) fn next_of<const N: usize>(teller: &mut Teller<N>) -> Option<TimedRunEvent>
    requires run { IsUnderWay teller.old.progress }
    requires shut { teller.old.rows.room ≡ 0 }
    ensures kept { IsUnderWay teller.new.progress }
    ensures led { IsLedOn teller.old.progress.driven.machine teller.new.progress.driven.machine }
    ensures shut { teller.new.rows.room ≡ 0 }
    ensures told { MatchOption result (rest_with_rows teller.old ≡ [])
        (λ t. rest_with_rows teller.old
        ≡ told_by t teller.new.progress ∷ rest_with_rows teller.new) }
{
    if let Some(row) = teller.rows.next() {
        return Some(event_of_row(row));
    }
    tell_next(&mut teller.progress, &mut teller.rows)
}

// If the queue is empty, completes entries and queues their rows, up to the next event of another
// kind.
fn make_ready<const N: usize>(teller: &mut Teller<N>)
    requires run { IsUnderWay teller.old.progress }
    requires shut { teller.old.rows.room ≡ 0 }
    ensures kept { IsUnderWay teller.new.progress }
    ensures led { IsLedOn teller.old.progress.driven.machine teller.new.progress.driven.machine }
    ensures shut { teller.new.rows.room ≡ 0 }
    ensures told { rest_with_rows teller.old ≡ rest_with_rows teller.new }
{
    if !teller.rows.is_empty() {
        return;
    }
    make_rows(&mut teller.progress, &mut teller.rows);
}

// The next event if it is a row: the first queued one, or a new one.
pub(crate) fn next_row_of<const N: usize>(teller: &mut Teller<N>) -> Option<Row>
    requires run { IsUnderWay teller.old.progress }
    requires shut { teller.old.rows.room ≡ 0 }
    ensures kept { IsUnderWay teller.new.progress }
    ensures led { IsLedOn teller.old.progress.driven.machine teller.new.progress.driven.machine }
    ensures shut { teller.new.rows.room ≡ 0 }
    ensures told { MatchOption result (rest_with_rows teller.new ≡ rest_with_rows teller.old)
        (λ row. rest_with_rows teller.old ≡ row_told row ∷ rest_with_rows teller.new) }
{
    make_ready(teller);
    teller.rows.next()
}

// Skips completions, with an empty queue.
pub(crate) fn pass_over<const N: usize>(teller: &mut Teller<N>) -> Option<Row>
    requires run { IsUnderWay teller.old.progress }
    requires shut { teller.old.rows.room ≡ 0 }
    ensures kept { IsUnderWay teller.new.progress }
    ensures led { IsLedOn teller.old.progress.driven.machine teller.new.progress.driven.machine }
    ensures shut { teller.new.rows.room ≡ 0 }
    ensures told { MatchOption result (rest_with_rows teller.new ≡ rest_with_rows teller.old)
        (λ row. AreLeftOut row (rest_with_rows teller.old) (rest_with_rows teller.new)) }
{
    if !teller.rows.is_empty() {
        return None;
    }
    pass_entries(&mut teller.progress, &mut teller.rows)
}
