//! The requested part of the timetable that the lines of a report describe: the entries to be
//! drawn. docs/chart.md has the rules. `st_draw` (program.rt) calls `read_timetable`; charts and
//! logs use `DrawnEntry`.
//!
//! Proved: the result is `timetable` of specs/Timetable.antt, unless memory runs out. If
//! completions rise, as in every report, at most one row executes at a tick: the law
//! `OneExecutesAtATick` (specs/Laws.antt).
//!
//! Pinned, by these definitions, docs/chart.md and vectors/pictures: rows are numbered as in the
//! report; entries that are no rows belong to the row before them, and dropped ones come oldest
//! first; the turn of a row is the tick at which its operands have arrived and the row before it is
//! complete (`turn_of` in specs/Phases.antt). Free: the bodies, if proofs/timetable follows the
//! loops.
ghost use Rattle.std.specs.Prelude.{◌≡◌, ◌++◌, IfOk, [], reverse};
ghost use Rattle.st_entries.specs.Phases.{first_tick as first_tick_of};
ghost use Rattle.st_entries.specs.Timetable as spec;
ghost use Rattle.st_entries.specs.Timetable.{timetable_of};
ghost use Rattle.st_text.specs.Pieces.{pieces_of};

use crate::report::{ReportAddress, TimetableLine, item_of};
use st_text::cut;
use std::alloc::{AllocError, Global};

/// The requested rows, by their numbers: none if `to` is less than `from`.
#[derive(Clone, Copy)]
pub struct RowRange {
    /// The number of the first row.
    pub from: u64,
    /// The number of the last row.
    pub to: u64,
}

/// One line of the chart.
#[derive(Clone, Copy)]
pub enum DrawnEntry {
    /// An instruction completes: its number, its address, and the ticks at which it was prepared,
    /// its operands were available, its turn came and it completed.
    Done {
        number: u64,
        place: ReportAddress,
        prepared: u64,
        ready: u64,
        turn: u64,
        complete: u64,
    },
    /// An entry was prepared at one tick and dropped (flushed) at another.
    Dropped {
        place: ReportAddress,
        prepared: u64,
        end: u64,
    },
    /// An interrupt by this indicator was taken at a tick.
    Taken {
        indicator: u64,
        tick: u64,
    },
    /// A snapshot of the machine at a tick.
    Shown {
        tick: u64,
    },
}

/// The timetable of the lines read so far.
#[derive(Drop)]
pub struct ReadTimetable {
    /// The entries of the requested part.
    pub entries: Vec<DrawnEntry>,
    /// The dropped entries of the last segment, youngest first.
    pub dropped: Vec<DrawnEntry>,
    /// The number of the last row.
    pub row: u64,
    /// The last tick of the last row.
    pub end: u64,
    /// The number of rows after the requested part.
    pub later: u64,
}

/// The first tick of an entry: the one at which it was prepared, or that of an interrupt or a
/// snapshot.
pub fn first_tick(entry: &DrawnEntry) -> u64
    ensures { result ≡ first_tick_of entry.now }
{
    match *entry {
        DrawnEntry::Done { prepared, .. } => prepared,
        DrawnEntry::Dropped { prepared, .. } => prepared,
        DrawnEntry::Taken { tick, .. } => tick,
        DrawnEntry::Shown { tick } => tick,
    }
}

// Appends an entry that belongs to a row, if the row is in the part.
fn push_in_part(
    part: RowRange,
    n: u64,
    entry: DrawnEntry,
    entries: &mut Vec<DrawnEntry>,
) -> Result<(), AllocError>
    ensures { IfOk result
        (λ _. entries.new.items ≡ spec.entries_with part n entry entries.old.items) }
{
    if part.from <= n && n <= part.to {
        entries.push(entry)?;
    }
    Ok(())
}

// Appends the dropped entries, the oldest first.
fn push_dropped(
    entries: &mut Vec<DrawnEntry>,
    dropped: &mut Vec<DrawnEntry>,
) -> Result<(), AllocError>
    ensures entries { IfOk result (λ _. entries.new.items
        ≡ entries.old.items ++ reverse dropped.old.items) }
    ensures none { IfOk result (λ _. dropped.new.items ≡ []) }
{
    // Proofs name the loops by their labels.
    'entries: while let Some(entry) = dropped.pop() {
        entries.push(entry)?;
    }
    Ok(())
}

// Appends an entry after all that were read.
fn push_entry(
    part: RowRange,
    n: u64,
    entry: DrawnEntry,
    read: &mut ReadTimetable,
) -> Result<(), AllocError>
    ensures { IfOk result (λ _. timetable_of read.new ≡ spec.timetable_with part n entry
        (timetable_of read.old)) }
{
    push_dropped(&mut read.entries, &mut read.dropped)?;
    push_in_part(part, n, entry, &mut read.entries)
}

// The number of rows after a part, with row `n` counted if it is after the part.
fn count_later(part: RowRange, n: u64, later: u64) -> u64
    ensures { result ≡ spec.later_rows part n later }
{
    if part.to < n {
        later.saturating_add(1)
    } else {
        later
    }
}

// Adds the contents of one line.
fn take_item(
    part: RowRange,
    read: &mut ReadTimetable,
    item: TimetableLine,
) -> Result<(), AllocError>
    ensures { IfOk result (λ _. timetable_of read.new
        ≡ spec.after_item part (timetable_of read.old) item) }
{
    let row = read.row;
    let end = read.end;
    match item {
        TimetableLine::Row {
            number,
            place,
            prepared,
            ready,
            complete,
        } => {
            let entry = DrawnEntry::Done {
                number,
                place,
                prepared,
                ready,
                turn: ready.max(end.min(complete)),
                complete,
            };
            push_entry(part, number, entry, read)?;
            read.row = number;
            read.end = complete;
            read.later = count_later(part, number, read.later);
            Ok(())
        }
        TimetableLine::Drop { place, prepared } => {
            let entry = DrawnEntry::Dropped {
                place,
                prepared,
                end,
            };
            push_in_part(part, row, entry, &mut read.dropped)
        }
        TimetableLine::Interrupt { indicator } => {
            let entry = DrawnEntry::Taken {
                indicator,
                tick: end,
            };
            push_entry(part, row, entry, read)
        }
        TimetableLine::Snapshot { tick } => push_entry(part, row, DrawnEntry::Shown { tick }, read),
    }
}

// Adds one line.
fn take_line(part: RowRange, read: &mut ReadTimetable, line: &[u8]) -> Result<(), AllocError>
    ensures { IfOk result (λ _. timetable_of read.new
        ≡ spec.after_line part (timetable_of read.old) line.now) }
{
    match item_of(line) {
        Some(item) => take_item(part, read, item),
        None => Ok(()),
    }
}

// Adds all lines.
fn take_lines(part: RowRange, read: &mut ReadTimetable, report: &[u8]) -> Result<(), AllocError>
    ensures { IfOk result (λ _. timetable_of read.new
        ≡ spec.after_lines part (timetable_of read.old) (pieces_of 10 report.now)) }
{
    let mut rest = report;
    'lines: while let Some((line, after)) = cut(rest, b'\n') {
        take_line(part, read, line)?;
        rest = after;
    }
    take_line(part, read, rest)
}

/// The timetable that the lines of a report describe, for the requested rows. Lines that do not
/// describe it are skipped.
pub fn read_timetable(
    alloc: Global,
    part: RowRange,
    report: &[u8],
) -> Result<ReadTimetable, AllocError>
    ensures { IfOk result (λ read. timetable_of read ≡ spec.timetable part report.now) }
{
    let mut read = ReadTimetable {
        entries: Vec::new(alloc),
        dropped: Vec::new(alloc),
        row: 1,
        end: 0,
        later: 0,
    };
    take_lines(part, &mut read, report)?;
    push_dropped(&mut read.entries, &mut read.dropped)?;
    Ok(read)
}
