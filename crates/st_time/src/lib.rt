//! The lines of the timetable, from views of the overlapped machine: rows, flushed entries,
//! snapshots and their levels. docs/report.md has the lines. `st_telling` writes them; `st_report`
//! formats the bytes of each line, and need not depend on the machine. Addresses are half-word
//! addresses, ticks count from the start of the run. Lines are not allocated.
//!
//! Proved, by the `ensures` of each call: each line is `row_line`, `drop_line`, `lev_line` or
//! `snap_line` of specs/Line.antt of `st_report`; a snapshot has the number of levels before the
//! first empty place (`levels_standing` in specs/Shown.antt).
//!
//! Pinned, by these clauses and docs/report.md: which field of a view goes where in a line. Another
//! form of a line is a change in `st_report`. A new field of `View` or `LevelView` (`st_ahead`) is
//! shown only if a clause here names it. Free: the bodies.
#![tactic(auto)]

ghost use Rattle.std.specs.Prelude.{◌≡◌, ◌≤◌, length, option_map};
ghost use Rattle.st_report.specs.Line.{row_line, drop_line as drop_line_of, snap_line as snap_line_of, lev_line};
ghost use Rattle.st_time.specs.Shown.{levels_standing, change_shown};

use st_ahead::{LevelView, Row, View};
use st_report::{EntryLine, EntryRow, Line, fill_row, line_drop, line_lev, line_row, line_snap};

// A row as the fields of its line.
fn entry_row(row: &Row) -> EntryRow
    ensures { result ≡ record {
      number = row.now.number;
      address = row.now.address;
      p = row.now.p;
      r = row.now.r;
      c = row.now.c;
    } }
{
    EntryRow {
        number: row.number,
        address: row.address,
        p: row.p,
        r: row.r,
        c: row.c,
    }
}

/// `ROW n a P p R r C c`: the line of a completed entry.
pub fn chart(row: &Row) -> Line
    ensures { result.bytes ≡ row_line row.now.number row.now.address row.now.p row.now.r row.now.c }
{
    line_row(&entry_row(row))
}

/// Writes the line of `chart` over a given line.
#[inline(always)]
pub fn fill_chart(line: &mut EntryLine, row: &Row)
    ensures { line.new.bytes
        ≡ row_line row.now.number row.now.address row.now.p row.now.r row.now.c }
{
    fill_row(line, &entry_row(row));
}

/// `DROP a P p`: the line of a flushed level.
pub fn drop_line(level: &LevelView) -> Line
    ensures { result.bytes ≡ drop_line_of level.now.address level.now.p }
{
    line_drop(level.address, level.p)
}

/// `LEV a X x OLD h READY r`, or `LEV a X - READY r` if it changed no index word: the line of a
/// level of a snapshot.
pub fn level_line(level: &LevelView) -> Line
    ensures { result.bytes ≡ lev_line level.now.address (change_shown level.now) level.now.ready }
{
    line_lev(level.address, change(level.index, level.kept), level.ready)
}

/// `SNAP t DONE q AHEAD k`: the line of a snapshot at the tick of the view. The levels are in the
/// first places of `levels`.
pub fn snap_line(view: &View) -> Line
    ensures { result.bytes ≡ snap_line_of view.now.tick view.now.done
        (levels_standing view.now.levels) }
{
    line_snap(view.tick, view.done, count(&view.levels))
}

// The number and the previous contents of the index word that was changed speculatively, if any.
fn change(index: Option<u8>, kept: u64) -> Option<(u8, u64)>
    ensures { result ≡ option_map (λ number. (number, kept)) index }
{
    match index {
        Some(number) => Some((number, kept)),
        None => None,
    }
}

// The number of levels before the first empty place, at most eight.
#[tactic(auto, unfolding(crate::specs::Shown::levels_standing))]
fn count(levels: &[Option<LevelView>]) -> u8
    requires { length levels.now ≤ 8 }
    ensures value { result ≡ levels_standing levels.now }
    ensures bound { result ≤ length levels.now }
{
    match levels {
        [Some(_), more @ ..] => 1 + count(more),
        _ => 0,
    }
}
