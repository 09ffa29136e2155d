//! The events of a run as lines of its report: which lines an event has, by the requests of the job
//! (`/TRACE`, `/CHART`, `/TIME`, `/DUMP`). docs/report.md has the rules. reporting.rt of `st_top`
//! calls `write_run` and `write_state`. Completions are frequent, so their lines share one buffer,
//! and they are skipped in the run where they have no line.
//!
//! Proved: the lines are those of `report` in specs/Report.antt for the remaining events; after a
//! failed write they are the first ones, and `moment` is that of the line that failed
//! (`WritesEvents` in specs/Running.antt). `write_state` writes `block` of a state. Not proved:
//! speed.
//!
//! Pinned, by `parts_at` of specs/Report.antt and docs/report.md: the order of the lines of an
//! event. A new kind of event or line needs its case in `parts_at` first, then in the matches here,
//! which the compiler names; the proofs of this file show that each event has the lines listed
//! there. Free: buffers, inlining, the skipping.
ghost use Rattle.std.specs.Prelude.{◌≡◌, ◌<◌, ◌||◌, [], ◌∷◌, length, MatchOption, IfSome};
ghost use Rattle.std.specs.List.{AllPass};
ghost use Rattle.st_card.specs.Limits.{is_part};
ghost use Rattle.st_io.specs.Lines.{WritesLines};
ghost use Rattle.st_report.specs.Line.{trc_line, row_line, drop_line, time_line, snap_line as snap_line_of, lev_line, ticks_line};
ghost use Rattle.st_time.specs.Shown.{levels_standing, change_shown};
ghost use Rattle.st_run.specs.Telling.{row_told, told_as};
ghost use Rattle.st_run.specs.ReportedEvents.{Done, Interrupted, Ended};
ghost use Rattle.st_telling.specs.Report.{block, line_if, snapshot_lines, lines_at, lines_told, report};
ghost use Rattle.st_telling.specs.Running.{WritesEvents, WritesNothing, last_moment, views_lines};

use crate::block::write_block;
use crate::moment::Moment;
use st_ahead::{LevelView, Row, View};
use st_card::Controls;
use st_io::{Failed, Sink, write_line};
use st_report::{
    EntryLine, fill_trc, line_done, line_drop, line_end, line_int, line_prt, line_ticks, line_time,
    put,
};
use st_run::{Run, RunEvent, StateView, TimedRunEvent};
use st_time::{fill_chart, level_line, snap_line};

/// Writes the state block, with the requested dumps, line by line. In all clauses of this file, a
/// dump is a pair of word addresses, first and last, in order and below 98,304 (`is_part`).
pub fn write_state<K: Sink>(
    out: &mut K,
    seen: &StateView<'_>,
    controls: &Controls,
) -> Result<(), Failed>
    requires { AllPass is_part controls.now.dumps }
    ensures { WritesLines (K.output out.old) (K.output out.new)
        (block controls.now.dumps seen.now) result }
{
    write_block(out, seen, controls.dumps.as_slice())
}

// Writes the trace line of a completed instruction, if a trace is requested. `line` is a buffer.
#[tactic(auto, using(st_io::proofs::Progress::wrote_nothing))]
#[inline(always)]
fn write_trace<K: Sink>(
    out: &mut K,
    line: &mut EntryLine,
    done: u64,
    address: u32,
    controls: &Controls,
) -> Result<(), Failed>
    ensures { WritesLines (K.output out.old) (K.output out.new)
        (line_if controls.now.trace (trc_line done address)) result }
{
    if !controls.is_traced() {
        return Ok(());
    }
    fill_trc(line, done, address);
    write_line(out, line.bytes.as_bytes())
}

// Writes the line of a row, if the timetable is requested. `line` is a buffer.
#[tactic(auto, using(st_io::proofs::Progress::wrote_nothing))]
#[inline(always)]
fn write_row<K: Sink>(
    out: &mut K,
    line: &mut EntryLine,
    row: Row,
    controls: &Controls,
) -> Result<(), Failed>
    ensures { WritesLines (K.output out.old) (K.output out.new)
        (line_if controls.now.chart (row_line row.number row.address row.p row.r row.c)) result }
{
    if !controls.is_charted() {
        return Ok(());
    }
    fill_chart(line, &row);
    write_line(out, line.bytes.as_bytes())
}

// Writes the lines of a completion. `line` is a buffer.
#[inline(always)]
fn write_done<K: Sink>(
    out: &mut K,
    line: &mut EntryLine,
    row: Row,
    controls: &Controls,
) -> Result<(), Failed>
    ensures { WritesLines (K.output out.old) (K.output out.new)
        (lines_at controls.now row.number row.c (Done row.address row.p row.r row.c)) result }
{
    write_trace(out, line, row.number, row.address, controls)?;
    write_row(out, line, row, controls)
}

// Writes the line of a flushed entry, if the timetable is requested.
#[tactic(auto, using(st_io::proofs::Progress::wrote_nothing))]
fn write_dropped<K: Sink>(
    out: &mut K,
    address: u32,
    p: u64,
    controls: &Controls,
) -> Result<(), Failed>
    ensures { WritesLines (K.output out.old) (K.output out.new)
        (line_if controls.now.chart (drop_line address p)) result }
{
    if !controls.is_charted() {
        return Ok(());
    }
    put(out, &line_drop(address, p))
}

// Writes the line of the tick of an interrupt, if ticks are requested.
#[tactic(auto, using(st_io::proofs::Progress::wrote_nothing))]
fn write_time<K: Sink>(out: &mut K, tick: u64, controls: &Controls) -> Result<(), Failed>
    ensures { WritesLines (K.output out.old) (K.output out.new)
        (line_if controls.now.time (time_line tick)) result }
{
    if !controls.is_timed() {
        return Ok(());
    }
    put(out, &line_time(tick))
}

// Writes the lines of an interrupt.
fn write_interrupt<K: Sink>(
    out: &mut K,
    moment: Moment,
    i: u8,
    seen: &StateView<'_>,
    controls: &Controls,
) -> Result<(), Failed>
    requires { AllPass is_part controls.now.dumps }
    ensures { WritesLines (K.output out.old) (K.output out.new)
        (lines_at controls.now moment.done moment.tick (Interrupted i seen.now)) result }
{
    put(out, &line_int(i, moment.done))?;
    write_time(out, moment.tick, controls)?;
    write_state(out, seen, controls)
}

// Writes the first line of a snapshot at this moment.
fn write_snap<K: Sink>(out: &mut K, moment: Moment, view: &View) -> Result<(), Failed>
    ensures { WritesLines (K.output out.old) (K.output out.new)
        (snap_line_of moment.tick moment.done (levels_standing view.now.levels) ∷ []) result }
{
    let view = View {
        tick: moment.tick,
        done: moment.done,
        ..*view
    };
    put(out, &snap_line(&view))
}

// The first of the levels and the rest; None if there is none.
#[tactic(auto, unfolding(crate::specs::Running::views_lines))]
fn first_level(levels: &[Option<LevelView>]) -> Option<(LevelView, &[Option<LevelView>])>
    ensures lines { MatchOption result (views_lines levels.now ≡ []) (λ r. views_lines levels.now
        ≡ lev_line r.0.address (change_shown r.0) r.0.ready ∷ views_lines r.1.now) }
    ensures fewer { IfSome result (λ r. length r.1.now < length levels.now) }
{
    match levels {
        [Some(level), more @ ..] => Some((*level, more)),
        _ => None,
    }
}

// Writes the lines of the levels.
#[tactic(auto, using(st_io::proofs::Progress::wrote_nothing))]
fn write_levels<K: Sink>(out: &mut K, levels: &[Option<LevelView>]) -> Result<(), Failed>
    ensures { WritesLines (K.output out.old) (K.output out.new) (views_lines levels.now) result }
{
    let Some((level, more)) = first_level(levels) else {
        return Ok(());
    };
    put(out, &level_line(&level))?;
    write_levels(out, more)
}

// Writes the snapshot that a run shows. It is a separate function, so that other events need no
// stack space for a view.
#[inline(never)]
fn write_shown<K: Sink, const N: usize>(
    out: &mut K,
    run: &Run<'_, N>,
    moment: Moment,
    controls: &Controls,
) -> Result<(), Failed>
    requires { AllPass is_part controls.now.dumps }
    ensures { WritesLines (K.output out.old) (K.output out.new)
        (snapshot_lines controls.now moment.done moment.tick run.now.seen run.now.ahead) result }
{
    let view = run.view();
    write_snap(out, moment, &view)?;
    write_state(out, &run.seen(), controls)?;
    write_levels(out, &view.levels)
}

// Writes the line of the tick of the last completion, if ticks are requested.
#[tactic(auto, using(st_io::proofs::Progress::wrote_nothing))]
fn write_ticks<K: Sink>(out: &mut K, tick: u64, controls: &Controls) -> Result<(), Failed>
    ensures { WritesLines (K.output out.old) (K.output out.new)
        (line_if controls.now.time (ticks_line tick)) result }
{
    if !controls.is_timed() {
        return Ok(());
    }
    put(out, &line_ticks(tick))
}

// Writes the lines of the end of the run: at rest, or with the budget used up.
fn write_end<K: Sink>(
    out: &mut K,
    moment: Moment,
    rests: bool,
    seen: &StateView<'_>,
    controls: &Controls,
) -> Result<(), Failed>
    requires { AllPass is_part controls.now.dumps }
    ensures { WritesLines (K.output out.old) (K.output out.new)
        (lines_at controls.now moment.done moment.tick (Ended rests seen.now)) result }
{
    put(out, &line_end(rests))?;
    put(out, &line_done(moment.done))?;
    write_ticks(out, moment.tick, controls)?;
    write_state(out, seen, controls)
}

// The moment of a row.
fn moment_at(row: &Row) -> Moment
    ensures { result ≡ record { done = row.now.number; tick = row.now.c } }
{
    Moment {
        done: row.number,
        tick: row.c,
    }
}

// Writes the lines of the last event of a run. `line` is a buffer for those of a completion.
#[tactic(auto, using(st_io::proofs::Progress::wrote_nothing))]
fn write_told<K: Sink, const N: usize>(
    out: &mut K,
    line: &mut EntryLine,
    run: &Run<'_, N>,
    told: TimedRunEvent,
    controls: &Controls,
) -> Result<(), Failed>
    requires { AllPass is_part controls.now.dumps }
    ensures { WritesLines (K.output out.old) (K.output out.new)
        (lines_told controls.now (told_as told run.now.seen run.now.ahead run.now.text)) result }
{
    let TimedRunEvent { done, tick, event } = told;
    let moment = Moment { done, tick };
    // A completion that is only counted has no lines.
    if let RunEvent::Done { .. } = event {
        if !controls.is_traced() {
            if !controls.is_charted() {
                return Ok(());
            }
        }
    }
    match event {
        RunEvent::Done { address, p, r } => {
            let row = Row {
                number: done,
                address,
                p,
                r,
                c: tick,
            };
            write_done(out, line, row, controls)
        }
        RunEvent::Dropped { address, p } => write_dropped(out, address, p, controls),
        RunEvent::Printed => put(out, &line_prt(run.printed())),
        RunEvent::Interrupted(i) => write_interrupt(out, moment, i, &run.seen(), controls),
        RunEvent::Shown(at) => write_shown(out, run, Moment { tick: at, ..moment }, controls),
        RunEvent::Ended(rests) => write_end(out, moment, rests, &run.seen(), controls),
    }
}

// Skips completions without lines. `moment` becomes that of the last one.
fn pass_counted<const N: usize>(run: &mut Run<'_, N>, moment: &mut Moment, controls: &Controls)
    ensures { WritesNothing controls.now moment.old run.old.rest moment.new run.new.rest }
{
    if controls.is_traced() {
        return;
    }
    if controls.is_charted() {
        return;
    }
    if let Some(row) = run.pass_entries() {
        *moment = moment_at(&row);
    }
}

// The row of the next completion, if completions have lines.
fn next_written<const N: usize>(run: &mut Run<'_, N>, written: bool) -> Option<Row>
    ensures { MatchOption result (run.new.rest ≡ run.old.rest) (λ row. run.old.rest ≡ row_told row
        ∷ run.new.rest) }
{
    if !written {
        return None;
    }
    run.next_row()
}

// The next event of a run, after completions without lines.
fn next_told<const N: usize>(
    run: &mut Run<'_, N>,
    moment: &mut Moment,
    controls: &Controls,
) -> Option<TimedRunEvent>
    ensures { MatchOption result (WritesNothing controls.now moment.old run.old.rest moment.new [])
        (λ t. WritesNothing controls.now moment.old run.old.rest moment.new
        (told_as t run.new.seen run.new.ahead run.new.text ∷ run.new.rest)) }
{
    pass_counted(run, moment, controls);
    run.next()
}

// Writes the report of the remaining events of a run.
fn write_rest<K: Sink, const N: usize>(
    out: &mut K,
    run: &mut Run<'_, N>,
    moment: &mut Moment,
    controls: &Controls,
) -> Result<(), Failed>
    requires { AllPass is_part controls.now.dumps }
    ensures { WritesEvents (K.output out.old) (K.output out.new) (report controls.now run.old.rest)
        (last_moment moment.old run.old.rest) moment.new result }
{
    // One buffer for all lines, since clearing a new one takes time.
    let mut line = EntryLine::new();
    // Whether completions have lines.
    let written = controls.trace || controls.chart;
    'telling: loop {
        if let Some(row) = next_written(run, written) {
            *moment = moment_at(&row);
            write_done(out, &mut line, row, controls)?;
            continue 'telling;
        }
        let Some(told) = next_told(run, moment, controls) else {
            return Ok(());
        };
        *moment = Moment {
            done: told.done,
            tick: told.tick,
        };
        write_told(out, &mut line, run, told, controls)?;
    }
}

/// Writes the report of the remaining events of a run. After a failed write `moment` is that of the
/// line, otherwise that of the end.
pub fn write_run<K: Sink, const N: usize>(
    out: &mut K,
    run: &mut Run<'_, N>,
    moment: &mut Moment,
    controls: &Controls,
) -> Result<(), Failed>
    requires { AllPass is_part controls.now.dumps }
    ensures { WritesEvents (K.output out.old) (K.output out.new) (report controls.now run.old.rest)
        (last_moment moment.old run.old.rest) moment.new result }
{
    // A local moment is updated for each line, without access to the caller's.
    let mut here = *moment;
    let written = write_rest(out, run, &mut here, controls);
    *moment = here;
    written
}
