//! A log of the events of a timetable's entries, in the format Kanata of pipeline viewers: which
//! stage each entry begins and ends at each tick. docs/chart.md has the format. `st_draw`
//! (program.rt) calls `write_log` for the picture `kanata`.
//!
//! Proved: the bytes are `log` of specs/Log.antt, unless memory runs out. That events are in the
//! order of ticks is the law `LogsGoForward`, that labels stay in their lines the law
//! `LabelsStayInTheirLines` (specs/Laws.antt).
//!
//! Pinned, by this definition, docs/chart.md and the files .kanata of vectors/pictures: the stages
//! W (waits for operands), T (waits for its turn), X (executes), D (dropped), I (interrupt) and S
//! (snapshot). Free: the split into functions, if proofs/log follows the loop of `push_moments`.
ghost use Rattle.std.specs.Prelude.{◌≡◌, ◌++◌, IfOk};
ghost use Rattle.st_entries.specs.Log as spec;

use crate::log_line::{
    log_label, push_cycles, push_end_line, push_entry_line, push_label_line, push_opening,
    push_stage,
};
use crate::moments::{LogMoment, LogStep, happenings};
use crate::timetable::DrawnEntry;
use std::alloc::{AllocError, Global};

// The stage in which an entry begins: waiting for its operands, dropped, an interrupt, a snapshot.
fn first_stage(entry: DrawnEntry) -> &'static [u8]
    ensures { result.now ≡ spec.first_stage entry }
{
    match entry {
        DrawnEntry::Done { .. } => b"W",
        DrawnEntry::Dropped { .. } => b"D",
        DrawnEntry::Taken { .. } => b"I",
        DrawnEntry::Shown { .. } => b"S",
    }
}

// The stage in which an entry ends: executing, or the stage in which it began.
fn last_stage(entry: DrawnEntry) -> &'static [u8]
    ensures { result.now ≡ spec.last_stage entry }
{
    match entry {
        DrawnEntry::Done { .. } => b"X",
        DrawnEntry::Dropped { .. } => b"D",
        DrawnEntry::Taken { .. } => b"I",
        DrawnEntry::Shown { .. } => b"S",
    }
}

// The number of an entry's row; 0 if it has none.
fn row_number(entry: DrawnEntry) -> u64
    ensures { result ≡ spec.row_number entry }
{
    match entry {
        DrawnEntry::Done { number, .. } => number,
        DrawnEntry::Dropped { .. } => 0,
        DrawnEntry::Taken { .. } => 0,
        DrawnEntry::Shown { .. } => 0,
    }
}

// Whether an entry was retired, `0`, or flushed, `1`.
fn retire_type(entry: DrawnEntry) -> &'static [u8]
    ensures { result.now ≡ spec.retire_type entry }
{
    match entry {
        DrawnEntry::Done { .. } => b"0",
        DrawnEntry::Dropped { .. } => b"1",
        DrawnEntry::Taken { .. } => b"0",
        DrawnEntry::Shown { .. } => b"0",
    }
}

// Appends the lines of an entry that begins.
fn push_begin(
    alloc: Global,
    out: &mut Vec<u8>,
    report: &[u8],
    number: u64,
    entry: DrawnEntry,
) -> Result<(), AllocError>
    ensures { IfOk result (λ _. out.new.items ≡ out.old.items
        ++ spec.begin_lines report.now number entry) }
{
    let text = log_label(alloc, report, entry)?;
    push_entry_line(out, number)?;
    push_label_line(out, number, text.as_slice())?;
    push_stage(out, b"S", number, first_stage(entry))
}

// Appends the lines of an entry that changes from one stage to another.
fn push_change(out: &mut Vec<u8>, number: u64, from: &[u8], to: &[u8]) -> Result<(), AllocError>
    ensures { IfOk result (λ _. out.new.items ≡ out.old.items
        ++ spec.change_lines number from.now to.now) }
{
    push_stage(out, b"E", number, from)?;
    push_stage(out, b"S", number, to)
}

// Appends the lines of a step of an entry.
fn push_step(
    alloc: Global,
    out: &mut Vec<u8>,
    report: &[u8],
    moment: &LogMoment,
) -> Result<(), AllocError>
    ensures { IfOk result (λ _. out.new.items ≡ out.old.items
        ++ spec.step_lines report.now moment.now.number moment.now.step moment.now.entry) }
{
    match moment.step {
        LogStep::Begin => push_begin(alloc, out, report, moment.number, moment.entry),
        LogStep::Ready => push_change(out, moment.number, b"W", b"T"),
        LogStep::Turn => push_change(out, moment.number, b"T", b"X"),
        LogStep::End => {
            let LogMoment { number, entry, .. } = *moment;
            push_stage(out, b"E", number, last_stage(entry))?;
            push_end_line(out, number, row_number(entry), retire_type(entry))
        }
    }
}

// Appends the lines of moments in order, given the tick of the moment before them.
fn push_moments(
    alloc: Global,
    out: &mut Vec<u8>,
    report: &[u8],
    start: u64,
    moments: &[LogMoment],
) -> Result<(), AllocError>
    ensures { IfOk result (λ _. out.new.items ≡ out.old.items
        ++ spec.moments_lines report.now start moments.now) }
{
    let mut tick = start;
    let mut rest = moments;
    // Proofs name the loop by its label.
    'moments: while let [moment, after @ ..] = rest {
        push_cycles(out, tick, moment.tick)?;
        push_step(alloc, out, report, moment)?;
        tick = moment.tick;
        rest = after;
    }
    Ok(())
}

// The tick of the first moment; 0 if there is none.
fn start_of(moments: &[LogMoment]) -> u64
    ensures { result ≡ spec.first_moment_tick moments.now }
{
    match moments {
        [] => 0,
        [first, ..] => first.tick,
    }
}

/// The log of entries, in the order of ticks; the three texts of each entry use the listing in the
/// report. The only error is that memory ran out.
pub fn write_log(
    alloc: Global,
    report: &[u8],
    entries: &[DrawnEntry],
) -> Result<Vec<u8>, AllocError>
    ensures { IfOk result (λ out. out.items ≡ spec.log report.now entries.now) }
{
    let moments = happenings(alloc, entries)?;
    let start = start_of(moments.as_slice());
    let mut out = Vec::new(alloc);
    push_opening(&mut out, start)?;
    push_moments(alloc, &mut out, report, start, moments.as_slice())?;
    Ok(out)
}
