//! The axis of a chart: the ticks (clock cycles) that it shows, and the position of a tick on it.
//! docs/chart.md describes the axis. sheet.rt and drawing.rt use the axis for SVG, and terminal.rt
//! for text, with other widths.
//!
//! Proved: axis, marks and positions are `axis`, `marks` and `x_of_tick` of specs/Axis.antt;
//! `inside` says that a position is within its room, `some` that no span is 0.
//!
//! Pinned, by these definitions, docs/chart.md and vectors/pictures: a step is the first of 1, 2,
//! 5, 10, .. that divides the span into at most five steps; an axis has at most eight marks; a tick
//! before the axis is at the left end of the axis. Free: the bodies, if proofs/axis follows the
//! loops.
ghost use Rattle.std.specs.Prelude.{◌≡◌, ◌+◌, ◌^◌, ◌≤◌, ◌<◌, ◌++◌, IfOk};
ghost use Rattle.st_draw.specs.Axis as spec;

use st_entries::{DrawnEntry, first_tick};
use std::alloc::{AllocError, Global};

/// The ticks that a chart shows.
#[derive(Clone, Copy)]
pub struct Axis {
    /// The tick at the left end of the axis.
    pub start: u64,
    /// The last tick of any entry.
    pub last: u64,
    /// The number of ticks from one mark to the next.
    pub step: u64,
    /// The number of ticks across the whole axis.
    pub span: u64,
}

/// The horizontal extent of an axis in a chart.
#[derive(Clone, Copy)]
pub struct Room {
    /// The x of the left end.
    pub left: u16,
    /// The width.
    pub width: u16,
}

// The last tick of an entry.
fn last_tick(entry: &DrawnEntry) -> u64
    ensures { result ≡ spec.last_tick_of entry.now }
{
    match *entry {
        DrawnEntry::Done { complete, .. } => complete,
        DrawnEntry::Dropped { end, .. } => end,
        DrawnEntry::Taken { tick, .. } => tick,
        DrawnEntry::Shown { tick } => tick,
    }
}

// The first tick of any of the entries.
#[tactic(auto, using(crate::proofs::Axes::lowest_bound))]
fn lowest(entries: &[DrawnEntry]) -> u64
    ensures { result ≡ spec.lowest_tick entries.now }
{
    let mut low = u64::MAX;
    let mut rest = entries;
    // Proofs name the loops by their labels.
    'entries: while let [entry, after @ ..] = rest {
        low = low.min(first_tick(entry));
        rest = after;
    }
    low
}

// The last tick of any of the entries.
fn highest(entries: &[DrawnEntry]) -> u64
    ensures { result ≡ spec.highest_tick entries.now }
{
    let mut high = 0;
    let mut rest = entries;
    'entries: while let [entry, after @ ..] = rest {
        high = high.max(last_tick(entry));
        rest = after;
    }
    high
}

// The first of 1, 2, 5, 10, 20, .. times `unit` that divides a span into at most five steps. `fuel`
// bounds the calls, one for each power of ten; 20 powers suffice for spans below 2^64.
fn step_from(fuel: u8, unit: u64, span: u64) -> u64
    requires { 1 ≤ unit }
    ensures value { result ≡ spec.step_from fuel unit span }
    ensures some { 1 ≤ result }
{
    if fuel == 0 {
        return unit;
    }
    let five = 5 * u128::from(unit);
    let wanted = u128::from(span);
    if wanted <= five {
        unit
    } else if wanted <= 2 * five {
        2 * unit
    } else if wanted <= 5 * five {
        5 * unit
    } else {
        step_from(fuel - 1, 10 * unit, span)
    }
}

/// The axis of entries, at least `least` ticks long. A low tick is rounded down to a multiple of
/// the step.
pub fn axis_of(entries: &[DrawnEntry], least: u64) -> Axis
    requires { 1 ≤ least }
    ensures value { result ≡ spec.axis entries.now least }
    ensures some { 1 ≤ result.span }
{
    let low = lowest(entries);
    let last = highest(entries);
    let step = step_from(20, 1, last.saturating_sub(low));
    let start = low / step * step;
    Axis {
        start,
        last,
        step,
        span: least.max(last.saturating_sub(start)),
    }
}

/// The x of a tick.
pub fn at(room: Room, axis: Axis, tick: u64) -> u64
    requires { 1 ≤ axis.span }
    ensures value { result ≡ spec.x_of_tick room axis tick }
    ensures inside { result ≤ room.left + room.width }
{
    let along = u128::from(tick.saturating_sub(axis.start)) * u128::from(room.width)
        / u128::from(axis.span);
    u64::from(room.left) + along.min(u128::from(room.width)) as u64
}

// Appends the marked ticks from `tick` on, up to the last one and at most `fuel` of them.
fn push_marks(marks: &mut Vec<u64>, fuel: u8, tick: u128, axis: Axis) -> Result<(), AllocError>
    requires { tick < 2 ^ 65 }
    ensures { IfOk result (λ _. marks.new.items
        ≡ marks.old.items ++ spec.marks_from fuel tick axis.step axis.last) }
{
    if fuel == 0 || u128::from(axis.last) < tick {
        return Ok(());
    }
    marks.push(tick as u64)?;
    push_marks(marks, fuel - 1, tick + u128::from(axis.step), axis)
}

/// The marked ticks of an axis.
pub fn marks_of(alloc: Global, axis: Axis) -> Result<Vec<u64>, AllocError>
    ensures { IfOk result (λ marks. marks.items ≡ spec.marks axis) }
{
    let mut marks = Vec::new(alloc);
    push_marks(&mut marks, 8, u128::from(axis.start), axis)?;
    Ok(marks)
}
