//! The events of a timetable's entries, in the order of ticks. docs/chart.md has the rules. Only
//! log.rt calls `happenings`. A report may have ticks in any order, so no event of an entry is put
//! before the one that precedes it in that entry.
//!
//! Proved: the events are `happenings` of specs/Moments.antt, sorted by `in_order` there, unless
//! memory runs out. That no event has an earlier tick than the event before it is the law
//! `LogsGoForward` (specs/Laws.antt).
//!
//! Pinned, by this definition and the files .kanata of vectors/pictures: events at equal ticks keep
//! their order; an interrupt and a snapshot last one tick. Free: the sorting call, as long as it is
//! stable, and the bodies, if proofs/moments follows `moments_of` and `happenings`.
ghost use Rattle.std.specs.Prelude.{◌≡◌, ◌++◌, ◌∷◌, [], IfOk};
ghost use Rattle.st_entries.specs.Moments as spec;
ghost use Rattle.st_entries.specs.declared.moments.LogMoment.{LogMoment};

use crate::timetable::{DrawnEntry, first_tick};
use std::alloc::{AllocError, Global};

/// An event in the life of an entry.
#[derive(Clone, Copy)]
pub enum LogStep {
    /// The entry begins.
    Begin,
    /// The entry's operands are available.
    Ready,
    /// The entry's turn comes.
    Turn,
    /// The entry completes, is dropped, or (for an interrupt or a snapshot) is over.
    End,
}

/// An event of an entry at a tick.
#[derive(Clone, Copy)]
pub struct LogMoment {
    /// The tick of the event.
    pub tick: u64,
    /// The number of the entry; entries are numbered in the order in which they begin.
    pub number: u64,
    /// The event.
    pub step: LogStep,
    /// The entry.
    pub entry: DrawnEntry,
}

// The tick at which an entry's operands are available; not before it begins.
fn ready_tick(entry: &DrawnEntry) -> u64
    ensures { result ≡ spec.ready_tick entry.now }
{
    match *entry {
        DrawnEntry::Done {
            prepared,
            ready,
            ..
        } => prepared.max(ready),
        DrawnEntry::Dropped { prepared, .. } => prepared,
        DrawnEntry::Taken { tick, .. } => tick,
        DrawnEntry::Shown { tick } => tick,
    }
}

// The tick at which an entry's turn comes; not before its operands are available.
fn turn_tick(entry: &DrawnEntry) -> u64
    ensures { result ≡ spec.turn_tick entry.now }
{
    match *entry {
        DrawnEntry::Done {
            prepared,
            ready,
            turn,
            ..
        } => prepared.max(ready).max(turn),
        DrawnEntry::Dropped { prepared, .. } => prepared,
        DrawnEntry::Taken { tick, .. } => tick,
        DrawnEntry::Shown { tick } => tick,
    }
}

// The tick at which an entry ends, not before it begins; an interrupt and a snapshot last one tick.
fn end_tick(entry: &DrawnEntry) -> u64
    ensures { result ≡ spec.end_tick entry.now }
{
    match *entry {
        DrawnEntry::Done {
            prepared,
            ready,
            turn,
            complete,
            ..
        } => prepared.max(ready).max(turn).max(complete),
        DrawnEntry::Dropped { prepared, end, .. } => prepared.max(end),
        DrawnEntry::Taken { tick, .. } => tick.saturating_add(1),
        DrawnEntry::Shown { tick } => tick.saturating_add(1),
    }
}

// The tick of an event of an entry.
fn tick_of(step: LogStep, entry: &DrawnEntry) -> u64
    ensures { result ≡ spec.moment_tick step entry.now }
{
    match step {
        LogStep::Begin => first_tick(entry),
        LogStep::Ready => ready_tick(entry),
        LogStep::Turn => turn_tick(entry),
        LogStep::End => end_tick(entry),
    }
}

// Appends an event of the entry with a number.
fn push(
    out: &mut Vec<LogMoment>,
    number: u64,
    step: LogStep,
    entry: DrawnEntry,
) -> Result<(), AllocError>
    ensures { IfOk result (λ _. out.new.items
        ≡ out.old.items ++ spec.moment number step entry ∷ []) }
{
    let tick = tick_of(step, &entry);
    out.push(LogMoment {
        tick,
        number,
        step,
        entry,
    })?;
    Ok(())
}

// Appends the events that an entry's operands are available and that its turn comes, if it waits
// for these.
fn push_waits(out: &mut Vec<LogMoment>, number: u64, entry: DrawnEntry) -> Result<(), AllocError>
    ensures { IfOk result (λ _. out.new.items ≡ out.old.items ++ spec.waits_of number entry) }
{
    match entry {
        DrawnEntry::Done { .. } => {
            push(out, number, LogStep::Ready, entry)?;
            push(out, number, LogStep::Turn, entry)
        }
        DrawnEntry::Dropped { .. } => Ok(()),
        DrawnEntry::Taken { .. } => Ok(()),
        DrawnEntry::Shown { .. } => Ok(()),
    }
}

// All events of entries, numbered from 0 on.
fn moments_of(alloc: Global, entries: &[DrawnEntry]) -> Result<Vec<LogMoment>, AllocError>
    ensures { IfOk result (λ out. out.items ≡ spec.moments 0 entries.now) }
{
    let mut out = Vec::new(alloc);
    let mut number = 0;
    let mut rest = entries;
    // Proofs name the loop by its label.
    'entries: while let [entry, after @ ..] = rest {
        push(&mut out, number, LogStep::Begin, *entry)?;
        push_waits(&mut out, number, *entry)?;
        push(&mut out, number, LogStep::End, *entry)?;
        number += 1;
        rest = after;
    }
    Ok(out)
}

/// The events of entries in the order of ticks; the entries are numbered from 0 on in the order in
/// which they begin.
pub fn happenings(alloc: Global, entries: &[DrawnEntry]) -> Result<Vec<LogMoment>, AllocError>
    ensures { IfOk result (λ out. out.items ≡ spec.happenings entries.now) }
{
    let mut begun = Vec::from_slice(alloc, entries)?;
    begun.sort_by_key(|entry| first_tick(entry))?;
    let mut moments = moments_of(alloc, begun.as_slice())?;
    moments.sort_by_key(|moment| moment.tick)?;
    Ok(moments)
}
