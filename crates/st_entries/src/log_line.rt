//! The lines of a log in the format Kanata, one call for each kind; fields are separated by tabs.
//! docs/chart.md has the format. Only log.rt calls these functions, and decides which lines a log
//! has.
//!
//! Proved: each call appends exactly a line of specs/Log.antt, or memory runs out. Not proved: that
//! viewers accept the log.
//!
//! Pinned, by specs/Log.antt, docs/chart.md, the files .kanata of vectors/pictures and the viewers:
//! the bytes. Ticks are what the format calls cycles; numbers of entries count from 0. Free: the
//! bodies.
#![tactic(auto, unfolding( //
crate::specs::Log::heading, //
crate::specs::Log::label_line, //
crate::specs::Log::log_end_line, //
crate::specs::Log::log_entry_line, //
crate::specs::Log::log_front, //
crate::specs::Log::log_label, //
crate::specs::Log::cycles_line, //
crate::specs::Log::stage_line //
))]

ghost use Rattle.std.specs.Prelude.{◌≡◌, ◌++◌, IfOk};
ghost use Rattle.st_entries.specs.Log as spec;

use crate::caption::{first_text, second_text, third_text, with_dots};
use crate::plain::{push_decimal, push_plain};
use crate::timetable::DrawnEntry;
use std::alloc::{AllocError, Global};

// The header of the log's format, and the text before the tick at which the log starts.
fn heading() -> &'static [u8]
    ensures { result.now ≡ spec.heading }
{
    b"Kanata\t0004\nC=\t"
}

/// Appends the header of the log's format, and the tick at which the log starts.
pub fn push_opening(out: &mut Vec<u8>, tick: u64) -> Result<(), AllocError>
    ensures { IfOk result (λ _. out.new.items ≡ out.old.items ++ spec.log_front tick) }
{
    out.extend_from_slice(heading())?;
    push_decimal(out, u128::from(tick))?;
    out.extend_from_slice(b"\n")
}

/// Appends the number of ticks that pass from one tick to another, unless it is 0.
pub fn push_cycles(out: &mut Vec<u8>, from: u64, to: u64) -> Result<(), AllocError>
    ensures { IfOk result (λ _. out.new.items ≡ out.old.items ++ spec.cycles_line from to) }
{
    if from == to {
        return Ok(());
    }
    out.extend_from_slice(b"C\t")?;
    push_decimal(out, u128::from(to.saturating_sub(from)))?;
    out.extend_from_slice(b"\n")
}

/// Appends the line with which the entry with a number appears.
pub fn push_entry_line(out: &mut Vec<u8>, number: u64) -> Result<(), AllocError>
    ensures { IfOk result (λ _. out.new.items ≡ out.old.items ++ spec.log_entry_line number) }
{
    out.extend_from_slice(b"I\t")?;
    push_decimal(out, u128::from(number))?;
    out.extend_from_slice(b"\t")?;
    push_decimal(out, u128::from(number))?;
    out.extend_from_slice(b"\t0\n")
}

/// Appends the label of the entry with a number, which the viewer shows beside it.
pub fn push_label_line(out: &mut Vec<u8>, number: u64, text: &[u8]) -> Result<(), AllocError>
    ensures { IfOk result (λ _. out.new.items ≡ out.old.items ++ spec.label_line number text.now) }
{
    out.extend_from_slice(b"L\t")?;
    push_decimal(out, u128::from(number))?;
    out.extend_from_slice(b"\t0\t")?;
    push_plain(out, text)?;
    out.extend_from_slice(b"\n")
}

/// Appends that a stage of the entry with a number begins or ends: `sign` is `S` or `E`, `stage`
/// the name of the stage.
pub fn push_stage(
    out: &mut Vec<u8>,
    sign: &[u8],
    number: u64,
    stage: &[u8],
) -> Result<(), AllocError>
    ensures { IfOk result (λ _. out.new.items ≡ out.old.items
        ++ spec.stage_line sign.now number stage.now) }
{
    out.extend_from_slice(sign)?;
    out.extend_from_slice(b"\t")?;
    push_decimal(out, u128::from(number))?;
    out.extend_from_slice(b"\t0\t")?;
    out.extend_from_slice(stage)?;
    out.extend_from_slice(b"\n")
}

/// Appends that the entry with a number leaves the pipeline, with its row's number; `how` is `0`
/// for retired, `1` for flushed.
pub fn push_end_line(out: &mut Vec<u8>, number: u64, row: u64, how: &[u8]) -> Result<(), AllocError>
    ensures { IfOk result (λ _. out.new.items ≡ out.old.items
        ++ spec.log_end_line number row how.now) }
{
    out.extend_from_slice(b"R\t")?;
    push_decimal(out, u128::from(number))?;
    out.extend_from_slice(b"\t")?;
    push_decimal(out, u128::from(row))?;
    out.extend_from_slice(b"\t")?;
    out.extend_from_slice(how)?;
    out.extend_from_slice(b"\n")
}

/// The label of an entry: its three texts; the last one ends in dots if it is too long.
pub fn log_label(alloc: Global, report: &[u8], entry: DrawnEntry) -> Result<Vec<u8>, AllocError>
    ensures { IfOk result (λ text. text.items ≡ spec.log_label report.now entry) }
{
    let mut text = first_text(alloc, entry)?;
    let second = second_text(alloc, entry)?;
    let third = with_dots(alloc, third_text(report, entry))?;
    text.extend_from_slice(b" ")?;
    text.extend_from_slice(second.as_slice())?;
    text.extend_from_slice(b" ")?;
    text.extend_from_slice(third.as_slice())?;
    Ok(text)
}
