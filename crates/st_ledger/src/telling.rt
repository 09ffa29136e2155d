//! The line of a row, which are the ticks of one instruction, and its stages: the seven parts in
//! which its ticks are charged, each with the tick at which it ends. docs/ledger.md has the rules
//! ("Charges"). `st_lines` calls `write_row`, `parts` and `later`; totals.rt calls `parts` and
//! `later`. `start` is the start of the segment in ticks; a stage that ends before the last
//! completion has no charge.
//!
//! Proved: the stages are `parts_of_row` of specs/Charges.antt, and the line is `row_stage_line` of
//! specs/Lines.antt, written as `WritesLines` (specs/Lines.antt of `st_io`) says. Laws about
//! charges are in specs/Laws.antt, as `ChargesFollow`.
//!
//! Pinned, by `parts_of_row`, docs/ledger.md and vectors/ledger/lines.txt: the stages, their order
//! and their ends. Another rule of the timetable changes the ends (docs/changing.md). Free: the
//! bodies.
ghost use Rattle.std.specs.Prelude.{◌≡◌, ◌∷◌, [], max};
ghost use Rattle.st_io.specs.Lines.{WritesLines};
ghost use Rattle.st_ledger.specs.Charges.{parts_of_row as parts_of};
ghost use Rattle.st_ledger.specs.Lines.{row_stage_line};

use crate::charges::{Stage, StagePart};
use crate::lines::{RowLine, fill_row};
use st_io::{Failed, Sink, write_line};
use st_rows::EntryTicks;

// A stage, with the tick at which it ends.
fn part(stage: Stage, end: u64) -> StagePart
    ensures { result ≡ record { stage = stage; end = end } }
{
    StagePart { stage, end }
}

/// The stages of a row in their order, each with the tick at which it ends. `start` is the tick at
/// which the segment starts.
pub fn parts(start: u64, row: &EntryTicks) -> [StagePart; 7]
    ensures { result ≡ parts_of start row.now }
{
    [
        part(Stage::Restart, start),
        part(Stage::Instruction, row.a.saturating_sub(1)),
        part(Stage::Address, row.a),
        part(Stage::Index, row.p.saturating_sub(1)),
        part(Stage::Preparing, row.p),
        part(Stage::Operand, row.r),
        part(Stage::Executing, row.c),
    ]
}

/// The later of two ticks.
pub fn later(a: u64, b: u64) -> u64
    ensures { result ≡ max a b }
{
    a.max(b)
}

/// Writes the line of the n-th completed entry, with its half-word address and its row.
pub fn write_row<K: Sink>(
    out: &mut K,
    line: &mut RowLine,
    n: u32,
    address: u32,
    row: &EntryTicks,
) -> Result<(), Failed>
    ensures { WritesLines (K.output out.old) (K.output out.new)
        (row_stage_line n address row.now ∷ []) result }
{
    fill_row(line, n, address, row);
    write_line(out, line.bytes.as_bytes())
}
