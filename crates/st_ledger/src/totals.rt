//! The ticks charged to each stage in a whole run, and their `SUM` lines. docs/ledger.md has the
//! lines. `st_account` adds each row (the ticks of one instruction) as it completes, and writes the
//! sums at the end; `st_tally` adds and writes those of each card.
//!
//! Proved: each total grows by the charges of the row (`sums`, by `ticks_for` of
//! specs/Charges.antt), no total exceeds the tick, so none overflows (`within`, `AreWithin` of
//! specs/Totals.antt), and the lines are `sum_lines` there. By the law `ChargesAddUpToTheRun`
//! (specs/Laws.antt) the totals add up to the ticks of the run.
//!
//! Pinned, by `stages` of specs/Totals.antt, docs/ledger.md and vectors/ledger/lines.txt: the lines
//! and their order, which is that of the stages. A new stage needs a field, its arms and its place
//! in `sums_of`. Free: the recursion, if proofs/totals follows.
ghost use Rattle.std.specs.Prelude.{◌≡◌, ◌+◌, ◌<◌, ◌∷◌, [], max};
ghost use Rattle.st_io.specs.Lines.{WritesLines};
ghost use Rattle.st_ledger.specs.declared.charges.Stage.{Stage as StageOf};
ghost use Rattle.st_ledger.specs.Charges.{parts_of_row as parts_of, charges_behind, part_charges, ticks_for, all_ticks};
ghost use Rattle.st_ledger.specs.Lines.{sum_line};
ghost use Rattle.st_ledger.specs.Totals.{sum_at, AreWithin, stages, sums_by, sum_lines};

use crate::charges::{Charge, Stage, StagePart};
use crate::lines::fill_sum;
use crate::telling::{later, parts};
use st_io::{Failed, Sink, write_line};
use st_report::LineFromEnd;
use st_rows::EntryTicks;

/// The ticks charged to each stage.
#[derive(Clone, Copy, Debug, Default, PartialEq, Eq)]
pub struct Totals {
    /// The ticks up to the starts of segments.
    pub restart: u64,
    /// The ticks of waits for instruction words.
    pub instruction: u64,
    /// The ticks in which addresses are formed.
    pub address: u64,
    /// The ticks of waits for index-side words.
    pub index: u64,
    /// The ticks in which entries are prepared.
    pub preparing: u64,
    /// The ticks of waits for operand words.
    pub operand: u64,
    /// The ticks in which entries execute.
    pub executing: u64,
}

impl Totals {
    // Adds a charge. No total may be greater than the tick at which the charge begins.
    fn add(&mut self, charge: Charge)
        requires order { charge.from < charge.to }
        requires within { AreWithin charge.from self.old }
        ensures within { AreWithin charge.to self.new }
        ensures sums { (s : StageOf) → sum_at s self.new ≡ sum_at s self.old
            + ticks_for s (charge ∷ []) }
    {
        let ticks = charge.to - charge.from;
        match charge.stage {
            Stage::Restart => self.restart += ticks,
            Stage::Instruction => self.instruction += ticks,
            Stage::Address => self.address += ticks,
            Stage::Index => self.index += ticks,
            Stage::Preparing => self.preparing += ticks,
            Stage::Operand => self.operand += ticks,
            Stage::Executing => self.executing += ticks,
        }
    }

    // Adds the charge of a stage after the tick `from`, if the stage ends later.
    fn add_part(&mut self, from: u64, part: StagePart)
        requires within { AreWithin from self.old }
        ensures within { AreWithin (max from part.end) self.new }
        ensures sums { (s : StageOf) → sum_at s self.new ≡ sum_at s self.old
            + ticks_for s (part_charges from part) }
    {
        if part.end <= from {
            return;
        }
        self.add(Charge {
            from,
            to: part.end,
            stage: part.stage,
        });
    }

    // Adds the charges of stages after the tick `from`.
    fn add_parts(&mut self, from: u64, parts: &[StagePart])
        requires within { AreWithin from self.old }
        ensures within { AreWithin (from + all_ticks (charges_behind from parts.now)) self.new }
        ensures sums { (s : StageOf) → sum_at s self.new ≡ sum_at s self.old
            + ticks_for s (charges_behind from parts.now) }
    {
        let Some((&part, more)) = parts.split_first() else {
            return;
        };
        self.add_part(from, part);
        self.add_parts(later(from, part.end), more);
    }

    /// Adds the charges of a completed entry with the given row. `before` is the tick at which the
    /// previous entry completed, and `start` the tick at which the entry's segment starts if the
    /// entry is the first in it. No total may be greater than `before`.
    pub fn add_row(&mut self, row: &EntryTicks, before: u64, start: u64)
        requires within { AreWithin before self.old }
        ensures within { AreWithin (before + all_ticks (charges_behind before
            (parts_of start row.now))) self.new }
        ensures sums { (s : StageOf) → sum_at s self.new
            ≡ sum_at s self.old + ticks_for s (charges_behind before (parts_of start row.now)) }
    {
        self.add_parts(before, &parts(start, row));
    }
}

/// A stage, with its ticks in the whole run.
#[derive(Clone, Copy, Debug, PartialEq, Eq)]
pub struct StageSum {
    /// The stage.
    pub stage: Stage,
    /// Its ticks.
    pub ticks: u64,
}

// The total of a stage as a `StageSum`.
fn made_sum(stage: Stage, ticks: u64) -> StageSum
    ensures { result ≡ record { stage = stage; ticks = ticks } }
{
    StageSum { stage, ticks }
}

// The totals in the order of the stages.
fn sums_of(totals: &Totals) -> [StageSum; 7]
    ensures { result ≡ sums_by (λ s. sum_at s totals.now) stages }
{
    [
        made_sum(Stage::Restart, totals.restart),
        made_sum(Stage::Instruction, totals.instruction),
        made_sum(Stage::Address, totals.address),
        made_sum(Stage::Index, totals.index),
        made_sum(Stage::Preparing, totals.preparing),
        made_sum(Stage::Operand, totals.operand),
        made_sum(Stage::Executing, totals.executing),
    ]
}

// Writes the line of a total.
fn write_sum<K: Sink>(out: &mut K, sum: StageSum) -> Result<(), Failed>
    ensures { WritesLines (K.output out.old) (K.output out.new)
        (sum_line sum.stage sum.ticks ∷ []) result }
{
    let mut line = LineFromEnd::new();
    fill_sum(&mut line, sum.stage, sum.ticks);
    write_line(out, line.as_bytes())
}

// Writes the lines of totals.
fn write_each<K: Sink>(out: &mut K, sums: &[StageSum]) -> Result<(), Failed>
    ensures { WritesLines (K.output out.old) (K.output out.new) (sum_lines sums.now) result }
{
    let Some((&sum, more)) = sums.split_first() else {
        return Ok(());
    };
    write_sum(out, sum)?;
    write_each(out, more)
}

/// Writes the lines `SUM stage n`, in the order of the stages.
pub fn write_sums<K: Sink>(out: &mut K, totals: &Totals) -> Result<(), Failed>
    ensures { WritesLines (K.output out.old) (K.output out.new)
        (sum_lines (sums_by (λ s. sum_at s totals.now) stages)) result }
{
    write_each(out, &sums_of(totals))
}
