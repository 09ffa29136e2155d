//! The lines of the charges and waits of a row, of the sums of waits, and of the cause that delayed
//! the row (`CHARGE`, `WAIT`, `SUM`, `BECAUSE`). docs/ledger.md has the lines. facts.rt writes
//! those of an entry; `st_account` and `st_tally` write the sums, and call `add_waits` for ledgers
//! that have sums and no rows. A charge is followed by its waits, the last wait first.
//!
//! Proved: the lines are those of specs/WaitLines.antt (`charged_lines`, `because_lines`,
//! `wait_sum_lines`), and each total grows by the ticks of its waits (`HasToldWaits` of
//! specs/TellingWaits.antt, `AddsWaits` of specs/Waited.antt).
//!
//! Pinned, by these definitions, docs/ledger.md and vectors/ledger/reasons.txt: the lines and their
//! order, and that a row with no charge but executing has no cause. Free: the recursions and
//! buffers, if proofs/waits follows. A new `Stall` or `Reason` of `st_ledger` needs its text here
//! and in specs/WaitLines.antt.
ghost use Rattle.std.specs.Prelude.{◌≡◌, ◌+◌, ◌≤◌, ◌++◌, length, IsOk};
ghost use Rattle.st_io.specs.Lines.{WritesLines};
ghost use Rattle.st_ledger.specs.Charges.{charges_behind, part_charges, parts_of_row};
ghost use Rattle.st_ledger.specs.Sums.{waited_at, wait_sums_by};
ghost use Rattle.st_lines.specs.EntryLines.{charges_of_entry};
ghost use Rattle.st_lines.specs.Waited.{AreWaitsReady, AddsWaits};
ghost use Rattle.st_lines.specs.TellingWaits.{CanTellWaits, HasToldWaits};
ghost use Rattle.st_lines.specs.WaitLines.{stall_name, wait_line, wait_lines, charged_lines, wait_sum_line, wait_sum_lines, reason_name, because_line, because_lines};

use crate::facts::EntryRecord;
use crate::uses::{FactLine, put_bank};
use st_io::{Failed, Sink, write_line};
use st_ledger::{
    Charge, Reason, RowLine, Stage, StagePart, Stall, StallCause, Wait, WaitSum, WaitTotals, Waits,
    fill_charge, fill_waits, later, parts, put_stage, wait_sums,
};
use st_report::LineFromEnd;
use st_rows::{EntryTicks, Use};

// Puts the name of a kind of wait in front of a line.
fn put_stall(line: &mut LineFromEnd, why: Stall)
    requires { length line.old + 7 ≤ 128 }
    ensures bytes { line.new ≡ stall_name why ++ line.old }
    ensures room { length line.new ≤ length line.old + 7 }
{
    match why {
        Stall::Turn => line.put_word(*b"TURN"),
        Stall::Bank => line.put_word(*b"BANK"),
        Stall::Storage => line.put_word(*b"STORAGE"),
    }
}

// Fills a line with `WAIT f t why WORD w READ v BANK b`. The previous contents are overwritten.
fn fill_wait(line: &mut RowLine, wait: &Wait)
    ensures { line.new.bytes ≡ wait_line wait.now }
{
    line.bytes.clear();
    line.bytes.put_word(*b"\n");
    put_bank(&mut line.bytes, *b" BANK ", wait.read);
    line.bytes.put_decimal(u64::from(wait.read));
    line.bytes.put_word(*b" READ ");
    line.bytes.put_decimal(u64::from(wait.word));
    line.bytes.put_word(*b" WORD ");
    put_stall(&mut line.bytes, wait.why);
    line.bytes.put_word(*b" ");
    line.bytes.put_near(wait.to, &mut line.to);
    line.bytes.put_word(*b" ");
    line.bytes.put_near(wait.from, &mut line.from);
    line.bytes.put_word(*b"WAIT ");
}

// Writes the lines of several waits.
#[tactic(auto, using(st_io::proofs::Progress::wrote_nothing))]
fn write_each_wait<K: Sink>(out: &mut K, line: &mut RowLine, waits: &[Wait]) -> Result<(), Failed>
    ensures { WritesLines (K.output out.old) (K.output out.new) (wait_lines waits.now) result }
{
    let Some((wait, more)) = waits.split_first() else {
        return Ok(());
    };
    fill_wait(line, wait);
    write_line(out, line.bytes.as_bytes())?;
    write_each_wait(out, line, more)
}

/// The buffers for the lines of rows, and the totals of their waits so far.
#[derive(Drop)]
pub struct RowTelling {
    /// The buffer for the waits of one charge at a time.
    pub waits: Waits,
    /// The totals of all waits so far.
    pub totals: WaitTotals,
    /// The buffer for the lines of rows, charges and waits.
    pub line: RowLine,
    /// The buffer for the lines of an entry's facts.
    pub facts: FactLine,
}

// Writes the charge of a stage of an entry after tick `from`, if the stage ends later, and its
// waits, and adds them to the totals.
fn write_part<K: Sink>(
    out: &mut K,
    from: u64,
    part: StagePart,
    entry: &EntryRecord<'_>,
    waiting: &mut RowTelling,
) -> Result<(), Failed>
    requires { AreWaitsReady entry.now.uses.now entry.now.before.now from waiting.old.totals }
    ensures lines { WritesLines (K.output out.old) (K.output out.new)
        (charged_lines entry.now.uses.now entry.now.before.now (part_charges from part)) result }
    ensures waits { IsOk result → AddsWaits entry.now.uses.now entry.now.before.now from
        (part_charges from part) waiting.old.totals waiting.new.totals }
{
    if part.end <= from {
        return Ok(());
    }
    let charge = Charge {
        from,
        to: part.end,
        stage: part.stage,
    };
    fill_waits(&mut waiting.waits, charge, entry.uses, entry.before);
    waiting.totals.add(charge, waiting.waits.as_slice());
    fill_charge(&mut waiting.line, charge);
    write_line(out, waiting.line.bytes.as_bytes())?;
    write_each_wait(out, &mut waiting.line, waiting.waits.as_slice())
}

// Writes the charges of stages of an entry after tick `from`, each followed by its waits, and adds
// the waits to the totals.
fn write_parts<K: Sink>(
    out: &mut K,
    from: u64,
    parts: &[StagePart],
    entry: &EntryRecord<'_>,
    waiting: &mut RowTelling,
) -> Result<(), Failed>
    requires { AreWaitsReady entry.now.uses.now entry.now.before.now from waiting.old.totals }
    ensures lines { WritesLines (K.output out.old) (K.output out.new) (charged_lines
        entry.now.uses.now entry.now.before.now (charges_behind from parts.now)) result }
    ensures waits { IsOk result → AddsWaits entry.now.uses.now entry.now.before.now from
        (charges_behind from parts.now) waiting.old.totals waiting.new.totals }
{
    let Some((&part, more)) = parts.split_first() else {
        return Ok(());
    };
    write_part(out, from, part, entry, waiting)?;
    write_parts(out, later(from, part.end), more, entry, waiting)
}

/// Writes the charges of a completed entry, each followed by its waits, and adds the waits to the
/// totals.
pub(crate) fn write_charged<K: Sink>(
    out: &mut K,
    entry: &EntryRecord<'_>,
    waiting: &mut RowTelling,
) -> Result<(), Failed>
    requires { CanTellWaits entry.now waiting.old.totals }
    ensures lines { WritesLines (K.output out.old) (K.output out.new) (charged_lines
        entry.now.uses.now entry.now.before.now (charges_of_entry entry.now.done.now)) result }
    ensures waits { IsOk result → HasToldWaits entry.now waiting.old.totals waiting.new.totals }
{
    let done = entry.done;
    let stages = parts(done.start, &done.row.ticks);
    write_parts(out, done.before, &stages, entry, waiting)
}

// Adds the waits of the charge of a stage after tick `from` to the totals, if the stage ends later;
// `waits` lends its room.
#[inline(always)]
fn add_part(
    from: u64,
    part: StagePart,
    uses: &[Use],
    before: &[Use],
    waits: &mut Waits,
    totals: &mut WaitTotals,
)
    requires { AreWaitsReady uses.now before.now from totals.old }
    ensures { AddsWaits uses.now before.now from (part_charges from part) totals.old totals.new }
{
    if from >= part.end {
        return;
    }
    let charge = Charge {
        from,
        to: part.end,
        stage: part.stage,
    };
    fill_waits(waits, charge, uses, before);
    totals.add(charge, waits.as_slice());
}

/// Adds the waits of the charges of a row after tick `from` to the totals, and writes nothing: those
/// of the three stages that have waits. The row's segment starts at `start`. Its entry uses the words
/// `uses`, and the entry before it the words `before`; `waits` lends its room.
#[inline(always)]
pub fn add_waits(
    from: u64,
    start: u64,
    row: &EntryTicks,
    uses: &[Use],
    before: &[Use],
    waits: &mut Waits,
    totals: &mut WaitTotals,
)
    requires { AreWaitsReady uses.now before.now from totals.old }
    ensures { AddsWaits uses.now before.now from (charges_behind from (parts_of_row start row.now))
        totals.old totals.new }
{
    let begun = later(from, start);
    let requested = StagePart {
        stage: Stage::Instruction,
        end: row.a.saturating_sub(1),
    };
    add_part(begun, requested, uses, before, waits, totals);
    let formed = later(later(begun, requested.end), row.a);
    let indexed = StagePart {
        stage: Stage::Index,
        end: row.p.saturating_sub(1),
    };
    add_part(formed, indexed, uses, before, waits, totals);
    let prepared = later(later(formed, indexed.end), row.p);
    let read = StagePart {
        stage: Stage::Operand,
        end: row.r,
    };
    add_part(prepared, read, uses, before, waits, totals);
}

// Fills a line with `SUM stage why n`: the ticks of one kind of wait in a stage. The previous
// contents are overwritten.
fn fill_wait_sum(line: &mut LineFromEnd, sum: &WaitSum)
    ensures { line.new ≡ wait_sum_line sum.now }
{
    line.clear();
    line.put_word(*b"\n");
    line.put_decimal(sum.ticks);
    line.put_word(*b" ");
    put_stall(line, sum.why);
    line.put_word(*b" ");
    put_stage(line, sum.stage);
    line.put_word(*b"SUM ");
}

// Writes the lines of totals.
#[tactic(auto, using(st_io::proofs::Progress::wrote_nothing))]
fn write_each_sum<K: Sink>(out: &mut K, sums: &[WaitSum]) -> Result<(), Failed>
    ensures { WritesLines (K.output out.old) (K.output out.new) (wait_sum_lines sums.now) result }
{
    let Some((sum, more)) = sums.split_first() else {
        return Ok(());
    };
    let mut line = LineFromEnd::new();
    fill_wait_sum(&mut line, sum);
    write_line(out, line.as_bytes())?;
    write_each_sum(out, more)
}

/// Writes the lines `SUM stage why n` in their order.
pub fn write_wait_sums<K: Sink>(out: &mut K, totals: &WaitTotals) -> Result<(), Failed>
    ensures { WritesLines (K.output out.old) (K.output out.new)
        (wait_sum_lines (wait_sums_by (λ r s. waited_at r s totals.now))) result }
{
    write_each_sum(out, &wait_sums(totals))
}

// Puts the name of a reason in front of a line.
fn put_reason(line: &mut LineFromEnd, reason: Reason)
    requires { length line.old + 10 ≤ 128 }
    ensures bytes { line.new ≡ reason_name reason ++ line.old }
    ensures room { length line.new ≤ length line.old + 10 }
{
    match reason {
        Reason::Serial => line.put_word(*b"SERIAL"),
        Reason::Store => line.put_word(*b"STORE"),
        Reason::Level => line.put_word(*b"LEVEL"),
        Reason::Forwarding => line.put_word(*b"FORWARDING"),
        Reason::Bus => line.put_word(*b"BUS"),
        Reason::Order => line.put_word(*b"ORDER"),
    }
}

// Fills a line with the cause that delayed the n-th entry: `BECAUSE START ROW - TICK t LATE -`,
// `BECAUSE PREFETCH WORD w LATE l` or `BECAUSE why ROW j TICK t LATE l`. The previous contents are
// overwritten.
fn fill_because(line: &mut LineFromEnd, n: u32, because: &StallCause)
    ensures { line.new ≡ because_line n because.now }
{
    line.clear();
    line.put_word(*b"\n");
    match because {
        StallCause::Start(tick) => {
            line.put_word(*b" LATE -");
            line.put_decimal(*tick);
            line.put_word(*b"BECAUSE START ROW - TICK ");
        }
        StallCause::Prefetch(asked) => {
            line.put_decimal(asked.late);
            line.put_word(*b" LATE ");
            line.put_decimal(u64::from(asked.word));
            line.put_word(*b"BECAUSE PREFETCH WORD ");
        }
        StallCause::Earlier(cause) => {
            line.put_decimal(cause.late);
            line.put_word(*b" LATE ");
            line.put_decimal(cause.tick);
            line.put_word(*b" TICK ");
            line.put_decimal(u64::from(n.saturating_sub(u32::from(cause.back))));
            line.put_word(*b" ROW ");
            put_reason(line, cause.reason);
            line.put_word(*b"BECAUSE ");
        }
    }
}

/// Writes the cause that delayed the n-th entry, if the entry has a charge other than that of
/// executing. The previous entry completed at tick `done`, and the entry's operands were available
/// at tick `r`.
#[inline(always)]
#[tactic(auto, unfolding(crate::specs::WaitLines::because_lines), using(st_io::proofs::Progress::wrote_nothing))]
pub(crate) fn write_because<K: Sink>(
    out: &mut K,
    n: u32,
    done: u64,
    r: u64,
    because: &StallCause,
) -> Result<(), Failed>
    ensures { WritesLines (K.output out.old) (K.output out.new)
        (because_lines n done r because.now) result }
{
    if r <= done {
        return Ok(());
    }
    let mut line = LineFromEnd::new();
    fill_because(&mut line, n, because);
    write_line(out, line.as_bytes())
}
