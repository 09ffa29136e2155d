//! The lines of the ledger about rows, charges and sums: one call for each kind of line, with its
//! line end. docs/ledger.md has the lines. telling.rt, totals.rt and waits.rt of `st_lines` write
//! them; `st_account` keeps a `RowLine`. Lines are built from their end in one buffer, since rows
//! are many and successive numbers share digits (`KeptDigits`).
//!
//! Proved: the bytes are those of specs/Lines.antt (`row_stage_line`, `charge_line`, `sum_line`,
//! `stage_name`). Not proved: speed.
//!
//! Pinned, by these definitions, docs/ledger.md and vectors/ledger/lines.txt: each byte; ticks and
//! numbers are decimal, addresses half-word addresses in the form `word.bit`. Free: how digits are
//! kept, and the bodies, if proofs/lines follows `fill_row`, `fill_charge` and `fill_sum`.
ghost use Rattle.std.specs.Prelude.{◌≡◌, ◌+◌, ◌≤◌, ◌++◌, [], length};
ghost use Rattle.st_ledger.specs.Lines.{stage_name, row_stage_line, charge_line, sum_line};

use crate::charges::{Charge, Stage};
use st_report::{KeptDigits, LineFromEnd};
use st_rows::EntryTicks;

/// Puts the name of a stage in front of a line. The longest name has 11 letters, for which there
/// has to be room.
pub fn put_stage(line: &mut LineFromEnd, stage: Stage)
    requires { length line.old + 11 ≤ 128 }
    ensures bytes { line.new ≡ stage_name stage ++ line.old }
    ensures room { length line.new ≤ length line.old + 11 }
{
    match stage {
        Stage::Restart => line.put_word(*b"RESTART"),
        Stage::Instruction => line.put_word(*b"INSTRUCTION"),
        Stage::Address => line.put_word(*b"ADDRESS"),
        Stage::Index => line.put_word(*b"INDEX"),
        Stage::Preparing => line.put_word(*b"PREPARING"),
        Stage::Operand => line.put_word(*b"OPERAND"),
        Stage::Executing => line.put_word(*b"EXECUTING"),
    }
}

/// A buffer for the lines of rows, with the digits of numbers that successive lines have in common.
#[derive(Debug, Drop)]
pub struct RowLine {
    /// The bytes of the line.
    pub bytes: LineFromEnd,
    number: KeptDigits,
    a: KeptDigits,
    p: KeptDigits,
    r: KeptDigits,
    c: KeptDigits,
    /// The digits of the tick after which the charge or wait of the last line begins.
    pub from: KeptDigits,
    /// The digits of the tick with which the charge or wait of the last line ends.
    pub to: KeptDigits,
}

impl RowLine {
    /// An empty buffer.
    pub fn new() -> RowLine
        ensures { result.bytes ≡ [] }
    {
        RowLine {
            bytes: LineFromEnd::new(),
            number: KeptDigits::new(),
            a: KeptDigits::new(),
            p: KeptDigits::new(),
            r: KeptDigits::new(),
            c: KeptDigits::new(),
            from: KeptDigits::new(),
            to: KeptDigits::new(),
        }
    }
}

/// Fills a buffer with `ROW n a A x P p R r C c`: the n-th completed entry, its half-word address,
/// and its ticks. The previous contents are overwritten.
pub(crate) fn fill_row(line: &mut RowLine, n: u32, address: u32, row: &EntryTicks)
    ensures { line.new.bytes ≡ row_stage_line n address row.now }
{
    line.bytes.clear();
    line.bytes.put_word(*b"\n");
    line.bytes.put_near(row.c, &mut line.c);
    line.bytes.put_word(*b" C ");
    line.bytes.put_near(row.r, &mut line.r);
    line.bytes.put_word(*b" R ");
    line.bytes.put_near(row.p, &mut line.p);
    line.bytes.put_word(*b" P ");
    line.bytes.put_near(row.a, &mut line.a);
    line.bytes.put_word(*b" A ");
    line.bytes.put_half_address(address);
    line.bytes.put_word(*b" ");
    line.bytes.put_near(u64::from(n), &mut line.number);
    line.bytes.put_word(*b"ROW ");
}

/// Fills a buffer with `CHARGE f t stage`: ticks that are charged to a stage. The previous contents
/// are overwritten.
pub fn fill_charge(line: &mut RowLine, charge: Charge)
    ensures { line.new.bytes ≡ charge_line charge }
{
    line.bytes.clear();
    line.bytes.put_word(*b"\n");
    put_stage(&mut line.bytes, charge.stage);
    line.bytes.put_word(*b" ");
    line.bytes.put_near(charge.to, &mut line.to);
    line.bytes.put_word(*b" ");
    line.bytes.put_near(charge.from, &mut line.from);
    line.bytes.put_word(*b"CHARGE ");
}

/// Fills a line with `SUM stage n`: the ticks of a stage in the whole run. The previous contents
/// are overwritten.
pub(crate) fn fill_sum(line: &mut LineFromEnd, stage: Stage, ticks: u64)
    ensures { line.new ≡ sum_line stage ticks }
{
    line.clear();
    line.put_word(*b"\n");
    line.put_decimal(ticks);
    line.put_word(*b" ");
    put_stage(line, stage);
    line.put_word(*b"SUM ");
}
