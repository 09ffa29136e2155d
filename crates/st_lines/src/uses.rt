//! The lines of the words that an entry (instruction) uses (`USE`): the role of each word, its
//! source, and, if it is read, its ticks, its bank, and whether the read is made before the segment
//! ends. docs/ledger.md has the lines ("Uses"). facts.rt calls `write_uses`; `st_account` keeps a
//! `FactLine`. Word addresses and ticks are decimal; successive reads share digits (`KeptDigits`).
//! A read that is wanted only after the end of the segment has no line (`is_told`).
//!
//! Proved: the lines are `use_lines` of specs/UseLines.antt, in the order of the reads.
//!
//! Pinned, by `use_lines`, docs/ledger.md and vectors/ledger/lines.txt: the lines and their order.
//! A new source of words needs its text here and in specs/UseLines.antt. Free: how digits are kept,
//! if proofs/uses follows.
ghost use Rattle.std.specs.Prelude.{◌≡◌, ◌+◌, ◌-◌, ◌≤◌, ◌∷◌, ◌++◌, [], length, codes, decimal, if◌then◌else◌};
ghost use Rattle.st_banks.specs.Bank.{bank_of as bank_by};
ghost use Rattle.st_io.specs.Lines.{WritesLines};
ghost use Rattle.st_text.specs.Numerals.{flag};
ghost use Rattle.st_lines.specs.UseLines.{role_text, is_before as is_before_of, ticks_text, supply_text, use_line, is_told as is_told_of, use_lines};

use st_banks::bank_of;
use st_io::{Failed, Sink, write_line};
use st_report::{KeptDigits, LineFromEnd};
use st_rows::{ReadTicks, Role, Supply, Use, Writer};

// Whether a tick is before the end of a segment; true if the segment continues.
fn is_before(end: Option<u64>, tick: u64) -> bool
    ensures { result ≡ is_before_of end tick }
{
    match end {
        None => true,
        Some(end) => tick < end,
    }
}

// Puts the first word of a `USE` line and the role of a used word in front of a line.
fn put_role(line: &mut LineFromEnd, role: Role)
    requires { length line.old + 16 ≤ 192 }
    ensures { line.new ≡ (codes "USE " ++ role_text role ++ codes " ") ++ line.old }
{
    match role {
        Role::Instruction => line.put_word(*b"USE INSTRUCTION "),
        Role::Index => line.put_word(*b"USE INDEX "),
        Role::Operand => line.put_word(*b"USE OPERAND "),
        Role::Following => line.put_word(*b"USE FOLLOWING "),
    }
}

/// Puts the bank of a word in front of a line, preceded by the given text.
pub(crate) fn put_bank<const K: usize>(line: &mut LineFromEnd, piece: [u8; K], w: u32)
    requires { length line.old + K + 1 ≤ 192 }
    ensures bytes { line.new ≡ (piece.entry ++ decimal (bank_by w)) ++ line.old }
    ensures room { length line.new ≡ length line.old + K + 1 }
{
    line.put_word([b'0' + bank_of(w) as u8]);
    line.put_word(piece);
}

// Puts whether a read is made in front of a line.
fn put_made(line: &mut LineFromEnd, made: bool)
    requires { length line.old + 7 ≤ 192 }
    ensures bytes { line.new ≡ (codes " MADE " ++ flag made) ++ line.old }
    ensures room { length line.new ≡ length line.old + 7 }
{
    if made {
        line.put_word(*b" MADE 1");
    } else {
        line.put_word(*b" MADE 0");
    }
}

// Puts a tick in front of a line, and keeps its digits for the next ticks.
#[inline(always)]
fn put_tick(line: &mut LineFromEnd, kept: &mut KeptDigits, tick: u64)
    requires { length line.old + 20 ≤ 192 }
    ensures bytes { line.new ≡ decimal tick ++ line.old }
    ensures room { length line.new ≤ length line.old + 20 }
{
    if kept.past(tick) >= 100 {
        kept.keep(tick);
    }
    line.put_near(tick, kept);
}

// Puts the read of word w in front of a line; its ticks may have digits in common with earlier
// ones.
fn put_read(
    line: &mut LineFromEnd,
    kept: &mut KeptDigits,
    end: Option<u64>,
    w: u32,
    ticks: &ReadTicks,
)
    requires { length line.old + 153 ≤ 192 }
    ensures bytes { line.new ≡ ticks_text end w ticks.now ++ line.old }
    ensures room { length line.new ≤ length line.old + 153 }
{
    put_made(line, is_before(end, ticks.accept));
    put_tick(line, kept, ticks.answer);
    line.put_word(*b" ANSWER ");
    put_tick(line, kept, ticks.accept);
    line.put_word(*b" ACCEPT ");
    put_tick(line, kept, ticks.free);
    line.put_word(*b" FREE ");
    put_tick(line, kept, ticks.turn);
    line.put_word(*b" TURN ");
    put_tick(line, kept, ticks.want);
    line.put_word(*b" WANT ");
    put_bank(line, *b" READ BANK ", w);
}

// Puts the writer of a word that the n-th entry uses in front of a line.
fn put_writer(line: &mut LineFromEnd, n: u32, writer: Writer)
    requires { length line.old + 61 ≤ 192 }
    ensures bytes { line.new ≡ (codes " FORWARDED ROW " ++ decimal (n - writer.back)
        ++ codes " DONE " ++ decimal writer.done) ++ line.old }
    ensures room { length line.new ≤ length line.old + 61 }
{
    line.put_decimal(writer.done);
    line.put_word(*b" DONE ");
    line.put_decimal(u64::from(n.saturating_sub(u32::from(writer.back))));
    line.put_word(*b" FORWARDED ROW ");
}

/// A buffer for the lines of an entry's facts, with the digits that the ticks of successive reads
/// have in common.
#[derive(Debug, Drop)]
pub struct FactLine {
    /// The bytes of the line.
    pub(crate) bytes: LineFromEnd,
    /// The digits of the last tick.
    pub(crate) ticks: KeptDigits,
}

impl FactLine {
    /// An empty buffer.
    pub fn new() -> FactLine
        ensures { result.bytes ≡ [] }
    {
        FactLine {
            bytes: LineFromEnd::new(),
            ticks: KeptDigits::new(),
        }
    }
}

// Puts the source of a word that the n-th entry uses in front of a line.
fn put_supply(line: &mut FactLine, n: u32, end: Option<u64>, used: &Use)
    requires { length line.old.bytes + 153 ≤ 192 }
    ensures bytes { line.new.bytes
        ≡ supply_text n end used.now.word used.now.supply ++ line.old.bytes }
    ensures room { length line.new.bytes ≤ length line.old.bytes + 153 }
{
    match &used.supply {
        Supply::Read(ticks) => put_read(&mut line.bytes, &mut line.ticks, end, used.word, ticks),
        Supply::Held(answer) => {
            put_tick(&mut line.bytes, &mut line.ticks, *answer);
            line.bytes.put_word(*b" HELD ANSWER ");
        }
        Supply::Forwarded(writer) => put_writer(&mut line.bytes, n, *writer),
        Supply::Register => line.bytes.put_word(*b" REGISTER"),
    }
}

// Fills a line with a word that the n-th entry uses. The previous contents are overwritten.
fn fill_use(line: &mut FactLine, n: u32, end: Option<u64>, used: &Use)
    ensures { line.new.bytes ≡ use_line n end used.now }
{
    line.bytes.clear();
    line.bytes.put_word(*b"\n");
    put_supply(line, n, end, used);
    line.bytes.put_decimal(u64::from(used.word));
    put_role(&mut line.bytes, used.role);
}

// Whether a word has a line, given its source.
fn is_told(end: Option<u64>, supply: &Supply) -> bool
    ensures { result ≡ is_told_of end supply.now }
{
    match supply {
        Supply::Read(ticks) => is_before(end, ticks.want),
        Supply::Held(_) | Supply::Forwarded(_) | Supply::Register => true,
    }
}

// Writes the line of a word, if it has one.
#[tactic(auto, using(st_io::proofs::Progress::wrote_nothing))]
fn write_use<K: Sink>(
    out: &mut K,
    line: &mut FactLine,
    n: u32,
    end: Option<u64>,
    used: &Use,
) -> Result<(), Failed>
    ensures { WritesLines (K.output out.old) (K.output out.new)
        (if is_told_of end used.now.supply then use_line n end used.now ∷ [] else []) result }
{
    if !is_told(end, &used.supply) {
        return Ok(());
    }
    fill_use(line, n, end, used);
    write_line(out, line.bytes.as_bytes())
}

/// Writes the words that the n-th entry uses. Its segment ends at the tick `end`, or continues if
/// that is `None`.
#[inline(always)]
pub(crate) fn write_uses<K: Sink>(
    out: &mut K,
    line: &mut FactLine,
    n: u32,
    end: Option<u64>,
    uses: &[Use],
) -> Result<(), Failed>
    ensures { WritesLines (K.output out.old) (K.output out.new) (use_lines n end uses.now) result }
{
    for used in uses {
        write_use(out, line, n, end, used)?;
    }
    Ok(())
}
