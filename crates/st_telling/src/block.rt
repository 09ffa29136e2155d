//! The lines of the state block: program counter, interrupt flag, the registers from 2 to 31 that
//! are not zero, and the requested dumps. docs/report.md has the block. telling.rt writes it at
//! interrupts, snapshots, the end, and for `/BACK`. A dump is a pair of word addresses, first and
//! last, in order and below 98,304 (`is_part`). Each line is one write.
//!
//! Proved: the lines are `block` of specs/Report.antt, all of them on Ok; if a write fails, only
//! lines before it (`WritesLines` of `st_io`).
//!
//! Pinned, by `block` and docs/report.md: the order of the lines, and that words which are zero
//! have none; `write_block`, by telling.rt. Free: the private functions and their loops.
ghost use Rattle.std.specs.Prelude.{◌+◌, ◌-◌, ◌<◌, ◌≤◌};
ghost use Rattle.std.specs.List.{AllPass};
ghost use Rattle.st_bits.specs.declared.limits.TheConstants.{WORDS};
ghost use Rattle.st_bits.specs.declared.register.TheConstants.{FIRST_STORAGE_WORD};
ghost use Rattle.st_card.specs.Limits.{is_part};
ghost use Rattle.st_io.specs.Lines.{WritesLines, lines_for};
ghost use Rattle.st_telling.specs.Report.{block, register_lines, memory_lines, dump_lines, dumps_lines};

use st_io::{Failed, Sink};
use st_report::{line_dump, line_en, line_ic, line_mem, line_reg, put};
use st_run::StateView;

// Writes the line of register `w` if it is not zero.
#[tactic(auto, using(st_io::proofs::Progress::wrote_nothing, st_bits::specs::Storage::words_of_storage_is))]
fn write_register<K: Sink>(out: &mut K, seen: &StateView<'_>, w: u8) -> Result<(), Failed>
    requires { w < FIRST_STORAGE_WORD }
    ensures { WritesLines (K.output out.old) (K.output out.new)
        (register_lines seen.now w) result }
{
    let word = seen.word(u32::from(w));
    if word == 0 {
        return Ok(());
    }
    put(out, &line_reg(w, word))
}

// Writes the lines of the nonzero registers among the 30 from 2 to 31.
fn write_registers<K: Sink>(out: &mut K, seen: &StateView<'_>) -> Result<(), Failed>
    ensures { WritesLines (K.output out.old) (K.output out.new)
        (lines_for (register_lines seen.now) 30 2) result }
{
    for w in 2..32 {
        write_register(out, seen, w)?;
    }
    Ok(())
}

// Writes the line of the word at `w` if it is not zero.
#[tactic(auto, using(st_io::proofs::Progress::wrote_nothing, st_bits::specs::Storage::words_of_storage_is))]
fn write_memory<K: Sink>(out: &mut K, seen: &StateView<'_>, w: u32) -> Result<(), Failed>
    requires { w < WORDS }
    ensures { WritesLines (K.output out.old) (K.output out.new) (memory_lines seen.now w) result }
{
    let content = seen.word(w);
    if content == 0 {
        return Ok(());
    }
    put(out, &line_mem(w, content))
}

// Writes the lines of the nonzero words from `first` to `last`.
fn write_words<K: Sink>(
    out: &mut K,
    seen: &StateView<'_>,
    first: u32,
    last: u32,
) -> Result<(), Failed>
    requires order { first ≤ last }
    requires within { last < WORDS }
    ensures { WritesLines (K.output out.old) (K.output out.new)
        (lines_for (memory_lines seen.now) (last + 1 - first) first) result }
{
    for w in first..last + 1 {
        write_memory(out, seen, w)?;
    }
    Ok(())
}

// Writes a dump: its range, and the nonzero words from `first` to `last`.
fn write_dump<K: Sink>(
    out: &mut K,
    seen: &StateView<'_>,
    first: u32,
    last: u32,
) -> Result<(), Failed>
    requires order { first ≤ last }
    requires within { last < WORDS }
    ensures { WritesLines (K.output out.old) (K.output out.new)
        (dump_lines seen.now first last) result }
{
    put(out, &line_dump(first, last))?;
    write_words(out, seen, first, last)
}

// Writes dumps, in order.
fn write_dumps<K: Sink>(
    out: &mut K,
    seen: &StateView<'_>,
    dumps: &[(u32, u32)],
) -> Result<(), Failed>
    requires { AllPass is_part dumps.now }
    ensures { WritesLines (K.output out.old) (K.output out.new)
        (dumps_lines seen.now dumps.now) result }
{
    for (first, last) in dumps {
        write_dump(out, seen, *first, *last)?;
    }
    Ok(())
}

/// Writes the state block of the state that is shown, with the requested dumps.
pub fn write_block<K: Sink>(
    out: &mut K,
    seen: &StateView<'_>,
    dumps: &[(u32, u32)],
) -> Result<(), Failed>
    requires { AllPass is_part dumps.now }
    ensures { WritesLines (K.output out.old) (K.output out.new) (block dumps.now seen.now) result }
{
    put(out, &line_ic(seen.ic()))?;
    put(out, &line_en(seen.enabled()))?;
    write_registers(out, seen)?;
    write_dumps(out, seen, dumps)
}
