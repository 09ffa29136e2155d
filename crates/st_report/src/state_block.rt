//! The lines of the state block, which a report has at the end of a run and at requested moments:
//! program counter, interrupts, registers and dumped storage. Words are shown as 16 hexadecimal
//! digits. `st_telling` (block.rt) writes them; `st_lines` writes `EN` in the ledger.
//! docs/report.md ("The state block") has the rules.
//!
//! Proved: each call returns exactly the bytes that specs/Line.antt defines (`ic_line`, `en_line`,
//! `reg_line`, `dump_line`, `mem_line`), with the line end. Which lines a block has, and in what
//! order, is proved in `st_telling`, not here.
//!
//! Pinned, by these definitions, docs/report.md, vectors/timetable.txt and vectors/back.txt: the
//! texts. Free: the bodies.

ghost use Rattle.std.specs.Prelude.{◌≡◌};
ghost use Rattle.st_report.specs.Line.{ic_line, en_line, reg_line, dump_line, mem_line};

use crate::Line;
use st_text::{close_line, open_line, push_flag, push_half_address, push_hex, push_short_decimal};

/// `IC a`: the program counter, a half-word address, as word.bit.
pub fn line_ic(ic: u32) -> Line
    ensures { result.bytes ≡ ic_line ic }
{
    let mut line = open_line("IC ");
    push_half_address(&mut line, ic);
    close_line(line)
}

/// `EN 1` if interrupts are enabled, otherwise `EN 0`.
pub fn line_en(enabled: bool) -> Line
    ensures { result.bytes ≡ en_line enabled }
{
    let mut line = open_line("EN ");
    push_flag(&mut line, enabled);
    close_line(line)
}

/// `REG nn hhhhhhhhhhhhhhhh`: a register, with its word address below 32, and its contents.
pub fn line_reg(w: u8, word: u64) -> Line
    ensures { result.bytes ≡ reg_line w word }
{
    let mut line = open_line("REG ");
    push_short_decimal(&mut line, u32::from(w / 10));
    push_short_decimal(&mut line, u32::from(w % 10));
    line.push_str(" ");
    push_hex(&mut line, 16, word);
    close_line(line)
}

/// `DUMP from to`: the first and the last word address of a dump.
pub fn line_dump(from: u32, to: u32) -> Line
    ensures { result.bytes ≡ dump_line from to }
{
    let mut line = open_line("DUMP ");
    push_short_decimal(&mut line, from);
    line.push_str(" ");
    push_short_decimal(&mut line, to);
    close_line(line)
}

/// `MEM w hhhhhhhhhhhhhhhh`: a word address and the contents of the word.
pub fn line_mem(w: u32, word: u64) -> Line
    ensures { result.bytes ≡ mem_line w word }
{
    let mut line = open_line("MEM ");
    push_short_decimal(&mut line, w);
    line.push_str(" ");
    push_hex(&mut line, 16, word);
    close_line(line)
}
