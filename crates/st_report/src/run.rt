//! The lines about the run: trace, prints, interrupts, their ticks, the end and the counts.
//! `st_telling` writes most of them, `st_lines` some in the ledger, `st_top` the `BACK` line.
//! Counts are of completed instructions, ticks are clock cycles. docs/report.md has the rules.
//!
//! Proved: each call returns or fills in exactly the bytes that specs/Line.antt defines
//! (`trc_line`, `int_line` and so on), with the line end. `fill_trc` is the fast form of
//! `line_trc`, which no program calls. Not proved: its speed, and that report.rt of `st_entries`,
//! which parses `INT`, reads what is written here.
//!
//! Pinned, by these definitions, docs/report.md, vectors/interrupts.txt, vectors/orders.txt,
//! vectors/timetable.txt and vectors/back.txt, and by report.rt of `st_entries`: the texts. Free:
//! the bodies, if proofs/run follows those of `fill_trc` and `fill_trc_anew`.

ghost use Rattle.std.specs.Prelude.{◌≡◌};
ghost use Rattle.st_report.specs.Line.{trc_line, prt_line, int_line, time_line, end_line, done_line, ticks_line, back_line};

use crate::{EntryLine, Line};
use arrayvec::ArrayString;
use st_text::{close_line, open_line, push_decimal, push_half_address, push_short_decimal};

/// `TRC n a`: the n-th instruction completed. The address is a half-word address.
pub fn line_trc(n: u64, address: u32) -> Line
    ensures { result.bytes ≡ trc_line n address }
{
    let mut line = open_line("TRC ");
    push_decimal(&mut line, n);
    line.push_str(" ");
    push_half_address(&mut line, address);
    close_line(line)
}

/// As `line_trc`, written to a line that is already there; its previous bytes are removed.
pub fn fill_trc(line: &mut EntryLine, n: u64, address: u32)
    ensures { line.new.bytes ≡ trc_line n address }
{
    let past = line.number.past(n);
    if past >= 100 {
        fill_trc_anew(line, n, address);
        return;
    }
    line.bytes.clear();
    line.bytes.put_word(*b"\n");
    line.bytes.put_half_address(address);
    line.bytes.put_word(*b" ");
    line.bytes.put_kept(n, past, &line.number);
    line.bytes.put_word(*b"TRC ");
}

// As `fill_trc`, for a number whose leading digits have changed. It is a separate function, so that
// the common path makes no call.
#[inline(never)]
fn fill_trc_anew(line: &mut EntryLine, n: u64, address: u32)
    ensures { line.new.bytes ≡ trc_line n address }
{
    line.number.keep(n);
    line.bytes.clear();
    line.bytes.put_word(*b"\n");
    line.bytes.put_half_address(address);
    line.bytes.put_word(*b" ");
    line.bytes.put_decimal(n);
    line.bytes.put_word(*b"TRC ");
}

/// `PRT text`: a print. The text may be empty.
pub fn line_prt(text: &ArrayString<64>) -> Line
    ensures { result.bytes ≡ prt_line text.now.bytes }
{
    let mut line = open_line("PRT ");
    line.push_str(text.as_str());
    close_line(line)
}

/// `INT i AFTER n`: the interrupt by indicator i, below 64, after n completed instructions.
pub fn line_int(i: u8, n: u64) -> Line
    ensures { result.bytes ≡ int_line i n }
{
    let mut line = open_line("INT ");
    push_short_decimal(&mut line, u32::from(i));
    line.push_str(" AFTER ");
    push_decimal(&mut line, n);
    close_line(line)
}

/// `TIME t`: the tick at which an interrupt is taken.
pub fn line_time(t: u64) -> Line
    ensures { result.bytes ≡ time_line t }
{
    let mut line = open_line("TIME ");
    push_decimal(&mut line, t);
    close_line(line)
}

/// `END WAIT` if the machine waits and no external event is left, otherwise `END BUDGET`.
pub fn line_end(waits: bool) -> Line
    ensures { result.bytes ≡ end_line waits }
{
    close_line(open_line(if waits { "END WAIT" } else { "END BUDGET" }))
}

/// `DONE m`: the count of completed instructions at the end.
pub fn line_done(m: u64) -> Line
    ensures { result.bytes ≡ done_line m }
{
    let mut line = open_line("DONE ");
    push_decimal(&mut line, m);
    close_line(line)
}

/// `TICKS t`: the tick of the last completion.
pub fn line_ticks(t: u64) -> Line
    ensures { result.bytes ≡ ticks_line t }
{
    let mut line = open_line("TICKS ");
    push_decimal(&mut line, t);
    close_line(line)
}

/// `BACK j`: the number of instructions between the state block that follows and the end.
pub fn line_back(j: u8) -> Line
    ensures { result.bytes ≡ back_line j }
{
    let mut line = open_line("BACK ");
    push_short_decimal(&mut line, u32::from(j));
    close_line(line)
}
