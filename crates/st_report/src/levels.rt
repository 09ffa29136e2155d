//! The lines of the chart (`ROW`, `DROP`) and of a snapshot (`SNAP`, `LEV`), all about the
//! overlapped machine. Addresses are half-word addresses, times are ticks, a clock cycle each.
//! `st_time` takes the numbers from the machine and calls this module; no crate of the machine is
//! used here. docs/report.md has the rules.
//!
//! Proved: each call returns or fills in exactly the bytes that specs/Line.antt defines
//! (`row_line`, `drop_line`, `snap_line`, `lev_line`). `fill_row` is the fast form of `line_row`.
//! Not proved: its speed, and that report.rt of `st_entries`, which parses `ROW`, `DROP` and
//! `SNAP`, reads what is written here.
//!
//! Pinned, by these definitions, docs/report.md, vectors/timetable.txt and report.rt of
//! `st_entries`: the texts. Free: the bodies, if proofs/levels follows that of `fill_row`.

ghost use Rattle.std.specs.Prelude.{◌≡◌, ◌+◌, ◌≤◌, ◌++◌};
ghost use Rattle.arrayvec.specs.ArrayString.{array_string_len};
ghost use Rattle.st_report.specs.Line.{row_line, drop_line, snap_line, change_text, lev_line};

use crate::{EntryLine, Line};
use st_text::{
    close_line, open_line, push_decimal, push_flag, push_half_address, push_hex, push_short_decimal,
};

/// A row of the timetable: a completed instruction.
#[derive(Clone, Copy)]
pub struct EntryRow {
    /// The count of completed instructions, including this one.
    pub number: u64,
    /// The half-word address.
    pub address: u32,
    /// The tick at which the instruction was prepared.
    pub p: u64,
    /// The tick by which the operand words that it reads had arrived.
    pub r: u64,
    /// The tick at which the instruction completed.
    pub c: u64,
}

/// `ROW n a P p R r C c`: the n-th completed instruction, its half-word address, and the ticks at
/// which it was prepared, its operand words had arrived, and it completed.
pub fn line_row(row: &EntryRow) -> Line
    ensures { result.bytes ≡ row_line row.now.number row.now.address row.now.p row.now.r row.now.c }
{
    let mut line = open_line("ROW ");
    push_decimal(&mut line, row.number);
    line.push_str(" ");
    push_half_address(&mut line, row.address);
    line.push_str(" P ");
    push_decimal(&mut line, row.p);
    line.push_str(" R ");
    push_decimal(&mut line, row.r);
    line.push_str(" C ");
    push_decimal(&mut line, row.c);
    close_line(line)
}

/// As `line_row`, written to a line that is already there; its previous bytes are removed.
pub fn fill_row(line: &mut EntryLine, row: &EntryRow)
    ensures { line.new.bytes
        ≡ row_line row.now.number row.now.address row.now.p row.now.r row.now.c }
{
    line.bytes.clear();
    line.bytes.put_word(*b"\n");
    line.bytes.put_near(row.c, &mut line.c);
    line.bytes.put_word(*b" C ");
    line.bytes.put_near(row.r, &mut line.r);
    line.bytes.put_word(*b" R ");
    line.bytes.put_near(row.p, &mut line.p);
    line.bytes.put_word(*b" P ");
    line.bytes.put_half_address(row.address);
    line.bytes.put_word(*b" ");
    line.bytes.put_near(row.number, &mut line.number);
    line.bytes.put_word(*b"ROW ");
}

/// `DROP a P p`: a flushed entry, its half-word address, and the tick at which it was prepared.
pub fn line_drop(address: u32, p: u64) -> Line
    ensures { result.bytes ≡ drop_line address p }
{
    let mut line = open_line("DROP ");
    push_half_address(&mut line, address);
    line.push_str(" P ");
    push_decimal(&mut line, p);
    close_line(line)
}

/// `SNAP t DONE q AHEAD k`: at tick t, q instructions have completed and k entries are in flight.
pub fn line_snap(t: u64, q: u64, k: u8) -> Line
    ensures { result.bytes ≡ snap_line t q k }
{
    let mut line = open_line("SNAP ");
    push_decimal(&mut line, t);
    line.push_str(" DONE ");
    push_decimal(&mut line, q);
    line.push_str(" AHEAD ");
    push_short_decimal(&mut line, u32::from(k));
    close_line(line)
}

// Appends the number and the previous contents of the index word that was changed speculatively, or
// a dash if there is none.
fn push_change(line: &mut Line, index: Option<(u8, u64)>)
    requires { array_string_len line.old + 31 ≤ 128 }
    ensures bytes { line.new.bytes ≡ line.old.bytes ++ change_text index }
    ensures room { array_string_len line.new ≤ array_string_len line.old + 31 }
{
    match index {
        None => line.push_str("-"),
        Some((number, old)) => {
            push_short_decimal(line, u32::from(number));
            line.push_str(" OLD ");
            push_hex(line, 16, old);
        }
    }
}

/// `LEV a X x OLD hhhhhhhhhhhhhhhh READY r`, or `LEV a X - READY r`: an entry in flight. The
/// address is a half-word address; the index is the number, below 16, of the index word that the
/// entry changed speculatively, and the word before that change. `ready` is true if all operand
/// words that it reads have arrived.
pub fn line_lev(address: u32, index: Option<(u8, u64)>, ready: bool) -> Line
    ensures { result.bytes ≡ lev_line address index ready }
{
    let mut line = open_line("LEV ");
    push_half_address(&mut line, address);
    line.push_str(" X ");
    push_change(&mut line, index);
    line.push_str(" READY ");
    push_flag(&mut line, ready);
    close_line(line)
}
