//! The lines of the tables, one call for each kind of line, with its line end. docs/ledger.md has
//! the lines ("Totals and tables"). Only writing.rt calls these functions; `LineFromEnd` of
//! `st_report` is filled from its end, so the parts are put in reverse.
//!
//! Proved: the bytes are those of specs/TallyLines.antt (`card_line`, `missed_count_line`,
//! `level_count_line`, `drop_count_line`, `heading_name`) and `reason_sum_line` of
//! specs/Slots.antt.
//!
//! Pinned, by these definitions, docs/ledger.md and vectors/ledger/sums.txt: each byte. A new kind
//! of line is a definition, a function here and a call in writing.rt. Free: the buffer and the
//! bodies.
ghost use Rattle.std.specs.Prelude.{◌≡◌, ◌+◌, ◌≤◌, ◌++◌, length};
ghost use Rattle.st_tally.specs.TallyLines.{card_line, heading_name, missed_count_line, level_count_line, drop_count_line};
ghost use Rattle.st_tally.specs.Slots.{reason_sum_line};

use crate::headings::Heading;
use crate::tables::ReasonSum;
use st_report::LineFromEnd;

/// Fills a line with `CARD k ROWS n`: n rows come from card k. The previous contents are
/// overwritten.
pub(crate) fn fill_card(line: &mut LineFromEnd, card: u64, rows: u64)
    ensures { line.new ≡ card_line card rows }
{
    line.clear();
    line.put_word(*b"\n");
    line.put_decimal(rows);
    line.put_word(*b" ROWS ");
    line.put_decimal(card);
    line.put_word(*b"CARD ");
}

// Puts the name of a heading in front of a line.
fn put_heading(line: &mut LineFromEnd, heading: Heading)
    requires { length line.old + 10 ≤ 128 }
    ensures bytes { line.new ≡ heading_name heading ++ line.old }
    ensures room { length line.new ≤ length line.old + 10 }
{
    match heading {
        Heading::Run => line.put_word(*b"RUN"),
        Heading::Interrupt => line.put_word(*b"INTERRUPT"),
        Heading::Missed => line.put_word(*b"MISSED"),
        Heading::Card => line.put_word(*b"CARD"),
        Heading::Serial => line.put_word(*b"SERIAL"),
        Heading::Store => line.put_word(*b"STORE"),
        Heading::Level => line.put_word(*b"LEVEL"),
        Heading::Forwarding => line.put_word(*b"FORWARDING"),
        Heading::Bus => line.put_word(*b"BUS"),
        Heading::Prefetch => line.put_word(*b"PREFETCH"),
        Heading::Order => line.put_word(*b"ORDER"),
    }
}

/// Fills a line with `REASON why ROWS n TICKS t LATE l`: the rows of a heading, the ticks that they
/// lost, and the ticks by which they were later for their reason. The previous contents are
/// overwritten.
pub(crate) fn fill_reason(line: &mut LineFromEnd, heading: Heading, sum: &ReasonSum)
    ensures { line.new ≡ reason_sum_line heading sum.now }
{
    line.clear();
    line.put_word(*b"\n");
    line.put_decimal(sum.late);
    line.put_word(*b" LATE ");
    line.put_decimal(sum.ticks);
    line.put_word(*b" TICKS ");
    line.put_decimal(sum.rows);
    line.put_word(*b" ROWS ");
    put_heading(line, heading);
    line.put_word(*b"REASON ");
}

/// Fills a line with `COUNT MISSED n`: n branches were mispredicted. The previous contents are
/// overwritten.
pub(crate) fn fill_missed(line: &mut LineFromEnd, n: u64)
    ensures { line.new ≡ missed_count_line n }
{
    line.clear();
    line.put_word(*b"\n");
    line.put_decimal(n);
    line.put_word(*b"COUNT MISSED ");
}

/// Fills a line with `COUNT LEVEL ROWS n TICKS t`: n rows waited for a level, for t ticks together.
/// The previous contents are overwritten.
pub(crate) fn fill_level(line: &mut LineFromEnd, rows: u64, ticks: u64)
    ensures { line.new ≡ level_count_line rows ticks }
{
    line.clear();
    line.put_word(*b"\n");
    line.put_decimal(ticks);
    line.put_word(*b" TICKS ");
    line.put_decimal(rows);
    line.put_word(*b"COUNT LEVEL ROWS ");
}

/// Fills a line with `COUNT DROP n`: n entries were dropped. The previous contents are overwritten.
pub(crate) fn fill_dropped(line: &mut LineFromEnd, n: u64)
    ensures { line.new ≡ drop_count_line n }
{
    line.clear();
    line.put_word(*b"\n");
    line.put_decimal(n);
    line.put_word(*b"COUNT DROP ");
}
