//! Writes the lines of the tables: those of the cards that have rows, those of all headings, and
//! the counts. docs/ledger.md has their order ("Totals and tables"). `st_account` (running.rt)
//! calls `write` at the end of a run; lines.rt forms the lines.
//!
//! Proved: if the tables are those of some rows (`IsTally` in specs/Tally.antt), the lines are
//! `table_lines` of specs/TallyLines.antt, all of them on Ok, the first ones after a failed write
//! (`WritesLines` of `st_io`). Not proved here: the number of dropped entries, which the caller
//! passes.
//!
//! Pinned, by `table_lines`, docs/ledger.md and vectors/ledger/sums.txt: the order of lines.
//! Pinned, by `st_ledger` and `st_lines`: the fifteen lines `SUM` after a card. Free: the split
//! into functions, if proofs/writing follows.
ghost use Rattle.std.specs.Prelude.{◌≡◌, ◌+◌, ◌∷◌, [], List, length};
ghost use Rattle.st_io.specs.Lines.{WritesLines, lines_for};
ghost use Rattle.st_tally.specs.Headings.{headings};
ghost use Rattle.st_tally.specs.Slots.{slot_lines, reason_sum_line};
ghost use Rattle.st_tally.specs.Tally.{TalliedRow, card_sum, reason_sum, IsTally};
ghost use Rattle.st_tally.specs.TallyLines.{card_line, lines_by_heading, count_lines, missed_count_line, level_count_line, drop_count_line, table_lines};

use crate::headings::Heading;
use crate::lines::{fill_card, fill_dropped, fill_level, fill_missed, fill_reason};
use crate::tables::{CardSum, Tables, sum_at};
use st_io::{Failed, Sink, write_line};
use st_ledger::write_sums;
use st_lines::write_wait_sums;
use st_report::LineFromEnd;

// Writes the line of a card.
fn write_card<K: Sink>(out: &mut K, card: u64, rows: u64) -> Result<(), Failed>
    ensures { WritesLines (K.output out.old) (K.output out.new) (card_line card rows ∷ []) result }
{
    let mut line = LineFromEnd::new();
    fill_card(&mut line, card, rows);
    write_line(out, line.as_bytes())
}

// Writes the lines of a card, if it has rows.
#[tactic(auto, unfolding(crate::specs::TallyLines::card_lines_by), using(st_io::proofs::Progress::wrote_nothing))]
fn write_slot<K: Sink>(out: &mut K, card: u64, sum: &CardSum) -> Result<(), Failed>
    ensures { WritesLines (K.output out.old) (K.output out.new) (slot_lines card sum.now) result }
{
    if sum.rows == 0 {
        return Ok(());
    }
    write_card(out, card, sum.rows)?;
    write_sums(out, &sum.sums)?;
    write_wait_sums(out, &sum.waits)
}

// Writes the lines of all cards.
fn write_cards<K: Sink>(out: &mut K, tables: &Tables) -> Result<(), Failed>
    ensures { let t = tables.now in
        WritesLines (K.output out.old) (K.output out.new)
        (lines_for (λ k. slot_lines k (card_sum t k)) (length t.cards.items) 0) result }
{
    let mut k = 0;
    'cards: while k < tables.cards.len() {
        write_slot(out, k as u64, sum_at(&tables.cards, k))?;
        k += 1;
    }
    Ok(())
}

// Writes the line of a heading.
fn write_reason<K: Sink>(out: &mut K, heading: Heading, tables: &Tables) -> Result<(), Failed>
    ensures { WritesLines (K.output out.old) (K.output out.new)
        (reason_sum_line heading (reason_sum tables.now heading) ∷ []) result }
{
    let mut line = LineFromEnd::new();
    fill_reason(&mut line, heading, &tables.reasons[heading.place()]);
    write_line(out, line.as_bytes())
}

// Writes the lines of some headings.
#[tactic(auto, unfolding(crate::specs::TallyLines::lines_by_heading), using(st_io::proofs::Progress::wrote_nothing))]
fn write_each<K: Sink>(out: &mut K, some: &[Heading], tables: &Tables) -> Result<(), Failed>
    ensures { WritesLines (K.output out.old) (K.output out.new)
        (lines_by_heading (λ h. reason_sum_line h (reason_sum tables.now h)) some.now) result }
{
    let Some((&heading, more)) = some.split_first() else {
        return Ok(());
    };
    write_reason(out, heading, tables)?;
    write_each(out, more, tables)
}

// The headings in the order of their lines.
fn all_headings() -> [Heading; 11]
    ensures { result ≡ headings }
{
    [
        Heading::Run,
        Heading::Interrupt,
        Heading::Missed,
        Heading::Card,
        Heading::Serial,
        Heading::Store,
        Heading::Level,
        Heading::Forwarding,
        Heading::Bus,
        Heading::Prefetch,
        Heading::Order,
    ]
}

// Writes the number of mispredicted branches.
fn write_missed<K: Sink>(out: &mut K, n: u64) -> Result<(), Failed>
    ensures { WritesLines (K.output out.old) (K.output out.new) (missed_count_line n ∷ []) result }
{
    let mut line = LineFromEnd::new();
    fill_missed(&mut line, n);
    write_line(out, line.as_bytes())
}

// Writes the number of rows that waited for a level, and their ticks.
fn write_level<K: Sink>(out: &mut K, rows: u64, ticks: u64) -> Result<(), Failed>
    ensures { WritesLines (K.output out.old) (K.output out.new)
        (level_count_line rows ticks ∷ []) result }
{
    let mut line = LineFromEnd::new();
    fill_level(&mut line, rows, ticks);
    write_line(out, line.as_bytes())
}

// Writes the number of dropped entries.
fn write_dropped<K: Sink>(out: &mut K, n: u64) -> Result<(), Failed>
    ensures { WritesLines (K.output out.old) (K.output out.new) (drop_count_line n ∷ []) result }
{
    let mut line = LineFromEnd::new();
    fill_dropped(&mut line, n);
    write_line(out, line.as_bytes())
}

// Writes the counts.
fn write_counts<K: Sink>(out: &mut K, tables: &Tables, dropped: u64) -> Result<(), Failed>
    ensures { let t = tables.now in
        WritesLines (K.output out.old) (K.output out.new)
        (count_lines t.mispredicted t.level_rows t.level_ticks dropped) result }
{
    write_missed(out, tables.mispredicted)?;
    write_level(out, tables.level_rows, tables.level_ticks)?;
    write_dropped(out, dropped)
}

impl Tables {
    /// Writes the lines of the tables: those of the cards that have rows, those of all headings,
    /// and the counts; `dropped` is the number of dropped entries.
    pub fn write<K: Sink>(&self, out: &mut K, dropped: u64) -> Result<(), Failed>
        ensures { (xs : List TalliedRow) → IsTally xs self.now →
            WritesLines (K.output out.old) (K.output out.new)
            (table_lines (length self.now.cards.items) xs dropped) result }
    {
        write_cards(out, self)?;
        write_each(out, &all_headings(), self)?;
        write_counts(out, self, dropped)
    }
}
