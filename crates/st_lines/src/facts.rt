//! Writes the facts about a single entry (instruction): its row of ticks, why it is serialized,
//! whether it was suppressed, its card, its words, its charges with their waits, and the cause that
//! delayed it. docs/ledger.md has the lines. `st_account` calls `write_done` for a completed entry;
//! writing.rt calls `write_facts` for entries that ran ahead. Entries are numbered from 1;
//! addresses are half-word addresses for entries and word addresses for words.
//!
//! Proved: the lines are `done_entry_lines` or `facts_lines` of specs/EntryLines.antt; the totals
//! grow by the waits of the entry (`HasToldWaits` of specs/TellingWaits.antt).
//!
//! Pinned, by these definitions, docs/ledger.md and vectors/ledger/lines.txt: the lines and their
//! order. Free: the split into functions, if proofs/facts follows. A new fact is a line in
//! specs/Lines.antt, its place in specs/EntryLines.antt, and a call here.
ghost use Rattle.std.specs.Prelude.{◌≡◌, ◌-◌, ◌≤◌, ◌==◌, IsOk};
ghost use Rattle.st_bits.specs.Indicators.{indicator as indicator_of};
ghost use Rattle.st_state.specs.Interrupts.{first_from};
ghost use Rattle.st_io.specs.Lines.{WritesLines};
ghost use Rattle.st_lines.specs.EntryLines.{alone_by as alone_why, alone_lines, suppressed_by as suppressed_of, suppressed_lines, emitted_lines, code_lines, run_lines, index_lines, facts_lines, missed_lines, level_lines, done_entry_lines};
ghost use Rattle.st_lines.specs.TellingWaits.{CanTellWaits, HasToldWaits};

use crate::digits::{fill_code, fill_index, fill_writes};
use crate::lines::{Alone, line_alone, line_level, line_missed, line_suppressed};
use crate::origins::{Origin, fill_emitted};
use crate::uses::{FactLine, write_uses};
use crate::waits::{RowTelling, write_because, write_charged};
use st_bits::indicator;
use st_io::{Failed, Sink, write_line};
use st_ledger::{StallCause, write_row};
use st_plain::{Code, Known, WaitedRow};
use st_prep::{IndexChange, Prepared, has_register, is_register};
use st_report::{LineFromEnd, put};
use st_rows::Use;

// Why an entry is serialized; `None` if it is not.
fn alone_by(p: &Prepared, side: Option<u32>, execute: bool) -> Option<Alone>
    ensures { result ≡ alone_why p.now side execute }
{
    if !p.serial {
        return None;
    }
    match p.place.table {
        Some(i) => Some(Alone::Table(i)),
        None => {
            if execute {
                Some(Alone::Execute)
            } else if is_register(side) || has_register(p.reads) || has_register(p.writes) {
                Some(Alone::Register)
            } else {
                Some(Alone::Operation)
            }
        }
    }
}

// Writes why an entry is serialized, if it is.
#[tactic(auto, unfolding(crate::specs::EntryLines::alone_lines), using(st_io::proofs::Progress::wrote_nothing))]
fn write_alone<K: Sink>(out: &mut K, why: Option<Alone>) -> Result<(), Failed>
    ensures { WritesLines (K.output out.old) (K.output out.new) (alone_lines why) result }
{
    match why {
        None => Ok(()),
        Some(why) => put(out, &line_alone(why)),
    }
}

// The number of the only indicator, from `i` on, whose bit is one in a word.
fn number_from(on: u64, i: u8) -> Option<u8>
    requires { i ≤ 64 }
    ensures { result ≡ first_from (λ n. indicator_of n == on) i (64 - i) }
{
    if i == 64 {
        return None;
    }
    if indicator(i) == on {
        return Some(i);
    }
    number_from(on, i + 1)
}

// The indicator with which an entry is suppressed, if it is suppressed.
fn suppressed_by(p: &Prepared) -> Option<u8>
    ensures { result ≡ suppressed_of p.now }
{
    if p.suppressed {
        number_from(p.ind.on, 0)
    } else {
        None
    }
}

// Writes that an entry is suppressed, if it is.
#[tactic(auto, unfolding(crate::specs::EntryLines::suppressed_lines), using(st_io::proofs::Progress::wrote_nothing))]
fn write_suppressed<K: Sink>(out: &mut K, by: Option<u8>) -> Result<(), Failed>
    ensures { WritesLines (K.output out.old) (K.output out.new) (suppressed_lines by) result }
{
    match by {
        None => Ok(()),
        Some(i) => put(out, &line_suppressed(i)),
    }
}

// Writes the line of a run of words that an entry writes, unless the run is empty.
#[inline(always)]
#[tactic(auto, unfolding(crate::specs::EntryLines::run_lines), using(st_io::proofs::Progress::wrote_nothing))]
fn write_run<K: Sink>(out: &mut K, line: &mut LineFromEnd, w: u32, n: u8) -> Result<(), Failed>
    ensures { WritesLines (K.output out.old) (K.output out.new) (run_lines w n) result }
{
    if n == 0 {
        return Ok(());
    }
    fill_writes(line, w, n);
    write_line(out, line.as_bytes())
}

// Writes the index word that an entry changes speculatively, if it does.
#[tactic(auto, unfolding(crate::specs::EntryLines::index_lines), using(st_io::proofs::Progress::wrote_nothing))]
#[inline(always)]
fn write_index<K: Sink>(
    out: &mut K,
    line: &mut LineFromEnd,
    index: Option<IndexChange>,
) -> Result<(), Failed>
    ensures { WritesLines (K.output out.old) (K.output out.new) (index_lines index) result }
{
    match index {
        None => Ok(()),
        Some(change) => {
            fill_index(line, &change);
            write_line(out, line.as_bytes())
        }
    }
}

// Writes the card that an entry's half-words come from, if a card's bits begin there.
#[tactic(auto, unfolding(crate::specs::EntryLines::emitted_lines), using(st_io::proofs::Progress::wrote_nothing))]
fn write_emitted<K: Sink>(
    out: &mut K,
    line: &mut LineFromEnd,
    origin: Option<Origin>,
) -> Result<(), Failed>
    ensures { WritesLines (K.output out.old) (K.output out.new) (emitted_lines origin) result }
{
    match origin {
        None => Ok(()),
        Some(origin) => {
            fill_emitted(line, origin);
            write_line(out, line.as_bytes())
        }
    }
}

// Writes the half-words that an entry executes, if they may be fetched.
#[tactic(auto, unfolding(crate::specs::EntryLines::code_lines), using(st_io::proofs::Progress::wrote_nothing))]
fn write_code<K: Sink>(
    out: &mut K,
    line: &mut LineFromEnd,
    code: Option<Code>,
) -> Result<(), Failed>
    ensures { WritesLines (K.output out.old) (K.output out.new) (code_lines code) result }
{
    match code {
        None => Ok(()),
        Some(code) => {
            fill_code(line, code);
            write_line(out, line.as_bytes())
        }
    }
}

/// The facts about a single entry.
#[derive(Clone, Copy)]
pub(crate) struct Facts<'a> {
    /// The number of the entry.
    pub n: u32,
    /// The tick at which the entry's segment ends; `None` if the segment continues.
    pub end: Option<u64>,
    /// The preparation of the entry.
    pub plan: &'a Prepared,
    /// Further facts about the entry.
    pub known: &'a Known,
    /// The card that the entry's half-words come from.
    pub origin: Option<Origin>,
    /// The words that the entry uses.
    pub uses: &'a [Use],
}

/// Writes the facts about a single entry.
pub(crate) fn write_facts<K: Sink>(
    out: &mut K,
    line: &mut FactLine,
    facts: &Facts<'_>,
) -> Result<(), Failed>
    ensures { WritesLines (K.output out.old) (K.output out.new)
        (facts_lines facts.now.n facts.now.end facts.now.plan.now facts.now.known.now
        facts.now.origin facts.now.uses.now) result }
{
    let plan = facts.plan;
    let known = facts.known;
    write_alone(out, alone_by(plan, known.side, known.execute))?;
    write_suppressed(out, suppressed_by(plan))?;
    write_emitted(out, &mut line.bytes, facts.origin)?;
    write_code(out, &mut line.bytes, known.code)?;
    write_uses(out, line, facts.n, facts.end, facts.uses)?;
    let words = plan.writes;
    write_run(out, &mut line.bytes, words.first, words.len)?;
    write_run(out, &mut line.bytes, words.first2, words.len2)?;
    write_index(out, &mut line.bytes, plan.index)
}

/// A completed entry.
#[derive(Clone, Copy, Debug)]
pub struct EntryDone {
    /// The number of the entry.
    pub n: u32,
    /// The entry's half-word address.
    pub address: u32,
    /// The card that the entry's half-words come from.
    pub origin: Option<Origin>,
    /// The entry's row.
    pub row: WaitedRow,
    /// Whether the entry is a mispredicted branch.
    pub mispredicted: bool,
    /// The tick at which the previous entry completed.
    pub before: u64,
    /// The tick at which the entry's segment starts, if the entry is the first in it.
    pub start: u64,
    /// The tick at which the entry's segment ends, if the segment ends with this entry.
    pub end: Option<u64>,
    /// The cause that delayed the entry.
    pub because: StallCause,
}

/// All recorded facts about a completed entry.
#[derive(Clone, Copy)]
pub struct EntryRecord<'a> {
    /// The entry with its row and its times.
    pub done: &'a EntryDone,
    /// The preparation of the entry.
    pub plan: &'a Prepared,
    /// Further facts about the entry.
    pub known: &'a Known,
    /// The words that the entry uses.
    pub uses: &'a [Use],
    /// The words that the previous entry in the segment uses; none for the first entry of a
    /// segment.
    pub before: &'a [Use],
}

// Writes that a branch was mispredicted, if it was.
#[tactic(auto, unfolding(crate::specs::EntryLines::missed_lines), using(st_io::proofs::Progress::wrote_nothing))]
fn write_missed<K: Sink>(out: &mut K, mispredicted: bool) -> Result<(), Failed>
    ensures { WritesLines (K.output out.old) (K.output out.new) (missed_lines mispredicted) result }
{
    if !mispredicted {
        return Ok(());
    }
    put(out, &line_missed())
}

// Writes for how many ticks an entry waited for a level, if it did.
#[tactic(auto, unfolding(crate::specs::EntryLines::level_lines), using(st_io::proofs::Progress::wrote_nothing))]
fn write_level<K: Sink>(out: &mut K, d: u64) -> Result<(), Failed>
    ensures { WritesLines (K.output out.old) (K.output out.new) (level_lines d) result }
{
    if d == 0 {
        return Ok(());
    }
    put(out, &line_level(d))
}

/// Writes the lines of a completed entry, and adds its waits to the totals.
pub fn write_done<K: Sink>(
    out: &mut K,
    entry: &EntryRecord<'_>,
    waiting: &mut RowTelling,
) -> Result<(), Failed>
    requires { CanTellWaits entry.now waiting.old.totals }
    ensures lines { WritesLines (K.output out.old) (K.output out.new)
        (done_entry_lines entry.now.done.now entry.now.plan.now entry.now.known.now
        entry.now.uses.now entry.now.before.now) result }
    ensures waits { IsOk result → HasToldWaits entry.now waiting.old.totals waiting.new.totals }
{
    let done = entry.done;
    write_row(
        out,
        &mut waiting.line,
        done.n,
        done.address,
        &done.row.ticks,
    )?;
    write_missed(out, done.mispredicted)?;
    let facts = Facts {
        n: done.n,
        end: done.end,
        plan: entry.plan,
        known: entry.known,
        origin: done.origin,
        uses: entry.uses,
    };
    write_facts(out, &mut waiting.facts, &facts)?;
    write_charged(out, entry, waiting)?;
    write_level(out, done.row.level_wait)?;
    write_because(out, done.n, done.before, done.row.ticks.r, &done.because)
}
