//! Writes the lines between two entries (instructions): the end of a segment with the flushed
//! entries, the printed lines, the state, and the start of a segment; and the first and last lines
//! of a ledger. docs/ledger.md has the lines. `st_account` calls `write_border` after each entry,
//! with the facts in `Border` and `Between`, and the other public calls at the start and the end.
//! Segments and entries are numbered from 1; `old` is a copy of all words.
//!
//! Proved: the lines are those of specs/BorderLines.antt, in that order, and the copy is up to date
//! after them. Words are compared only where `between.may` allows a change: the clause `left`
//! (`IsCopyBehind` of specs/Changes.antt) is what `st_account` has to prove.
//!
//! Pinned, by specs/BorderLines.antt, docs/ledger.md and vectors/ledger/lines.txt: the lines and
//! their order; by `st_account`: the public structures. Free: the split into functions, if
//! proofs/writing follows.
ghost use Rattle.std.specs.Prelude.{◌≡◌, ◌+◌, ◌<◌, ◌^◌, ◌∷◌, ◌++◌, [], if◌then◌else◌, length, Some, false, IsOk};
ghost use Rattle.st_io.specs.Lines.{WritesLines, lines_for};
ghost use Rattle.st_bits.specs.Storage.{words_of_storage};
ghost use Rattle.st_bits.specs.declared.limits.TheConstants.{WORDS};
ghost use Rattle.st_report.specs.Line.{ic_line, end_line as run_end_line, done_line, ticks_line};
ghost use Rattle.st_lines.specs.Lines.{delays_lines, start_line};
ghost use Rattle.st_lines.specs.EntryLines.{facts_lines};
ghost use Rattle.st_lines.specs.Changes.{AreOthersAlike, IsCopyBehind};
ghost use Rattle.st_lines.specs.Origins.{origin_at};
ghost use Rattle.st_lines.specs.BorderLines.{drop_lines, segment_end_lines, en_lines, prints_lines, nonzero_word_lines, word_change_lines, marks_lines, taken_by, state_lines, whole_state_lines, machine_lines};

use crate::changes::{Changeable, keep_changed, keep_words, write_changed};
use crate::digits::fill_counter;
use crate::facts::{Facts, write_facts};
use crate::lines::{
    Why, line_begun, line_delays, line_drop, line_end, line_levels, line_start, line_word,
};
use crate::origins::{Origin, Origins};
use crate::uses::FactLine;
use arrayvec::ArrayVec;
use st_bits::WORDS;
use st_exch::print_text;
use st_io::{Failed, Sink, write_line};
use st_plain::Ahead;
use st_report::{
    LineFromEnd, line_done, line_en, line_end as line_run_end, line_int, line_prt, line_ticks, put,
};
use st_state::{State, counter_in, is_enabled};
use st_text::{behind, front};

/// The printed lines between two entries, each as eight words.
pub type Printed = ArrayVec<[u64; 8], 3>;

// Writes the facts about the n-th entry, which ran ahead and is dropped at a tick.
fn write_ahead_facts<K: Sink>(
    out: &mut K,
    n: u32,
    tick: u64,
    ahead: &Ahead,
    origin: Option<Origin>,
) -> Result<(), Failed>
    ensures { WritesLines (K.output out.old) (K.output out.new)
        (facts_lines n (Some tick) ahead.now.plan ahead.now.known origin ahead.now.uses.items)
        result }
{
    let facts = Facts {
        n,
        end: Some(tick),
        plan: &ahead.plan,
        known: &ahead.known,
        origin,
        uses: ahead.uses.as_slice(),
    };
    write_facts(out, &mut FactLine::new(), &facts)
}

/// The entries that ran ahead of the last entry of a segment and are dropped (flushed) at its end.
#[derive(Clone, Copy)]
pub struct Dropped<'a> {
    /// The tick at which the segment ends.
    pub tick: u64,
    /// The number of the first dropped entry.
    pub n: u32,
    /// The entries that were prepared by that tick, oldest first.
    pub found: &'a [Ahead],
    /// The entry after them, which had begun.
    pub begun: &'a Ahead,
    /// The cards that half-words come from.
    pub origins: &'a Origins,
    ghost few: { n + length found.now < 2 ^ 32 },
}

// Writes the lines of dropped entries, except the one that had only begun.
#[tactic(auto, using(st_io::proofs::Progress::wrote_nothing))]
fn write_drops<K: Sink>(out: &mut K, dropped: &Dropped<'_>, state: &State) -> Result<(), Failed>
    ensures { WritesLines (K.output out.old) (K.output out.new)
        (drop_lines (origin_at dropped.now.origins.now state.now) dropped.now.n dropped.now.tick
        dropped.now.found.now) result }
{
    let Some((first, more)) = dropped.found.split_first() else {
        return Ok(());
    };
    let n = dropped.n;
    let tick = dropped.tick;
    put(out, &line_drop(n, first.plan.place.address, &first.row))?;
    write_ahead_facts(
        out,
        n,
        tick,
        first,
        dropped.origins.at(state, first.plan.place.address),
    )?;
    let behind = Dropped {
        tick,
        n: n + 1,
        found: more,
        begun: dropped.begun,
        origins: dropped.origins,
    };
    write_drops(out, &behind, state)
}

/// Writes the end of segment k, with the dropped entries and their half-words' origins in the state
/// at the end. For k = 0, before the first segment, nothing is written.
pub fn write_end<K: Sink>(
    out: &mut K,
    k: u32,
    dropped: &Dropped<'_>,
    state: &State,
) -> Result<(), Failed>
    ensures { let d = dropped.now in
        WritesLines (K.output out.old) (K.output out.new)
        (segment_end_lines (origin_at d.origins.now state.now) k d.tick d.n d.found.now
        (d.begun.now ∷ [])) result }
{
    if k == 0 {
        return Ok(());
    }
    put(out, &line_end(k, dropped.tick))?;
    write_drops(out, dropped, state)?;
    let n = dropped.n + dropped.found.len() as u32;
    let begun = dropped.begun;
    put(out, &line_begun(n, begun.plan.place.address, &begun.row))?;
    write_ahead_facts(
        out,
        n,
        dropped.tick,
        begun,
        dropped.origins.at(state, begun.plan.place.address),
    )
}

// Writes all printed lines.
#[tactic(auto, using(st_io::proofs::Progress::wrote_nothing))]
fn write_prints<K: Sink>(out: &mut K, printed: &[[u64; 8]]) -> Result<(), Failed>
    ensures { WritesLines (K.output out.old) (K.output out.new) (prints_lines printed.now) result }
{
    let Some((first, more)) = printed.split_first() else {
        return Ok(());
    };
    put(out, &line_prt(&print_text(first)))?;
    write_prints(out, more)
}

// Writes the instruction counter, and whether interrupts are enabled if that line is due.
#[inline(always)]
fn write_counter<K: Sink>(
    out: &mut K,
    k: u32,
    was: bool,
    ic: u32,
    enabled: bool,
) -> Result<(), Failed>
    ensures { WritesLines (K.output out.old) (K.output out.new)
        (ic_line ic ∷ en_lines k was enabled) result }
{
    let mut line = LineFromEnd::new();
    fill_counter(&mut line, ic);
    write_line(out, line.as_bytes())?;
    if k != 0 && was == enabled {
        return Ok(());
    }
    put(out, &line_en(enabled))
}

// Writes a word of storage or a register, if it is not zero.
#[tactic(auto, unfolding(crate::specs::BorderLines::nonzero_word_lines), using(st_io::proofs::Progress::wrote_nothing, st_bits::specs::Storage::words_of_storage_is))]
fn write_word<K: Sink>(out: &mut K, state: &State, w: u32) -> Result<(), Failed>
    requires { w < WORDS }
    ensures { WritesLines (K.output out.old) (K.output out.new)
        (nonzero_word_lines state.now w) result }
{
    let word = state.word(w);
    if word == 0 {
        return Ok(());
    }
    put(out, &line_word(w, word))
}

// Writes all words that are not zero.
fn write_each_word<K: Sink>(out: &mut K, state: &State) -> Result<(), Failed>
    ensures { WritesLines (K.output out.old) (K.output out.new)
        (lines_for (nonzero_word_lines state.now) WORDS 0) result }
{
    for w in 0..WORDS {
        write_word(out, state, w)?;
    }
    Ok(())
}

// Writes the words that are not zero, at the start of a run, or else those that changed.
fn write_words<K: Sink>(
    out: &mut K,
    starts: bool,
    old: &mut Vec<u64>,
    state: &State,
    may: &Changeable,
) -> Result<(), Failed>
    requires size { length old.old.items ≡ words_of_storage }
    requires left { starts ≡ false → AreOthersAlike may.now old.old.items state.now }
    ensures lines { WritesLines (K.output out.old) (K.output out.new)
        (if starts then lines_for (nonzero_word_lines state.now) WORDS 0
        else lines_for (word_change_lines old.old.items state.now) WORDS 0) result }
    ensures words { IsOk result → old.new.items ≡ state.now.words }
{
    if !starts {
        return write_changed(out, old, state, may);
    }
    keep_words(old, state);
    write_each_word(out, state)
}

/// Writes a whole state, as `write_marks` does at the start of a run: the instruction counter,
/// whether interrupts are enabled, and the words that are not zero.
pub fn write_whole_state<K: Sink>(out: &mut K, state: &State) -> Result<(), Failed>
    ensures { WritesLines (K.output out.old) (K.output out.new) (whole_state_lines state.now) result }
{
    write_counter(out, 0, false, counter_in(state), is_enabled(state))?;
    write_each_word(out, state)
}

/// Copies the words of a state, as `write_marks` does, and writes nothing.
pub fn copy_changed(k: u32, may: &Changeable, old: &mut Vec<u64>, state: &State)
    requires size { length old.old.items ≡ words_of_storage }
    requires left { IsCopyBehind k may.now old.old.items state.now }
    ensures { old.new.items ≡ state.now.words }
{
    if k == 0 {
        keep_words(old, state);
    } else {
        keep_changed(old, state, may);
    }
}

/// The events between an entry and the next one, except the state.
#[derive(Clone, Copy)]
pub struct Between<'a> {
    /// The number of the entry's segment; 0 before the first segment.
    pub k: u32,
    /// The entries that are dropped after the entry, if its segment ends.
    pub dropped: Dropped<'a>,
    /// The printed lines, each as eight words.
    pub printed: &'a [[u64; 8]],
    /// Whether interrupts were enabled before the entry.
    pub was: bool,
    /// The words that may have changed since the previous entry.
    pub may: &'a Changeable,
}

/// Writes the printed lines, the instruction counter, whether interrupts are enabled if that line
/// is due, and the words: at the start of a run, before segment 1, those that are not zero, and
/// otherwise those that changed. `old` has the words as they were before the last entry, and is
/// updated to those of the state. Of the words that are not registers, only those that `between`
/// names may have changed.
pub fn write_marks<K: Sink>(
    out: &mut K,
    between: &Between<'_>,
    old: &mut Vec<u64>,
    state: &State,
) -> Result<(), Failed>
    requires size { length old.old.items ≡ words_of_storage }
    requires left { IsCopyBehind between.now.k between.now.may.now old.old.items state.now }
    ensures lines { WritesLines (K.output out.old) (K.output out.new)
        (marks_lines between.now.printed.now between.now.k between.now.was old.old.items
        state.now) result }
    ensures words { IsOk result → old.new.items ≡ state.now.words }
{
    write_prints(out, between.printed)?;
    let k = between.k;
    write_counter(out, k, between.was, counter_in(state), is_enabled(state))?;
    write_words(out, k == 0, old, state, between.may)
}

// Writes the interrupt that is taken after a number of instructions, except before the first
// instruction.
#[tactic(auto, using(st_io::proofs::Progress::wrote_nothing))]
fn write_taken<K: Sink>(
    out: &mut K,
    first: bool,
    taken: Option<u8>,
    done: u64,
) -> Result<(), Failed>
    ensures { WritesLines (K.output out.old) (K.output out.new) (taken_by first taken done) result }
{
    if first {
        return Ok(());
    }
    match taken {
        Some(i) => put(out, &line_int(i, done)),
        None => Ok(()),
    }
}

/// Whether a segment ends and whether one begins between two entries, with the facts about its
/// start.
#[derive(Clone, Copy, Debug)]
pub struct Border {
    /// Whether the segment of the last entry ends.
    pub ends: bool,
    /// Whether the next entry is the first of a segment.
    pub begins: bool,
    /// The tick at which the next segment starts.
    pub start: u64,
    /// Whether the machine had waited.
    pub waited: bool,
    /// Why the next segment begins.
    pub why: Why,
    /// The indicator of the interrupt that is taken, if one is.
    pub taken: Option<u8>,
    /// The number of completed instructions.
    pub done: u64,
}

// Writes the end of a segment, if one ends.
fn write_ended<K: Sink>(
    out: &mut K,
    ends: bool,
    between: &Between<'_>,
    state: &State,
) -> Result<(), Failed>
    ensures { let d = between.now.dropped in
        WritesLines (K.output out.old) (K.output out.new)
        (if ends then segment_end_lines (origin_at d.origins.now state.now) between.now.k d.tick
        d.n d.found.now (d.begun.now ∷ []) else []) result }
{
    if !ends {
        return Ok(());
    }
    write_end(out, between.k, &between.dropped, state)
}

/// Writes the start of segment k, if one begins.
#[inline(always)]
pub fn write_start<K: Sink>(out: &mut K, border: &Border, k: u32) -> Result<(), Failed>
    ensures { WritesLines (K.output out.old) (K.output out.new)
        (if border.now.begins then start_line k border.now.start border.now.waited border.now.why
        ∷ [] else []) result }
{
    if !border.begins {
        return Ok(());
    }
    put(out, &line_start(k, border.start, border.waited, border.why))
}

/// Writes the end of a segment, the state, and the start of the next segment, each if there is one.
/// `between` and `old` are as in `write_marks`.
pub fn write_border<K: Sink>(
    out: &mut K,
    border: &Border,
    between: &Between<'_>,
    old: &mut Vec<u64>,
    state: &State,
) -> Result<(), Failed>
    requires number { between.now.k + 1 < 2 ^ 32 }
    requires size { length old.old.items ≡ words_of_storage }
    requires left { IsCopyBehind between.now.k between.now.may.now old.old.items state.now }

    ensures lines { let b = between.now in
        let d = b.dropped in
        WritesLines (K.output out.old) (K.output out.new)
        (((if border.now.ends then segment_end_lines (origin_at d.origins.now state.now) b.k d.tick
        d.n d.found.now (d.begun.now ∷ []) else [])
        ++ state_lines b.printed.now b.k b.was old.old.items state.now border.now.taken
        border.now.done)
        ++ (if border.now.begins then start_line (b.k + 1) border.now.start border.now.waited
        border.now.why ∷ [] else [])) result }
    ensures words { IsOk result → old.new.items ≡ state.now.words }
{
    write_ended(out, border.ends, between, state)?;
    write_marks(out, between, old, state)?;
    write_taken(out, between.k == 0, border.taken, border.done)?;
    write_start(out, border, between.k + 1)
}

/// Writes how the run ended, the number of completed instructions, and the last tick.
pub fn write_totals<K: Sink>(out: &mut K, rests: bool, done: u64, tick: u64) -> Result<(), Failed>
    ensures { WritesLines (K.output out.old) (K.output out.new)
        (run_end_line rests ∷ done_line done ∷ ticks_line tick ∷ []) result }
{
    put(out, &line_run_end(rests))?;
    put(out, &line_done(done))?;
    put(out, &line_ticks(tick))
}

// Writes all delays, ten in each line.
fn write_delays<K: Sink>(out: &mut K, ds: &[u8]) -> Result<(), Failed>
    ensures { WritesLines (K.output out.old) (K.output out.new) (delays_lines ds.now) result }
{
    if ds.is_empty() {
        return Ok(());
    }
    put(out, &line_delays(front(ds, 10)))?;
    write_delays(out, behind(ds, 10))
}

/// Writes the lines of a machine with n levels and these delays.
pub fn write_machine<K: Sink>(out: &mut K, n: u8, ds: &[u8]) -> Result<(), Failed>
    ensures { WritesLines (K.output out.old) (K.output out.new) (machine_lines ds.now n) result }
{
    put(out, &line_levels(n))?;
    write_delays(out, ds)
}
