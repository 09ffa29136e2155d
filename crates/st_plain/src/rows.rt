//! The row (the ticks) of the next entry (instruction) of a state, the words that it uses, and its
//! wait for a level, a place in flight. docs/timetable.md has the rules. `begin` plans the entry up
//! to A and P, `fill` computes R and C, and `pass` advances the issue state. `st_account`
//! (stepping.rt) calls all three, and finds a cause of delay (`st_ledger`) before `pass`;
//! looking.rt calls `finish` for the last two. The requirements `early` keep C of the last entry at
//! most 2^63 + 2^20.
//!
//! Proved: the row is `row_of_entry` of specs/Rows.antt of `st_rows`, the words are `formed_uses`
//! and `prepared_uses` of specs/Uses.antt, and the wait is `level_wait` of specs/Looking.antt.
//!
//! Pinned, by these definitions, docs/timetable.md and vectors/timetable.txt: the ticks; by
//! `st_account`, `st_lines` and `st_ledger`: `Before`, `Begun` and `WaitedRow`; by the clauses
//! here: room for 48 words (`space`). Free: how the wait is computed, if proofs/rows follows.
ghost use Rattle.std.specs.Prelude.{◌≡◌, ℕ, ◌+◌, ◌-◌, ◌<◌, ◌≤◌, ◌^◌, ◌++◌, List, length, true, IfSome};
ghost use Rattle.st_bits.specs.Indicators.{IsIndicatorIfAny};
ghost use Rattle.st_bits.specs.declared.limits.TheConstants.{MOST_DELAY};
ghost use Rattle.st_banks.specs.Bank.{last_of};
ghost use Rattle.st_banks.specs.declared.answers.TheConstants.{BANKS as banks_there};
ghost use Rattle.st_prep.specs.Plan.{plan as plan_of};
ghost use Rattle.st_prep.specs.Ranges.{IsPrepared, IsRuns};
ghost use Rattle.st_state.specs.Machine.{IsMachine};
ghost use Rattle.st_rows.specs.Asked.{formed_asked};
ghost use Rattle.st_rows.specs.Notes.{log_after_reads};
ghost use Rattle.st_rows.specs.Ranges.{IsEntryInTime, IsTight, most_ticks_of_entry};
ghost use Rattle.st_rows.specs.Rows.{bus_a, tick_a, tick_p, row_of_entry as row_of, issue_after_entry as after_of, reads_of_entry as asked_of};
ghost use Rattle.st_rows.specs.Words.{bus_after_index_read, side_there as side_there_of};
ghost use Rattle.st_rows.specs.declared.bus.Bus.{Bus as BusOf};
ghost use Rattle.st_rows.specs.declared.log.Made.{Made};
ghost use Rattle.st_segment.specs.Entries.{entry as entry_of};
ghost use Rattle.st_plain.specs.Looking.{known_at, level_wait as level_wait_of, side_at};
ghost use Rattle.st_plain.specs.Uses.{formed_uses, prepared_uses, registers_among as registers_among_of, side_register};

use crate::known::{Known, known_if};
use st_banks::{BANKS, LastAnswers};
use st_bits::register::FIRST_STORAGE_WORD;
use st_next::{FetchUnit, PlanContext};
use st_prep::{Words, index_words_in};
use st_rows::{
    Bus, Entry, EntryTicks, Formed, FormedEntry, IssueState, LastEntries, Log, Role, Timing, Uses,
    Watch, WordRun, WordRuns,
};
use st_state::State;

// The last answer of the bank of the word `w`, given those of all banks.
fn last_answer(ticks: &[u64; BANKS], w: u32) -> u64
    ensures value { result ≡ last_of ticks.now w }
    ensures all { length ticks.now ≡ banks_there }
{
    LastAnswers { ticks: *ticks }.of(w)
}

// The arrival tick of the index-side word of an entry whose address is formed at `a`; 0 if there is
// none. The bus is the one after its read.
fn side_there(past: &LastEntries, side: Option<u32>, a: u64, bus: &Bus) -> u64
    requires storage { IfSome side (λ w. 32 ≤ w) }
    ensures { (ds : List ℕ) (before : BusOf) → bus.now ≡ bus_after_index_read ds past.now before side a →
        result ≡ side_there_of ds past.now before side a }
{
    let Some(w) = side else {
        return 0;
    };
    let done = past.latest_done(w);
    if done > a {
        return done;
    }
    last_answer(&bus.banks.ticks, w)
}

// For how many ticks an entry whose address is formed at `a` waits for a level. The bus is the one
// after its index-side word.
fn level_wait(issue: &IssueState, timing: &Timing<'_>, entry: &Entry, a: u64, bus: &Bus) -> u64
    requires entry { IsEntryInTime entry.now }
    ensures { (ds : List ℕ) → a ≡ tick_a ds issue.now entry.now →
        bus.now ≡ bus_a ds issue.now entry.now →
        result ≡ level_wait_of ds timing.now.levels issue.now entry.now }
{
    let done = issue.past.done_before(timing.levels);
    if done <= a {
        return 0;
    }
    let there = side_there(&issue.past, entry.side, a, bus);
    done.saturating_sub(a.max(there))
}

/// The input of a row: the state and the issue state before its entry, and the timing of the
/// machine.
#[derive(Clone, Copy)]
pub struct Before<'a, 'b> {
    /// The state before the entry.
    pub state: &'a State,
    /// The issue state before the entry.
    pub issue: &'b IssueState,
    /// The delays and the number of levels of the machine.
    pub timing: &'b Timing<'b>,
    /// Whether all facts of the entry are wanted, as its lines need them.
    pub facts: bool,
}

/// A planned entry: its facts, its P, and its wait for a level.
#[derive(Clone, Copy, Debug, Default, PartialEq, Eq)]
pub struct Begun {
    /// The facts of the entry that its plan does not have.
    pub known: Known,
    /// A and P: the ticks at which the address is formed and the entry is prepared.
    pub formed: Formed,
    /// For how many ticks the entry waits for a level before it is prepared.
    pub level_wait: u64,
}

// Notes the index-side word of an entry, if it is a register.
fn note_side(uses: &mut Uses, side: Option<u32>)
    requires space { length uses.old.items < 48 }
    ensures items { uses.new.items ≡ uses.old.items ++ side_register side }
    ensures room { length uses.new.items ≤ length uses.old.items + 1 }
{
    let Some(w) = side else {
        return;
    };
    if w < FIRST_STORAGE_WORD {
        uses.register(Role::Index, w);
    }
}

/// Plans and prepares the next entry of a state, or the table instruction of an interrupt by the
/// indicator in `table`, and notes the words that it uses until its address is formed. The old
/// value of `unit` is ignored. Of the facts only the index-side word is valid if they are not
/// wanted. The ticks of the issue state are close together, as they are in a
/// run (`IsTight`), and `uses` has room for six more words: at most four instruction words and the
/// index-side word come here.
#[inline(always)]
pub fn begin(
    unit: &mut FetchUnit,
    table: Option<u8>,
    before: &Before<'_, '_>,
    log: &mut Log,
    uses: &mut Uses,
) -> Begun
    requires indicator { IsIndicatorIfAny table }
    requires tight { IsTight MOST_DELAY before.now.issue.now }
    requires early { before.now.issue.now.c ≤ 2 ^ 63 + 2 ^ 20 }
    requires space { length uses.old.items + 6 ≤ 48 }

    // The entry.
    ensures plan { unit.new.prepared ≡ plan_of before.now.state.now table }
    ensures ranges { IsPrepared unit.new.prepared }
    ensures entry { unit.new.entry ≡ entry_of table before.now.state.now }
    ensures in_time { IsEntryInTime unit.new.entry }
    ensures machine { IsMachine before.now.state.now }
    ensures side { result.known.side ≡ side_at table before.now.state.now }
    ensures known { before.now.facts ≡ true →
        result.known ≡ known_at table before.now.state.now }

    // Its ticks.
    ensures formed { unit.new.formed ≡ result.formed }
    ensures address { let b = before.now in let t = b.timing.now in
        result.formed.a ≡ tick_a t.delays.now.list b.issue.now unit.new.entry }
    ensures tick { let b = before.now in let t = b.timing.now in
        result.formed.p ≡ tick_p t.delays.now.list t.levels b.issue.now unit.new.entry }
    ensures bus { let b = before.now in let t = b.timing.now in
        unit.new.words.bus ≡ bus_a t.delays.now.list b.issue.now unit.new.entry }
    ensures wait { let b = before.now in let t = b.timing.now in
        result.level_wait ≡ level_wait_of t.delays.now.list t.levels b.issue.now unit.new.entry }

    // The words that it uses.
    ensures log { let b = before.now in let t = b.timing.now in
        log.new ≡ log_after_reads t.delays.now.list
        (formed_asked t.delays.now.list b.issue.now unit.new.entry) b.issue.now.bus log.old }
    ensures uses { let b = before.now in let t = b.timing.now in
        uses.new.items ≡ uses.old.items
        ++ formed_uses t.delays.now.list b.issue.now unit.new.entry result.known.side }
    ensures noted { length uses.new.items ≤ length uses.old.items + 6 }
{
    let state = before.state;
    let index = index_words_in(state);
    let context = PlanContext {
        timing: *before.timing,
        state,
        issue: before.issue,
        index,
    };
    unit.plan(table, &context, log, uses);
    let known = known_if(before.facts, unit, table, index, state);
    note_side(uses, known.side);
    let formed = unit.formed;
    let level_wait = level_wait(
        before.issue,
        before.timing,
        &unit.entry,
        formed.a,
        &unit.words.bus,
    );
    Begun {
        known,
        formed,
        level_wait,
    }
}

// The registers among the operand words of an entry, which come first in each run; `read` has the
// words of storage among them.
fn registers_among(all: &Words, read: &WordRuns) -> WordRuns
    ensures { result ≡ registers_among_of all.now read.now }
{
    WordRuns {
        one: WordRun {
            first: all.first,
            len: all.len.saturating_sub(read.one.len),
        },
        two: WordRun {
            first: all.first2,
            len: all.len2.saturating_sub(read.two.len),
        },
    }
}

/// Completes the row of an entry that `begin` has planned, and notes the words that it uses from
/// its preparation on. The issue state is left as it is before the entry; `pass` advances it.
/// `unit` is as `begin` left it, and `uses` has room for 34 more words: 32 operand words, and two
/// that are prefetched.
#[inline(always)]
pub fn fill(
    issue: &IssueState,
    unit: &mut FetchUnit,
    timing: &Timing<'_>,
    log: &mut Log,
    uses: &mut Uses,
) -> EntryTicks
    requires entry { IsEntryInTime unit.old.entry }
    requires tight { IsTight MOST_DELAY issue.now }
    requires early { issue.now.c ≤ 2 ^ 63 + 2 ^ 20 }
    requires address { let t = timing.now in
        unit.old.formed.a ≡ tick_a t.delays.now.list issue.now unit.old.entry }
    requires tick { let t = timing.now in
        unit.old.formed.p ≡ tick_p t.delays.now.list t.levels issue.now unit.old.entry }
    requires bus { let t = timing.now in
        unit.old.words.bus ≡ bus_a t.delays.now.list issue.now unit.old.entry }
    requires runs { IsRuns unit.old.prepared.reads }
    requires space { length uses.old.items + 34 ≤ 48 }

    ensures value { let t = timing.now in
        result ≡ row_of t.delays.now.list t.levels issue.now unit.old.entry }
    ensures after { let t = timing.now in
        unit.new.words.bus ≡ (after_of t.delays.now.list t.levels issue.now unit.old.entry).bus }
    ensures log { let t = timing.now in
        (before : List Made) → log.old ≡ log_after_reads t.delays.now.list
        (formed_asked t.delays.now.list issue.now unit.old.entry) issue.now.bus before →
        log.new ≡ log_after_reads t.delays.now.list
        (asked_of t.delays.now.list t.levels issue.now unit.old.entry) issue.now.bus before }
    ensures uses { let t = timing.now in
        uses.new.items ≡ uses.old.items ++ prepared_uses t.delays.now.list t.levels
        issue.now unit.old.entry unit.old.prepared.reads }
    ensures kept { unit.new ≡ record unit.old { words = unit.new.words } }
{
    let registers = registers_among(&unit.prepared.reads, &unit.entry.reads);
    let next = FormedEntry {
        entry: &unit.entry,
        timing,
        formed: unit.formed,
        registers,
    };
    issue.fill(&next, &mut unit.words, log, uses).row
}

/// Advances the issue state over an entry with the given row; `unit` is as `fill` left it.
pub fn pass(issue: &mut IssueState, unit: &FetchUnit, row: &EntryTicks)
    ensures { (ds : List ℕ) (n : ℕ) → row.now ≡ row_of ds n issue.old unit.now.entry →
        unit.now.words.bus ≡ (after_of ds n issue.old unit.now.entry).bus →
        issue.new ≡ after_of ds n issue.old unit.now.entry }
{
    issue.pass(&unit.entry, row, &unit.words.bus);
}

/// Completes the row of an entry as `fill` does, and advances the issue state as `pass` does.
pub fn finish(
    issue: &mut IssueState,
    unit: &mut FetchUnit,
    timing: &Timing<'_>,
    log: &mut Log,
    uses: &mut Uses,
) -> EntryTicks
    requires entry { IsEntryInTime unit.old.entry }
    requires tight { IsTight MOST_DELAY issue.old }
    requires early { issue.old.c ≤ 2 ^ 63 + 2 ^ 20 }
    requires address { let t = timing.now in
        unit.old.formed.a ≡ tick_a t.delays.now.list issue.old unit.old.entry }
    requires tick { let t = timing.now in
        unit.old.formed.p ≡ tick_p t.delays.now.list t.levels issue.old unit.old.entry }
    requires bus { let t = timing.now in
        unit.old.words.bus ≡ bus_a t.delays.now.list issue.old unit.old.entry }
    requires runs { IsRuns unit.old.prepared.reads }
    requires space { length uses.old.items + 34 ≤ 48 }

    ensures value { let t = timing.now in
        result ≡ row_of t.delays.now.list t.levels issue.old unit.old.entry }
    ensures after { let t = timing.now in
        issue.new ≡ after_of t.delays.now.list t.levels issue.old unit.old.entry }
    ensures log { let t = timing.now in
        (before : List Made) → log.old ≡ log_after_reads t.delays.now.list
        (formed_asked t.delays.now.list issue.old unit.old.entry) issue.old.bus before →
        log.new ≡ log_after_reads t.delays.now.list
        (asked_of t.delays.now.list t.levels issue.old unit.old.entry) issue.old.bus before }
    ensures uses { let t = timing.now in
        uses.new.items ≡ uses.old.items ++ prepared_uses t.delays.now.list t.levels
        issue.old unit.old.entry unit.old.prepared.reads }
    ensures tight { IsTight MOST_DELAY issue.new }
    ensures bound { issue.new.c ≤ issue.old.c + most_ticks_of_entry }
    ensures kept { unit.new ≡ record unit.old { words = unit.new.words } }
{
    let row = fill(&*issue, unit, timing, log, uses);
    pass(issue, &*unit, &row);
    row
}

/// The row of an entry, with its wait for a level.
#[derive(Clone, Copy, Debug, Default, PartialEq, Eq)]
pub struct WaitedRow {
    /// The ticks of the row.
    pub ticks: EntryTicks,
    /// For how many ticks the entry waited for a level before it was prepared.
    pub level_wait: u64,
}
