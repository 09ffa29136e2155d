//! The sums over the rows of a run, by card and by reason. docs/ledger.md has the tables ("Totals
//! and tables"). `st_account` makes `Tables` with `new` (program.rt) and adds each completed entry
//! with `add` (tallying.rt); writing.rt writes them. Sums are ticks and numbers of rows. Each row is
//! added to one slot, that of its card; totals.rt adds up all slots.
//!
//! Proved: after each `add` the tables are the sums over one row more (clause `tally`, `IsTally` in
//! specs/Tally.antt), and no sum overflows (`within`). Laws in specs/Laws.antt:
//! `HeadingsShareTheRowsWithReasons`, and `CardsShareTheRows`, which needs a place for each card;
//! the law `RowsComeFromTheCards` of `st_causes` (specs/CardLaws.antt there) gives the place.
//!
//! Pinned, by `IsTally`: index 0 is the sum of rows without a card; a row whose card has no place
//! is in `others`, of which no line is written. Free: the bodies, if proofs/tables follows.
ghost use Rattle.std.specs.Prelude.{◌≡◌, ◌≢◌, ◌+◌, ◌≤◌, ◌<◌, ◌^◌, ◌∷◌, ◌++◌, [], ℕ, List, true, if◌then◌else◌, length, get_or, IfOk};
ghost use Rattle.st_ledger.specs.Words.{AreWordsInTime};
ghost use Rattle.st_tally.specs.Headings.{heading_number, heading_at as heading_for};
ghost use Rattle.st_tally.specs.declared.headings.Heading.{Heading};
ghost use Rattle.st_tally.specs.Tally.{TalliedRow, card_by_origin, late_by as late_for, no_card_sum, no_reason_sum, IsTally};
ghost use Rattle.st_tally.specs.Slots.{IsCardSumWithin, IsReasonSumWithin, AreTablesWithin, AreTablesOfNone, IsInOrder, OnlyExecutes, AddsCard, with_entry, with_reason};

use crate::headings::{HEADINGS, heading_at};
use st_bits::NoMemory;
use st_ledger::{StallCause, Totals, WaitTotals, Waits};
use st_lines::{EntryDone, Origin, Why, add_waits};
use st_rows::Use;
use std::alloc::Global;

/// The sums over the rows of one card.
#[derive(Clone, Copy, Debug, Default, PartialEq, Eq)]
pub struct CardSum {
    /// The number of rows.
    pub rows: u64,
    /// Their ticks by stage.
    pub sums: Totals,
    /// The ticks of their waits.
    pub waits: WaitTotals,
}

/// The sums over the rows whose reasons have one heading.
#[derive(Clone, Copy, Debug, Default, PartialEq, Eq)]
pub struct ReasonSum {
    /// The number of rows.
    pub rows: u64,
    /// The ticks that they lost.
    pub ticks: u64,
    /// The ticks by which they were later for their reasons, at most those that they lost.
    pub late: u64,
}

/// The tables of a run.
#[derive(Drop)]
pub struct Tables {
    /// The sums of each card by its number; at 0 those of the rows that come from no card.
    pub cards: Vec<CardSum>,
    /// The sums of the rows whose card has no place in `cards`; no run has such rows.
    pub others: CardSum,
    /// The sums of each heading, in the order of the headings.
    pub reasons: [ReasonSum; HEADINGS],
    /// The number of mispredicted branches.
    pub mispredicted: u64,
    /// The number of rows that waited for a level.
    pub level_rows: u64,
    /// The ticks for which they waited for it.
    pub level_ticks: u64,
}

// Whether an entry only executes: its other stages end before its charges begin.
fn only_executes(done: &EntryDone) -> bool
    ensures { result ≡ true → OnlyExecutes done.now }
{
    let ticks = &done.row.ticks;
    done.start.max(ticks.a).max(ticks.p).max(ticks.r) <= done.before
}

// Adds an entry with its waits to the sums of a card; `waits` lends its room.
#[inline(always)]
fn add_to_card(
    executes: bool,
    sum: &mut CardSum,
    done: &EntryDone,
    uses: &[Use],
    before: &[Use],
    waits: &mut Waits,
)
    requires executes { executes ≡ true → OnlyExecutes done.now }
    requires order { IsInOrder done.now }
    requires within { IsCardSumWithin done.now.before sum.old }
    requires used { AreWordsInTime uses.now }
    requires earlier { AreWordsInTime before.now }
    ensures { AddsCard done.now uses.now before.now sum.old sum.new }
{
    let row = &done.row.ticks;
    sum.rows += 1;
    if executes {
        sum.sums.executing += row.c - done.before;
        return;
    }
    sum.sums.add_row(row, done.before, done.start);
    add_waits(
        done.before,
        done.start,
        row,
        uses,
        before,
        waits,
        &mut sum.waits,
    );
}

// The number of the card that an entry comes from; 0 without one.
fn card_of(origin: Option<Origin>) -> u32
    ensures { result ≡ card_by_origin origin }
{
    match origin {
        Some(origin) => origin.card,
        None => 0,
    }
}

// Adds an entry with its waits to the sums of its card, or to those of the other rows if the table
// does not have that card; `waits` lends its room.
fn add_card(
    cards: &mut Vec<CardSum>,
    others: &mut CardSum,
    done: &EntryDone,
    uses: &[Use],
    before: &[Use],
    waits: &mut Waits,
)
    requires order { IsInOrder done.now }
    requires within { (k : ℕ) → k < length cards.old.items →
        IsCardSumWithin done.now.before (get_or cards.old.items k no_card_sum) }
    requires rest { IsCardSumWithin done.now.before others.old }
    requires used { AreWordsInTime uses.now }
    requires earlier { AreWordsInTime before.now }

    ensures size { length cards.new.items ≡ length cards.old.items }
    ensures own { let k = card_by_origin done.now.origin in
        k < length cards.old.items → AddsCard done.now uses.now before.now
        (get_or cards.old.items k no_card_sum) (get_or cards.new.items k no_card_sum) }
    ensures others { (k : ℕ) → k ≢ card_by_origin done.now.origin →
        get_or cards.new.items k no_card_sum ≡ get_or cards.old.items k no_card_sum }
    ensures kept { card_by_origin done.now.origin < length cards.old.items →
        others.new ≡ others.old }
    ensures rest { length cards.old.items ≤ card_by_origin done.now.origin →
        AddsCard done.now uses.now before.now others.old others.new }
{
    let executes = only_executes(done);
    let k = card_of(done.origin) as usize;
    if k < cards.len() {
        add_to_card(executes, &mut cards[k], done, uses, before, waits);
        return;
    }
    add_to_card(executes, others, done, uses, before, waits);
}

// The ticks by which an entry that lost some ticks was later for its cause, at most these.
fn late_by(because: &StallCause, lost: u64) -> u64
    ensures { result ≡ late_for because.now lost }
{
    match because {
        StallCause::Start(_) => lost,
        StallCause::Prefetch(asked) => asked.late.min(lost),
        StallCause::Earlier(cause) => cause.late.min(lost),
    }
}

// Adds an entry to the sums of a heading.
fn add_to_reason(sum: &mut ReasonSum, done: &EntryDone)
    requires order { IsInOrder done.now }
    requires within { IsReasonSumWithin done.now.before sum.old }
    ensures { sum.new ≡ with_entry done.now sum.old }
{
    let lost = done.row.ticks.r.saturating_sub(done.before);
    sum.rows += 1;
    sum.ticks += lost;
    sum.late += late_by(&done.because, lost);
}

// Adds an entry to the sums of the heading of its reason, if it has one.
#[tactic(auto, unfolding(crate::specs::Headings::heading_at))]
fn add_reason(reasons: &mut [ReasonSum; HEADINGS], why: Why, done: &EntryDone)
    requires order { IsInOrder done.now }
    requires within { (h : Heading) → IsReasonSumWithin done.now.before
        (get_or reasons.old (heading_number h) no_reason_sum) }
    ensures size { length reasons.old ≡ 11 }
    ensures value { reasons.new ≡ with_reason (heading_for why done.now) done.now reasons.old }
{
    if let Some(heading) = heading_at(why, done) {
        add_to_reason(&mut reasons[heading.place()], done);
    }
}

/// The sums of a card.
pub(crate) fn sum_at(cards: &Vec<CardSum>, k: usize) -> &CardSum
    requires { k < length cards.now.items }
    ensures { result.now ≡ get_or cards.now.items k no_card_sum }
{
    &cards[k]
}

// The tables of no rows, for the cards 1 to `cards`.
fn no_tables(alloc: Global, cards: u32) -> Result<Tables, NoMemory>
    ensures size { IfOk result (λ t. length t.cards.items ≡ cards + 1) }
    ensures none { IfOk result AreTablesOfNone }
{
    let Ok(cards) = vec![in alloc; CardSum::default(); cards as usize + 1] else {
        return Err(NoMemory);
    };
    Ok(Tables {
        cards,
        others: CardSum::default(),
        reasons: [ReasonSum::default(); HEADINGS],
        mispredicted: 0,
        level_rows: 0,
        level_ticks: 0,
    })
}

// 1 if the test holds, or else 0.
fn one_if(test: bool) -> u64
    ensures value { result ≡ (if test then 1 else 0) }
    ensures most { result ≤ 1 }
{
    if test { 1 } else { 0 }
}

impl Tables {
    /// The tables of no rows, for the cards 1 to `cards`.
    pub fn new(alloc: Global, cards: u32) -> Result<Tables, NoMemory>
        ensures size { IfOk result (λ t. length t.cards.items ≡ cards + 1) }
        ensures tally { IfOk result (IsTally []) }
        ensures within { IfOk result (AreTablesWithin 0) }
        ensures levels { IfOk result (λ t. t.level_ticks ≡ 0) }
    {
        no_tables(alloc, cards)
    }

    /// Adds a completed entry, whose segment begins for the reason `why`. The entry uses the words
    /// `uses`, and the entry before it in its segment the words `before`; `waits` lends its room. Of
    /// the entry neither number, address, end of the segment nor the KEPT of its line LAID matter,
    /// and its cause only if it lost ticks. No number may be greater than the tick at which the entry
    /// before completed, except the ticks of waits for a level.
    pub fn add(
        &mut self,
        done: &EntryDone,
        why: Why,
        uses: &[Use],
        before: &[Use],
        waits: &mut Waits,
    )
        requires order { IsInOrder done.now }
        requires ticks { self.old.level_ticks + done.now.row.level_wait < 2 ^ 64 }
        requires within { AreTablesWithin done.now.before self.old }
        requires used { AreWordsInTime uses.now }
        requires earlier { AreWordsInTime before.now }

        ensures tally { (xs : List TalliedRow) → IsTally xs self.old → IsTally (xs
            ++ record { done = done.now; why = why; uses = uses.now; before = before.now } ∷ [])
            self.new }
        ensures size { length self.new.cards.items ≡ length self.old.cards.items }
        ensures ticks { self.new.level_ticks ≡ self.old.level_ticks + done.now.row.level_wait }
        ensures within { AreTablesWithin done.now.row.ticks.c self.new }
    {
        add_card(&mut self.cards, &mut self.others, done, uses, before, waits);
        add_reason(&mut self.reasons, why, done);
        self.mispredicted += one_if(done.mispredicted);
        self.level_rows += one_if(done.row.level_wait != 0);
        self.level_ticks += done.row.level_wait;
    }
}
