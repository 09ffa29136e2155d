//! The two halves of a step of the ledger: `count_on` computes the row of the next entry
//! (instruction), `execute` executes it. docs/timetable.md has the rules of rows, docs/ledger.md
//! the lines. account.rt calls these functions. C, the tick of completion, is at most 2^63 for the
//! last entry; segments and rows are numbered from 1.
//!
//! Proved: the row, the words and the wait are `row_of_entry` (specs/Rows.antt of `st_rows`),
//! `uses_of_entry` and `level_wait` (specs of `st_plain`) for the next entry of the state, and the
//! state after it is that of a step. The cause is `because` (specs/Reasons.antt of `st_ledger`) if
//! the lines are wanted or the entry lost ticks; nothing else shows it.
//!
//! Pinned: that the row is computed before the entry is executed, by the clauses of `execute`,
//! since a row is about the state before; the rows, by docs/timetable.md and vectors/ledger. Free:
//! the bodies, if proofs/stepping follows.
ghost use Rattle.std.specs.Prelude.{Option, ℕ, ◌≡◌, ◌+◌, ◌<◌, ◌≤◌, ◌^◌, ◌||◌, [], length, take, not, nat_eq, if◌then◌else◌, is_some, option_map, Some, None, true};
ghost use Rattle.st_bits.specs.Indicators.{IsIndicatorIfAny};
ghost use Rattle.st_bits.specs.declared.limits.TheConstants.{MOST_INSTRUCTIONS};
ghost use Rattle.st_prep.specs.Plan.{plan as plan_of};
ghost use Rattle.st_prep.specs.Ranges.{IsPrepared};
ghost use Rattle.st_exec.specs.Completion.{state_after_execution, prediction as prediction_of, is_mispredicted as is_mispredicted_of};
ghost use Rattle.st_plain.specs.Looking.{known_at};
ghost use Rattle.st_ledger.specs.Reasons.{because as because_of};
ghost use Rattle.st_rows.specs.Notes.{log_after_reads};
ghost use Rattle.st_rows.specs.Rows.{reads_of_entry as asked_of};
ghost use Rattle.st_segment.specs.Entries.{entry as entry_of};
ghost use Rattle.st_account.specs.Text.{why_by};
ghost use Rattle.st_account.specs.Rounds.{HasRow, HasCause};
ghost use Rattle.st_account.specs.Standing.{predicting, still_by, IsOpen};
ghost use Rattle.st_lines.specs.declared.lines.Why.TheVariants.{Run as RunBegins};
ghost use Rattle.st_state.specs.Machine.{IsMachine};

use crate::last::Last;
use crate::uses::UsesInTurn;
use st_card::Signal;
use st_exec::{complete_in, interrupt, is_mispredicted};
use st_ledger::{StallCause, find_reason};
use st_lines::{Changeable, Why};
use st_plain::{Before, Begun, Known, WaitedRow, begin, fill, pass};
use st_prep::Prepared;
use st_rows::{Entry, IssueState, Log, Past, Timing};
use st_run::plain::{is_signal_due, printer_is_free, reader_is_free};
use st_state::{State, is_enabled};

/// Why a segment begins: the run begins, an interrupt is taken, an entry was mispredicted, or a
/// card was read, the first that applies.
pub(crate) fn why_of(first: bool, taken: Option<u8>, mispredicted: bool) -> Why
    ensures { result ≡ (if first then RunBegins else why_by taken mispredicted) }
{
    if first {
        return Why::Run;
    }
    match taken {
        Some(i) => Why::Interrupt(i),
        None => {
            if mispredicted {
                Why::Mispredicted
            } else {
                Why::Card
            }
        }
    }
}

/// Whether a segment ends.
pub(crate) fn is_end(mispredicted: bool, card: bool, waited: bool, taken: Option<u8>) -> bool
    ensures { result ≡ (mispredicted || card || waited || is_some taken) }
{
    mispredicted || card || waited || taken.is_some()
}

/// The tick at which a segment ends, if it does.
pub(crate) fn end_of(ends: bool, tick: u64) -> Option<u64>
    ensures { result ≡ (if ends then Some tick else None) }
{
    if ends { Some(tick) } else { None }
}

/// Whether no event comes between the last entry and the next one, and the prediction was right.
pub(crate) fn is_still(state: &State, mispredicted: bool, signals: &[Signal]) -> bool
    ensures { result ≡ still_by state.now mispredicted signals.now }
{
    let taken = interrupt(state);
    let signal = is_signal_due(signals, state.done);
    !mispredicted
        && !signal
        && reader_is_free(state)
        && printer_is_free(state)
        && !state.waiting
        && taken.is_none()
}

/// Whether the entries that ran ahead must be determined: if a segment or the run may end.
pub(crate) fn is_end_near(left: u64, still: bool) -> bool
    ensures { result ≡ (nat_eq left 0 || not still) }
{
    left == 0 || !still
}

// Whether the cause that delayed an entry is wanted: for its lines, or since the entry lost ticks,
// which a table has.
fn is_wanted(facts: bool, before: u64, r: u64) -> bool
    ensures facts { facts ≡ true → result ≡ true }
    ensures lost { before < r → result ≡ true }
{
    facts || before < r
}

// Finds the cause that delayed an entry, if it is wanted; the first `formed` of its words come
// until its address is formed.
fn find_if(
    wanted: bool,
    issue: &IssueState,
    entry: &Entry,
    begun: &Begun,
    uses: &UsesInTurn,
    formed: usize,
    because: &mut StallCause,
)
    requires { formed ≤ length uses.now.items }
    ensures { wanted ≡ true → because.new ≡ because_of issue.now entry.now
        begun.now.formed.a begun.now.formed.p begun.now.level_wait (take formed uses.now.items)
        uses.now.before }
{
    if wanted {
        let words = uses.as_slice();
        *because = find_reason(issue, entry, begun, &words[..formed], uses.before());
    }
}

// Keeps the facts of an entry that its lines need, if they are wanted.
fn keep_if(wanted: bool, known: &Known, kept: &mut Known)
    ensures { wanted ≡ true → kept.new ≡ known.now }
{
    if wanted {
        *kept = *known;
    }
}

/// Computes the row of the next entry and the facts after it; those that only its lines have, if
/// `facts` is set. Without them the cause of delay is valid only if the entry lost ticks.
#[tactic(auto, unfolding(st_plain::specs::Uses::uses_of_entry), using(st_bits::specs::Storage::words_of_storage_is))]
pub(crate) fn count_on(
    state: &State,
    taken: Option<u8>,
    timing: &Timing<'_>,
    facts: bool,
    last: &mut Last,
    log: &mut Log,
)
    requires indicator { IsIndicatorIfAny taken }
    requires opened { IsOpen last.old }
    requires early { last.old.issue.c ≤ 2 ^ 63 }

    ensures row { HasRow timing.now.delays.now.list timing.now.levels taken state.now last.old
        last.new }
    ensures known { facts ≡ true → last.new.known ≡ known_at taken state.now }
    ensures because { facts ≡ true →
        HasCause timing.now.delays.now.list taken state.now last.old last.new }
    ensures lost { last.new.done.before < last.new.done.row.ticks.r →
        HasCause timing.now.delays.now.list taken state.now last.old last.new }
    ensures log { log.new ≡ log_after_reads timing.now.delays.now.list
        (asked_of timing.now.delays.now.list timing.now.levels last.old.issue
        (entry_of taken state.now)) last.old.issue.bus [] }
{
    log.clear();
    let before = Before {
        state: &*state,
        issue: &last.issue,
        timing: &*timing,
        facts,
    };
    let uses = last.uses.turn();
    let begun = begin(&mut last.unit, taken, &before, log, uses);
    let formed = uses.as_slice().len();
    let level_wait = begun.level_wait;
    let ticks = fill(&last.issue, &mut last.unit, timing, log, uses);
    find_if(
        is_wanted(facts, last.done.before, ticks.r),
        &last.issue,
        &last.unit.entry,
        &begun,
        &last.uses,
        formed,
        &mut last.done.because,
    );
    pass(&mut last.issue, &last.unit, &ticks);
    last.past.put(Past {
        c: ticks.c,
        writes: last.unit.entry.writes,
    });
    last.tick = ticks.c;
    last.done.row = WaitedRow { ticks, level_wait };
    keep_if(facts, &begun.known, &mut last.known);
}

// The instruction counter by the prediction of a completed entry with the preparation `p`.
fn predicted_counter(p: &Prepared, state: &State) -> u32
    requires counter { p.now.following < 2 ^ 19 }
    ensures value { result ≡ (if p.now.serial then state.now.ic else p.now.following) }
    ensures below { result < 2 ^ 19 }
{
    if p.serial { state.ic } else { p.following }
}

/// Executes the next entry, whose preparation is in `last`.
pub(crate) fn execute(state: &mut State, last: &mut Last)
    requires prepared { IsPrepared last.old.unit.prepared }
    requires few { state.old.done < 2 ^ 63 }

    ensures state { (taken : Option ℕ) → last.old.unit.prepared ≡ plan_of state.old taken →
        state.new ≡ state_after_execution taken state.old }
    ensures prediction { (taken : Option ℕ) → last.old.unit.prepared ≡ plan_of state.old taken →
        predicting last.new.ic state.new ≡ prediction_of taken state.old }
    ensures counter { last.new.ic < 2 ^ 19 }
    ensures rest { last.new ≡ record last.old {
      done = record last.old.done {
        mispredicted = is_mispredicted_of last.old.unit.prepared state.old;
      };
      ic = last.new.ic;
      enabled = state.old.enabled;
    } }
{
    last.enabled = is_enabled(state);
    last.done.mispredicted = is_mispredicted(&last.unit.prepared, state);
    complete_in(&last.unit.prepared, state);
    last.ic = predicted_counter(&last.unit.prepared, state);
}

/// The number of the next row.
pub(crate) fn row_number(state: &State) -> u32
    requires { state.now.done ≤ MOST_INSTRUCTIONS }
    ensures number { result ≡ state.now.done + 1 }
    ensures machine { IsMachine state.now }
{
    state.done as u32 + 1
}

/// The number of the segment of the next entry.
pub(crate) fn next_number(begins: bool, k: u32) -> u32
    requires { k + 1 < 2 ^ 32 }
    ensures { result ≡ (if begins then k + 1 else k) }
{
    if begins { k + 1 } else { k }
}

// The address of the area into which the reader may read a card, if it has an order.
fn card_area(state: &State) -> Option<u32>
    ensures { result ≡ option_map (λ order. order.word) state.now.reader }
{
    match state.reader {
        Some(order) => Some(order.word),
        None => None,
    }
}

/// The words that may change after an entry with the preparation `p` that has left a state.
pub(crate) fn changeable(p: &Prepared, state: &State) -> Changeable
    ensures { result ≡ record {
      writes = p.now.writes;
      card = option_map (λ order. order.word) state.now.reader;
    } }
{
    Changeable {
        writes: p.writes,
        card: card_area(state),
    }
}
