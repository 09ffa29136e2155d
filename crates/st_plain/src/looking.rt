//! The predicted entries after a state: those that an overlapped machine has in flight when the
//! last entry completes, and the first one that came too late. Ticks are those of the run.
//! docs/timetable.md has the rules. `st_account` (behind.rt) calls `look` at the end of a segment,
//! and `st_lines` writes the flushed entries. `look` makes predicted steps on the state itself, and
//! undoes them (`st_back`), so no copy of storage is needed.
//!
//! Proved, by the clauses of `look`: the entries in flight are those of `prepared_before`
//! (`st_segment`), the late one that of `first_late` (specs/Looking.antt), both as `seen_ahead`
//! (specs/Looking.antt); log and bus have their reads, of the late one those up to its address; the
//! state is unchanged. `prediction` is `predicted_state` of `st_exec`.
//!
//! Pinned, by `seen_ahead`, docs/ledger.md and vectors/ledger/lines.txt: which entries are found,
//! at most as many as there are levels; by `st_account` and `st_lines`: the fields of `FoundAhead`,
//! `Reach` and `Ahead`. Free: the recursion, if proofs/looking follows.
ghost use Rattle.std.specs.Prelude.{◌≡◌, suc, ◌+◌, ◌-◌, ◌*◌, ◌≤◌, ◌<◌, ◌^◌, ◌∷◌, ◌++◌, [], map, length, None};
ghost use Rattle.st_bits.specs.declared.limits.TheConstants.{MOST_DELAY};
ghost use Rattle.st_state.specs.Machine.{IsMachine};
ghost use Rattle.st_prep.specs.Ranges.{IsPrepared};
ghost use Rattle.st_exec.specs.Completion.{predicted_state};
ghost use Rattle.st_rows.specs.Asked.{bus_after_reads};
ghost use Rattle.st_rows.specs.Notes.{log_after_reads};
ghost use Rattle.st_rows.specs.Ranges.{IsTight, most_ticks_of_entry};
ghost use Rattle.st_rows.specs.Rows.{done_before};
ghost use Rattle.st_segment.specs.Ahead.{ahead as ahead_of, prepared_before};
ghost use Rattle.st_plain.specs.Looking.{seen_ahead, first_late, reads_up_to};

use crate::known::Known;
use crate::rows::{Before, begin, finish};
use arrayvec::ArrayVec;
use st_back::{keep, undo};
use st_exec::complete_in;
use st_next::FetchUnit;
use st_prep::{Prepared, place_of};
use st_rows::{EntryTicks, IssueState, Log, Timing, Uses};
use st_state::State;

/// A predicted entry.
#[derive(Debug, Default, Drop)]
pub struct Ahead {
    /// The prepared entry.
    pub plan: Prepared,
    /// The ticks of its row.
    pub row: EntryTicks,
    /// The other facts of the entry.
    pub known: Known,
    /// The words that the entry uses.
    pub uses: Uses,
}

/// Makes the predicted step of a prepared entry: a branch on an indicator is not taken. Fewer than
/// 2^63 instructions are completed before.
pub fn prediction(p: &Prepared, state: &mut State)
    requires prepared { IsPrepared p.now }
    requires few { state.old.done < 2 ^ 63 }
    ensures { state.new ≡ predicted_state p.now state.old }
{
    complete_in(p, state);
    if !p.serial {
        state.ic = p.following;
    }
}

/// How far to look for predicted entries.
#[derive(Clone, Copy)]
pub struct Reach<'a> {
    /// The delays and the number of levels of the machine.
    pub timing: &'a Timing<'a>,
    /// The largest number of entries to find, at most the number of levels.
    pub more: usize,
    /// The tick before which they are prepared.
    pub tick: u64,
    pub ghost left: { more ≤ timing.now.levels },
}

/// The predicted entries that are found.
#[derive(Debug, Default, Drop)]
pub struct FoundAhead {
    /// The entries that are prepared in time, oldest first; at most as many as there are levels.
    pub found: ArrayVec<Ahead, 8>,
    /// The entry after them, with the ticks that it would have.
    pub late: Ahead,
}

/// Adds to `ahead.found` the predicted entries after a state that are prepared before `reach.tick`,
/// at most `reach.more`. Their reads, and those of the entry after them up to its address, are made
/// on the bus of `issue` and noted in `log`. The entry before the state completes at that tick or
/// later. If `reach.more` is less than the number n of levels, the entry n - `reach.more` before
/// the next one does so too. The state is unchanged afterwards; of `issue` only the bus is valid.
/// The ticks of `issue` are close together, as they are in a run (`IsTight`), and so early that no
/// tick of the entries to find overflows.
pub fn look(
    state: &mut State,
    issue: &mut IssueState,
    reach: &Reach<'_>,
    log: &mut Log,
    ahead: &mut FoundAhead,
)
    requires few { state.old.done + reach.now.more < 2 ^ 63 }
    requires tight { IsTight MOST_DELAY issue.old }
    requires early { issue.old.c + most_ticks_of_entry * reach.now.more ≤ 2 ^ 63 + 2 ^ 20 }
    requires late { reach.now.tick ≤ issue.old.c }
    requires first { let n = reach.now.timing.now.levels in reach.now.more < n →
        reach.now.tick ≤ done_before (n - reach.now.more) issue.old.past }
    requires space { length ahead.old.found.items + reach.now.more ≤ 8 }

    ensures state { state.new ≡ state.old }
    ensures machine { IsMachine state.new }
    ensures found { let r = reach.now in let t = r.timing.now in let ds = t.delays.now.list in
        ahead.new.found.items ≡ ahead.old.found.items
        ++ map (seen_ahead ds t.levels) (prepared_before r.tick
        (ahead_of ds t.levels r.more None state.old issue.old)) }
    ensures late { let r = reach.now in let t = r.timing.now in let ds = t.delays.now.list in
        ahead.new.late ∷ [] ≡ map (seen_ahead ds t.levels) (first_late r.tick
        (ahead_of ds t.levels (suc r.more) None state.old issue.old)) }
    ensures log { let r = reach.now in let t = r.timing.now in let ds = t.delays.now.list in
        log.new ≡ log_after_reads ds (reads_up_to ds t.levels r.tick
        (ahead_of ds t.levels (suc r.more) None state.old issue.old)) issue.old.bus log.old }
    ensures bus { let r = reach.now in let t = r.timing.now in let ds = t.delays.now.list in
        issue.new.bus ≡ bus_after_reads ds (reads_up_to ds t.levels r.tick
        (ahead_of ds t.levels (suc r.more) None state.old issue.old)) issue.old.bus }
{
    let place = place_of(state, None);
    let mut unit = FetchUnit::new(place, issue.bus);
    let mut uses = Uses::new();
    let before = Before {
        state,
        issue,
        timing: reach.timing,
        facts: true,
    };
    let begun = begin(&mut unit, None, &before, log, &mut uses);
    let p = unit.prepared;
    if begun.formed.p >= reach.tick {
        let mut scratch = Log::new();
        let bus = unit.words.bus;
        let ticks = finish(issue, &mut unit, reach.timing, &mut scratch, &mut uses);
        ahead.late = Ahead {
            plan: p,
            row: ticks,
            known: begun.known,
            uses,
        };
        issue.bus = bus;
        return;
    }
    let row = finish(issue, &mut unit, reach.timing, log, &mut uses);
    ahead.found.push(Ahead {
        plan: p,
        row,
        known: begun.known,
        uses,
    });
    let further = Reach {
        timing: reach.timing,
        more: reach.more - 1,
        tick: reach.tick,
    };
    let kept = keep(&p, state);
    prediction(&p, state);
    look(state, issue, &further, log, ahead);
    undo(&kept, state);
}
