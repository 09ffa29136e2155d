//! The test whether a run is hazard-free (`CALM` in the output of `sweep`), made on the plain run.
//! docs/timetable.md has the conditions.
//!
//! sweeping.rt calls `run_plain`, `are_equal` and `both`; no other module does. The run takes
//! signals but no cards; the budget is at most 10,000,000 instructions. A run is hazard-free if all
//! delays are equal, no interrupt is taken, a wait only ends the run, no branch is mispredicted,
//! and no entry reads data that an earlier one writes.
//!
//! Proved: the result of `run_plain` is `is_hazard_free_behind` of specs/HazardFree.antt (clause
//! `hazard_free`), and `is_hazard_free` of that file joins the result with equal delays.
//!
//! Pinned, by specs/HazardFree.antt and docs/timetable.md: these conditions, one by one. Free: how
//! written words are marked (written.rt).
ghost use Rattle.std.specs.Prelude.{◌≡◌, ◌==◌, ◌+◌, ◌≤◌, ◌<◌, ◌^◌, ◌&&◌, List, [], ◌∷◌, false};
ghost use Rattle.std.specs.List.{AllPass, list_all};
ghost use Rattle.st_bits.specs.declared.limits.TheConstants.{MOST_INSTRUCTIONS};
ghost use Rattle.st_card.specs.Limits.{is_signal};
ghost use Rattle.st_exec.specs.Step.{rests, step as step_of};
ghost use Rattle.st_run.specs.Run.{state_next, scenes};
ghost use Rattle.st_rows.specs.declared.entry.WordRuns.{WordRuns};
ghost use Rattle.st_sweep.specs.HazardFree.{are_equal as are_equal_of, next_writes, is_hazard_free_entry, is_hazard_free_behind};
ghost use Rattle.st_sweep.specs.Marks.{AreMarks};
ghost use Rattle.st_sweep.specs.Sweep.{without_cards};

use crate::interlude::pass_interlude;
use crate::written::WrittenWords;
use st_card::Signal;
use st_exec::{complete_in, interrupt, is_at_rest, is_mispredicted};
use st_prep::{Prepared, plan_in};
use st_state::State;

// Whether all delays equal the first argument.
fn are_all(delay: u8, delays: &[u8]) -> bool
    ensures { result ≡ list_all (λ x. x == delay) delays.now }
{
    delays.iter().all(|other| *other == delay)
}

// Whether all delays are equal.
pub(crate) fn are_equal(delays: &[u8]) -> bool
    ensures { result ≡ are_equal_of delays.now }
{
    let [first, rest @ ..] = delays else {
        return true;
    };
    are_all(*first, rest)
}

// Makes the next step, and marks the words that it writes beside those of `earlier` entries.
// Returns whether it is a hazard-free entry after these. The state is not at rest, and fewer than
// 2^63 instructions are complete.
fn step(state: &mut State, written: &mut WrittenWords) -> bool
    requires going { rests state.old ≡ false }
    requires few { state.old.done < 2 ^ 63 }
    ensures state { state.new ≡ step_of state.old }
    ensures entry { (earlier : List WordRuns) → AreMarks earlier written.old →
        AreMarks (next_writes state.old ∷ earlier) written.new
        × (result ≡ is_hazard_free_entry earlier state.old) }
{
    let taken = interrupt(state);
    let mut p = Prepared::default();
    let side = plan_in(taken, state, &mut p);
    let mispredicted = is_mispredicted(&p, state);
    let side = written.has_side(side);
    let words = written.has_words(p.reads);
    let hazard_free = taken.is_none() && !mispredicted && !side && !words;
    written.put(p.writes);
    complete_in(&p, state);
    hazard_free
}

// Whether both hold; a function of its own, since proofs cite its clause.
pub(crate) fn both(one: bool, two: bool) -> bool
    ensures { result ≡ (one && two) }
{
    one && two
}

// The result of a plain run.
#[derive(Clone, Copy, Debug, PartialEq, Eq)]
pub(crate) struct PlainOutcome {
    // The count of completed instructions.
    pub done: u64,
    // Whether the run is hazard-free, except for the delays.
    pub hazard_free: bool,
}

// Runs an initial state, with these signals and without cards, until it is at rest or the budget is
// used up. Before, no word is marked. The label of the loop serves only its proof.
pub(crate) fn run_plain(
    state: &mut State,
    signals: &[Signal],
    written: &mut WrittenWords,
    budget: u64,
) -> PlainOutcome
    requires signals { AllPass is_signal signals.now }
    requires written { AreMarks [] written.old }
    requires few { state.old.done + budget ≤ MOST_INSTRUCTIONS }
    ensures done { result.done
        ≡ (state_next (scenes budget (without_cards state.old signals.now)).last).done }
    ensures hazard_free { result.hazard_free ≡ is_hazard_free_behind [] budget
        (without_cards state.old signals.now) }
{
    let mut rest = signals;
    let mut hazard_free = true;
    let mut left = budget;
    'entries: loop {
        let between = pass_interlude(state, rest);
        rest = between.signals;
        hazard_free = both(hazard_free, between.quiet);
        if left == 0 {
            return PlainOutcome {
                done: state.done,
                hazard_free,
            };
        }
        if is_at_rest(state) {
            return PlainOutcome {
                done: state.done,
                hazard_free,
            };
        }
        let entry = step(state, written);
        hazard_free = both(hazard_free, entry);
        left -= 1;
    }
}
