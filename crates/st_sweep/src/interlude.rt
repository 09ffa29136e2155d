//! The transition between two entries (instructions) of a run without cards, by signals and
//! devices, and whether the transition ends a wait, which makes a run not hazard-free.
//! docs/timetable.md has the rules of hazard-free ("calm") runs, docs/machine.md those of signals.
//! hazards.rt calls `pass_interlude` before each entry. Signals are due by the count of completed
//! instructions.
//!
//! Proved: the state and the signals are those after `interlude` of `st_run` (clause `came`), and
//! `quiet` is `is_hazard_free_interlude` of specs/HazardFree.antt.
//!
//! Pinned, by `without_cards` in these clauses: no card comes, as `sweep` runs with an empty
//! reader. Free: the bodies; the work is that of `st_run::between`.
ghost use Rattle.std.specs.Prelude.{◌≡◌};
ghost use Rattle.std.specs.List.{AllPass};
ghost use Rattle.st_card.specs.Limits.{is_signal};
ghost use Rattle.st_run.specs.Run.{interlude};
ghost use Rattle.st_sweep.specs.HazardFree.{is_hazard_free_interlude};
ghost use Rattle.st_sweep.specs.Sweep.{without_cards};

use st_card::Signal;
use st_exch::Hopper;
use st_exec::is_at_rest;
use st_run::PendingEvents;
use st_run::between::between;
use st_state::State;

// The result of the transition between two entries.
#[derive(Drop)]
pub(crate) struct InterludeEnd<'a> {
    // The signals that are still to come.
    pub signals: &'a [Signal],
    // Whether no wait was ended.
    pub quiet: bool,
}

// Makes the transition between two entries: the due signals and orders, and the events that may end
// a wait.
pub(crate) fn pass_interlude<'a>(state: &mut State, signals: &'a [Signal]) -> InterludeEnd<'a>
    requires { AllPass is_signal signals.now }
    ensures rest { AllPass is_signal result.signals.now }
    ensures came { (interlude (without_cards state.old signals.now)).scene
        ≡ without_cards state.new result.signals.now }
    ensures quiet { result.quiet ≡ is_hazard_free_interlude (without_cards state.old signals.now) }
{
    let mut pending = PendingEvents::new(signals, Hopper::empty());
    let came = between(state, &mut pending);
    let (rest, _) = pending.parts();
    InterludeEnd {
        signals: rest,
        quiet: is_at_rest(state) || !came.waited,
    }
}
