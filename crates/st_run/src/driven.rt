//! An overlapped machine with external events: the implementation of `ExternalEvents` for it, and
//! the signals that are due before the first instruction. docs/machine.md has the rules of signals
//! and devices. run.rt, progress.rt, leaving.rt and ticking.rt use `Driven`; no other crate does.
//! Each method is a call of `Machine` of `st_ahead`; `rest` settles the tick, which ends the
//! segment (flushes the entries in flight).
//!
//! Proved: after an event only the state has changed, and the segment has ended if a card came or
//! the machine waited (`IsChanged` in specs/Overlapped.antt). The laws of the trait are proved in
//! specs/OverlappedLaws.antt.
//!
//! Pinned, by `IsChanged` and docs/timetable.md: which event ends the segment. Free: the bodies.
ghost use Rattle.std.specs.Prelude.{◌≡◌, ℕ, List, IfSome};
ghost use Rattle.std.specs.List.{AllPass};
ghost use Rattle.st_card.specs.Limits.{is_signal};
ghost use Rattle.st_run.specs.Run.{with_due_signals};
ghost use Rattle.st_ahead.specs.Calls.{MaySignal};
ghost use Rattle.st_ahead.specs.Shown.{view_at_tick};
ghost use Rattle.st_refine.specs.Reached.{IsCard};

use crate::external_events::ExternalEvents;
use crate::pending::PendingEvents;
use st_ahead::{Machine, View};
use st_card::Signal;
use st_state::State;
use std::marker::Model;

// An overlapped machine with the external events that are still to come.
#[derive(Drop)]
pub(crate) struct Driven<'a, const N: usize> {
    // The machine.
    pub machine: Machine<N>,
    // The signals and cards that are still to come.
    pub pending: PendingEvents<'a>,
}

impl<'a, const N: usize> Model for Driven<'a, N> {
    ghost use Rattle.st_run.specs.Together.{Together};

    ghost Value = { Together };

    ghost view = { λ d. record {
      machine = d.machine;
      signals = d.pending.signals;
      cards = d.pending.cards;
    } };
}

// Provides the fact that a card has eight words to the caller's proof.
fn shape_of(card: Option<[u64; 8]>)
    ensures { IfSome card IsCard }
{
    if let Some(words) = card {
        let [_a, _b, _c, _d, _e, _f, _g, _h] = words;
    }
}

impl<const N: usize> ExternalEvents for Machine<N> {
    ghost use Rattle.st_ahead.specs.Calls.{MayServe};
    ghost use Rattle.st_run.specs.Overlapped.{IsChanged};
    ghost use Rattle.st_run.specs.OverlappedLaws.{changed-none, changed-both};

    // The committed state.
    ghost state = { λ m. m.state };

    // An entry has completed at the last tick, its decision is owed, and the run has not ended.
    ghost is_open = { MayServe };

    // Only the state has changed since the completion, and the segment has ended if an event ended
    // it; the machine was used within its protocol.
    ghost leaves = { IsChanged };

    // The three laws of the trait.
    ghost leaves_same = { changed-none };

    ghost stays_open = { λ _ _ _ left may. left.serves may };

    ghost leaves_both = { changed-both };

    fn state(&self) -> &State {
        self.state()
    }

    fn signal(&mut self, indicator: u8) {
        self.signal(indicator);
    }

    fn read_in(&mut self, card: Option<[u64; 8]>) {
        shape_of(card);
        self.read_in(card);
    }

    fn print_out(&mut self) -> [u64; 8] {
        self.print_out()
    }

    fn rest(&mut self) {
        self.settle();
    }
}

// Turns on the indicators of the signals that are due at the start of a run, and returns the
// remaining signals. The machine has made no tick, or an entry has just completed (`MaySignal`).
// The label of the loop serves only its proof.
pub(crate) fn due_signals<'a, const N: usize>(
    machine: &mut Machine<N>,
    signals: &'a [Signal],
) -> &'a [Signal]
    requires known { AllPass is_signal signals.now }
    requires turn { MaySignal machine.old }
    ensures rest { AllPass is_signal result.now }
    ensures came { (cards : List (List ℕ)) →
        with_due_signals (record {
          machine = machine.old.state;
          signals = signals.now;
          cards = cards;
        })
        ≡ record { machine = machine.new.state; signals = result.now; cards = cards } }
    ensures machine { machine.new ≡ record machine.old { state = machine.new.state } }
{
    let mut rest = signals;
    'signals: while let [first, after @ ..] = rest {
        if first.count > machine.state().done {
            return rest;
        }
        machine.signal(first.indicator);
        rest = after;
    }
    rest
}

// The view of the machine.
pub(crate) fn view_of<const N: usize>(driven: &Driven<N>) -> View
    ensures { result ≡ view_at_tick driven.now.machine }
{
    driven.machine.view()
}
