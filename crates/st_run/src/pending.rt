//! The external events that are still to come: the signals of control cards, in order, and the
//! cards of the reader. docs/machine.md has the rules.
//!
//! between.rt takes events when they are due; `st_account`, `st_sweep` and `st_top` make
//! `PendingEvents` of their own. A signal is due once `count` instructions are complete, and turns
//! on an indicator, 0 to 13. A card has eight words.
//!
//! Proved: each call takes from the two lists what its clause says (`PendingEvents` in
//! specs/ExternalEvents.antt). Not proved here: that signals are sorted; this is checked where
//! control cards are read (`st_card`).
//!
//! Pinned, by the clauses `left` and `interlude` of specs/Run.antt: signals and cards are taken
//! from the front. Pinned, by the proofs of these three crates: the public calls with their
//! clauses. Free: the bodies.
ghost use Rattle.std.specs.Prelude.{◌≡◌};

use crate::plain::is_signal_due;
use st_card::Signal;
use st_exch::Hopper;
use std::marker::Model;

/// The signals and the reader's cards that are still to come.
#[derive(Drop)]
pub struct PendingEvents<'a> {
    signals: &'a [Signal],
    cards: Hopper,
}

impl<'a> Model for PendingEvents<'a> {
    ghost use Rattle.std.specs.List.{AllPass};
    ghost use Rattle.st_card.specs.Limits.{is_signal};
    ghost use Rattle.st_run.specs.ExternalEvents.{PendingEvents as PendingEventsOf};

    ghost Value = { PendingEventsOf };

    ghost view = { λ c. record { signals = c.signals.now; cards = c.cards } };

    // Each signal has a count of at most 10,000,000 instructions, and an indicator 0 to 13.
    ghost invariant = { λ c. AllPass is_signal c.signals.now };
}

impl<'a> PendingEvents<'a> {
    ghost use Rattle.std.specs.Prelude.{◌≤◌, IfSome, drop, is_some, length, nat_lt, option_map, slice_get};
    ghost use Rattle.std.specs.List.{AllPass};
    ghost use Rattle.st_card.specs.Limits.{is_signal};
    ghost use Rattle.st_run.specs.ExternalEvents.{signal_due};

    /// These signals and cards, as the external events to come.
    pub fn new(signals: &'a [Signal], cards: Hopper) -> PendingEvents<'a>
        requires { AllPass is_signal signals.now }
        ensures { result ≡ record { signals = signals.now; cards = cards } }
    {
        PendingEvents { signals, cards }
    }

    /// The signals and the cards.
    pub fn parts(self) -> (&'a [Signal], Hopper)
        ensures known { AllPass is_signal result.0.now }
        ensures signals { result.0.now ≡ self.entry.signals }
        ensures cards { result.1 ≡ self.entry.cards }
    {
        (self.signals, self.cards)
    }

    /// The signals that are still to come.
    pub fn signals(&self) -> &'a [Signal]
        ensures { result.now ≡ self.now.signals }
    {
        self.signals
    }

    /// Whether the first signal is due at the count `done` of completed instructions.
    pub fn is_due(&self, done: u64) -> bool
        ensures { result ≡ signal_due done self.now.signals }
    {
        is_signal_due(self.signals, done)
    }

    /// Removes the first signal and returns its indicator; None if there is none.
    pub fn next_signal(&mut self) -> Option<u8>
        ensures signal { result ≡ option_map (λ x. x.indicator) (slice_get self.old.signals 0) }
        ensures known { IfSome result (λ i. i ≤ 13) }
        ensures left { self.new ≡ record self.old { signals = drop 1 self.old.signals } }
    {
        match self.signals {
            [first, after @ ..] => {
                self.signals = after;
                Some(first.indicator)
            }
            [] => None,
        }
    }

    /// Removes the next card and returns it; None if there is none.
    pub fn next_card(&mut self) -> Option<[u64; 8]>
        ensures card { result ≡ slice_get self.old.cards 0 }
        ensures left { self.new ≡ record self.old { cards = drop 1 self.old.cards } }
        ensures came { is_some result ≡ nat_lt (length self.new.cards) (length self.old.cards) }
        ensures fewer { length self.new.cards ≤ length self.old.cards }
    {
        self.cards.next()
    }
}
