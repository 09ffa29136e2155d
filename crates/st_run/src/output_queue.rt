//! The pending events between two entries (instructions): entries that were prepared ahead and are
//! flushed, a printed text, and an interrupt, in the order of a report. docs/report.md has the
//! lines. progress.rt fills the queue after a completion and takes one event for each call of
//! `Run::next`; no other crate uses it. Addresses are half-word addresses; there are at most eight
//! flushed entries.
//!
//! Proved: `next` returns the events in the order of `queued_events` in specs/Telling.antt (clause
//! `told`).
//!
//! Pinned, by `queued_events` and docs/report.md: the youngest flushed entry first, then the text,
//! then the interrupt. Free: the fields, with the view of `OutputQueue`.
ghost use Rattle.std.specs.Prelude.{◌≡◌, ℕ, [], ◌∷◌, None, MatchOption, IfSome, IsSome, List, true};
ghost use Rattle.std.specs.Option.{IfNone};
ghost use Rattle.st_state.specs.Machine.{Machine};
ghost use Rattle.st_run.specs.Events.{Level};
ghost use Rattle.st_run.specs.Telling.{reported_answer, queued_events};

use crate::run_events::RunEvent;
use arrayvec::{ArrayString, ArrayVec};
use std::marker::Model;

// The pending events: the flushed entries, each with its half-word address and the tick at which it
// was prepared, oldest first; the text that is printed; the interrupt that is taken.
#[derive(Drop)]
pub(crate) struct OutputQueue {
    // The flushed entries, oldest first: half-word address and P.
    pub drops: ArrayVec<(u32, u64), 8>,
    // The text that is printed, if there is one.
    pub text: Option<ArrayString<64>>,
    // The indicator of the interrupt that is taken, if one is.
    pub taken: Option<u8>,
}

impl Model for OutputQueue {
    ghost use Rattle.std.specs.Prelude.{option_map};
    ghost use Rattle.st_run.specs.Telling.{OutputQueue};

    ghost Value = { OutputQueue };

    ghost view = { λ w. record {
      drops = w.drops.items;
      text = option_map (λ t. t.bytes) w.text;
      taken = w.taken;
    } };
}

impl OutputQueue {
    ghost use Rattle.st_run.specs.Telling.{OutputQueue};

    /// No pending events.
    pub fn new() -> OutputQueue
        ensures { result ≡ record { drops = []; text = None; taken = None } }
    {
        OutputQueue {
            drops: ArrayVec::new(),
            text: None,
            taken: None,
        }
    }

    /// Whether there are no pending events.
    pub fn is_empty(&self) -> bool
        ensures { result ≡ true → (s : Machine) → queued_events self.now s ≡ [] }
    {
        if self.drops.len() > 0 {
            return false;
        }
        if self.text.is_some() {
            return false;
        }
        if self.taken.is_some() {
            return false;
        }
        true
    }

    /// Removes the next pending event and returns it: the youngest flushed entry, the text, which
    /// then becomes the last printed one, or the interrupt. None if there is none.
    pub fn next(&mut self, printed: &mut ArrayString<64>) -> Option<RunEvent>
        ensures told { (s : Machine) → MatchOption result (queued_events self.old s ≡ [])
            (λ event. queued_events self.old s ≡ reported_answer 0 s [] printed.new.bytes event
            ∷ queued_events self.new s) }
        ensures shown { (s t : Machine) (tick : ℕ) (levels : List Level) (text : List ℕ) →
            (IsSome self.old.taken → s ≡ t)
            → IfSome result (λ event. reported_answer 0 s [] text event
            ≡ reported_answer tick t levels text event) }
        ensures taken { IsSome self.new.taken → IsSome self.old.taken }
        ensures none { IfNone result (self.new ≡ self.old) }
    {
        if let Some((address, p)) = self.drops.pop() {
            return Some(RunEvent::Dropped { address, p });
        }
        if let Some(text) = self.text {
            self.text = None;
            *printed = text;
            return Some(RunEvent::Printed);
        }
        let Some(indicator) = self.taken else {
            return None;
        };
        self.taken = None;
        Some(RunEvent::Interrupted(indicator))
    }
}
