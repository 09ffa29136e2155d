//! The interface of a machine that takes external events, so that one driver (between.rt) serves
//! several machines: the plain state (plain.rt, which `st_account` and `st_sweep` use), the
//! overlapped machine (driven.rt), and the machine of `st_top` that follows a run (beside.rt).
//! docs/machine.md has the rules of signals and devices.
//!
//! Proved, for each implementation: the clauses of the methods, which change the plain state as
//! `st_exec` and `st_state` define, and the three laws at the end of the trait. With these every
//! clause of `between` holds for the machine.
//!
//! Pinned, by `interlude` of specs/Run.antt: the four events (signal, card, print, rest). A new
//! kind of event is a new method here, and a case in between.rt, in specs/Run.antt and in each
//! implementation. Free: a new machine, which implements the five methods and gives `state`,
//! `is_open` and `leaves`.
ghost use Rattle.std.specs.Prelude.{◌≡◌, ◌≤◌, ◌||◌, Bool, true, false, is_some, IfSome, IsSome};
ghost use Rattle.st_state.specs.Machine.{Machine as MachineOf};
ghost use Rattle.st_state.specs.Interrupts.{state_with_signal};
ghost use Rattle.st_exec.specs.Step.{rests};
ghost use Rattle.st_exec.specs.Transfer.{printed_out, words_from, read_in as read_in_of};

use st_state::State;

/// A machine with a plain state, which takes signals and cards, and prints, between two steps.
pub trait ExternalEvents {
    // The plain state of the machine.
    ghost state: { Self → MachineOf };

    // Whether the machine can take an external event.
    ghost is_open: { Self → Type 0 };

    // `leaves over old new`: what an event changes of the machine outside its plain state, where
    // `over` says whether the event ends the segment.
    ghost leaves: { Bool → Self → Self → Type 0 };

    /// The plain state of the machine.
    fn state(&self) -> &State
        ensures { result.now ≡ state self.now };

    /// Takes a signal, which turns on an indicator, 0 to 13.
    fn signal(&mut self, indicator: u8)
        requires known { indicator ≤ 13 }
        requires turn { is_open self.old }
        ensures state { state self.new ≡ state_with_signal (state self.old) indicator }
        ensures rest { leaves false self.old self.new };

    /// The reader's order takes effect, with the next card or without one.
    fn read_in(&mut self, card: Option<[u64; 8]>)
        requires order { IsSome (state self.old).reader }
        requires turn { is_open self.old }
        ensures state { IfSome (state self.old).reader
            (λ order. state self.new ≡ read_in_of (state self.old) order.word card) }
        ensures rest { leaves (is_some card) self.old self.new };

    /// The printer's order takes effect. Returns the eight words of its area.
    fn print_out(&mut self) -> [u64; 8]
        requires order { IsSome (state self.old).printer }
        requires turn { is_open self.old }
        ensures words { IfSome (state self.old).printer
            (λ order. result ≡ words_from (state self.old) order.word 8) }
        ensures state { state self.new ≡ printed_out (state self.old) }
        ensures rest { leaves false self.old self.new };

    /// Tells the machine that it is at rest and waits for an external event. The segment of an
    /// overlapped machine ends here; other machines do nothing.
    fn rest(&mut self)
        requires rests { rests (state self.old) ≡ true }
        requires turn { is_open self.old }
        ensures state { state self.new ≡ state self.old }
        ensures rest { leaves true self.old self.new };

    // No event changes nothing.
    ghost leaves_same: { (m : Self) → leaves false m m };

    // An event keeps the machine open.
    ghost stays_open: { (b : Bool) (m n : Self) → leaves b m n → is_open m → is_open n };

    // Two events in turn are one, which ends the segment if one of them does.
    ghost leaves_both: { (a b c : Bool) (m n o : Self) → leaves a m n → leaves b n o → c
        ≡ (a || b) → leaves c m o };
}
