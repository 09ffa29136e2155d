//! A machine that executes instructions sequentially, with external events: the implementation of
//! `ExternalEvents` for the plain state, and tests of the orders of its devices. docs/machine.md
//! has the rules. `st_sweep` and `st_account` make plain runs with it; leaving.rt, pending.rt and
//! between.rt use the tests for all machines. Counts are completed instructions.
//!
//! Proved: the tests are `is_due` of `st_state` and `signal_due` of specs/ExternalEvents.antt, and
//! the methods change the state as the clauses of the trait (external_events.rt) say.
//!
//! Pinned, by these two definitions and docs/machine.md: an order or signal is due when its count
//! is reached, not after it. Free: the bodies.
ghost use Rattle.std.specs.Prelude.{◌≡◌, is_none};
ghost use Rattle.st_state.specs.Orders.{is_due as is_due_of};
ghost use Rattle.st_run.specs.Run.{order_of};
ghost use Rattle.st_run.specs.ExternalEvents.{signal_due};

use crate::external_events::ExternalEvents;
use st_card::Signal;
use st_state::{Device, State, is_due};

impl ExternalEvents for State {
    // The state is the machine: an event may always come, there is nothing else that it could
    // change, and so the three laws of the trait hold at once.
    ghost state = { λ s. s };

    ghost is_open = { λ _. Unit {0} };

    ghost leaves = { λ _ _ _. Unit {0} };

    ghost leaves_same = { λ _. tt };

    ghost stays_open = { λ _ _ _ _ _. tt };

    ghost leaves_both = { λ _ _ _ _ _ _ _ _ _. tt };

    fn state(&self) -> &State {
        self
    }

    fn signal(&mut self, indicator: u8) {
        self.signal(indicator);
    }

    fn read_in(&mut self, card: Option<[u64; 8]>) {
        st_exec::read_in(self, card);
    }

    fn print_out(&mut self) -> [u64; 8] {
        st_exec::print_out(self)
    }

    // A wait ends nothing: a plain state has no entries in flight.
    fn rest(&mut self) {}
}

/// Whether the reader has no order.
pub fn reader_is_free(state: &State) -> bool
    ensures { result ≡ is_none state.now.reader }
{
    state.reader.is_none()
}

/// Whether the printer has no order.
pub fn printer_is_free(state: &State) -> bool
    ensures { result ≡ is_none state.now.printer }
{
    state.printer.is_none()
}

/// Whether the reader's order is due.
pub fn reader_is_due(state: &State) -> bool
    ensures { result ≡ is_due_of state.now.done state.now.reader }
{
    is_due(state.reader, state.done)
}

/// Whether the printer's order is due.
pub fn printer_is_due(state: &State) -> bool
    ensures { result ≡ is_due_of state.now.done state.now.printer }
{
    is_due(state.printer, state.done)
}

/// Whether the order of a device is due.
pub fn is_due_at(state: &State, device: Device) -> bool
    ensures { result ≡ is_due_of state.now.done (order_of device state.now) }
{
    match device {
        Device::Reader => reader_is_due(state),
        Device::Printer => printer_is_due(state),
    }
}

/// Whether the first of the signals is due at the count `done` of completed instructions.
pub fn is_signal_due(signals: &[Signal], done: u64) -> bool
    ensures { result ≡ signal_due done signals.now }
{
    match signals {
        [first, ..] => first.count <= done,
        [] => false,
    }
}
