//! External events of a machine between two steps (two instructions): signals, which turn
//! indicators on; orders of the reader and the printer, which move eight words; and the end of a
//! wait. docs/machine.md has the rules.
//!
//! `between` works for each machine with `ExternalEvents`: the plain state (`st_sweep`,
//! `st_account`), the overlapped machine (leaving.rt), and the machine of `/BACK` (`st_top`).
//! Counts are completed instructions.
//!
//! Proved: the machine and the pending events are those after `interlude` of specs/Run.antt, and
//! the summary `Interlude` says if a card came, if the machine waited, and what was printed
//! (`HasHappened` in specs/ExternalEvents.antt, the clause of `between`).
//!
//! Pinned, by `interlude` and docs/machine.md: due signals first, then the reader, then the
//! printer, and then, at rest, orders before signals. Free: the bodies of the private functions.
ghost use Rattle.std.specs.Prelude.{◌≡◌, false, IsSome};
ghost use Rattle.st_state.specs.declared.devices.Device.TheVariants.{Reader, Printer};
ghost use Rattle.st_exec.specs.Step.{rests};
ghost use Rattle.st_run.specs.Run as run;
ghost use Rattle.st_run.specs.ExternalEvents.{HasHappened, PendingEvents as PendingEventsOf, scene_at, joined_of};

use crate::external_events::ExternalEvents;
use crate::pending::PendingEvents;
use crate::plain::is_due_at;
use st_exec::is_at_rest;
use st_state::{Device, done_in};

/// A summary of the external events between two steps.
#[derive(Clone, Copy, Debug)]
pub struct Interlude {
    /// Whether a card was read into storage.
    pub card: bool,
    /// Whether the machine was at rest after the due events.
    pub waited: bool,
    /// The eight words that were printed, if there are any.
    pub words: Option<[u64; 8]>,
}

// No event.
const NOTHING: Interlude = Interlude {
    card: false,
    waited: false,
    words: None,
};

// The machine was at rest, and nothing else happened yet.
const A_WAIT: Interlude = Interlude {
    card: false,
    waited: true,
    words: None,
};

// The reader's order takes effect, with the next card or without one. In all clauses of this file
// `turn` says that the machine can take an event at this point (`is_open` of the trait).
fn read_card<M: ExternalEvents>(machine: &mut M, pending: &mut PendingEvents) -> Interlude
    requires order { IsSome (M.state machine.old).reader }
    requires turn { M.is_open machine.old }
    ensures { HasHappened M.state M.leaves
        (run.with_order Reader (M.state machine.old).reader (scene_at
        (M.state machine.old) pending.old))
        false result machine.old pending.old machine.new pending.new }
{
    let card = pending.next_card();
    machine.read_in(card);
    Interlude {
        card: card.is_some(),
        waited: false,
        words: None,
    }
}

// The printer's order takes effect.
fn print_line<M: ExternalEvents>(machine: &mut M) -> Interlude
    requires order { IsSome (M.state machine.old).printer }
    requires turn { M.is_open machine.old }
    ensures { (pending : PendingEventsOf) → HasHappened M.state M.leaves
        (run.with_order Printer (M.state machine.old).printer (scene_at
        (M.state machine.old) pending))
        false result machine.old pending machine.new pending }
{
    Interlude {
        card: false,
        waited: false,
        words: Some(machine.print_out()),
    }
}

// The order of a device takes effect.
fn serve<M: ExternalEvents>(
    machine: &mut M,
    pending: &mut PendingEvents,
    device: Device,
) -> Interlude
    requires order { IsSome (run.order_of device (M.state machine.old)) }
    requires turn { M.is_open machine.old }
    ensures { HasHappened M.state M.leaves
        (run.with_order device (run.order_of device (M.state machine.old)) (scene_at (M.state
        machine.old) pending.old))
        false result machine.old pending.old machine.new pending.new }
{
    match device {
        Device::Reader => read_card(machine, pending),
        Device::Printer => print_line(machine),
    }
}

// The order of a device takes effect, if it is due.
fn serve_if_due<M: ExternalEvents>(
    machine: &mut M,
    pending: &mut PendingEvents,
    device: Device,
) -> Interlude
    requires { M.is_open machine.old }
    ensures { HasHappened M.state M.leaves
        (run.with_due_order device (scene_at (M.state machine.old) pending.old))
        false result machine.old pending.old machine.new pending.new }
{
    if is_due_at(machine.state(), device) {
        return serve(machine, pending, device);
    }
    NOTHING
}

// The due orders take effect, the reader's first.
fn serve_due<M: ExternalEvents>(machine: &mut M, pending: &mut PendingEvents) -> Interlude
    requires { M.is_open machine.old }
    ensures { HasHappened M.state M.leaves
        (run.with_due_orders (scene_at (M.state machine.old) pending.old))
        false result machine.old pending.old machine.new pending.new }
{
    let first = serve_if_due(machine, pending, Device::Reader);
    let second = serve_if_due(machine, pending, Device::Printer);
    joined(first, second)
}

// The earliest order takes effect, if the machine is at rest.
fn serve_at_rest<M: ExternalEvents>(machine: &mut M, pending: &mut PendingEvents) -> Interlude
    requires { M.is_open machine.old }
    ensures { HasHappened M.state M.leaves
        (run.with_order_at_rest (scene_at (M.state machine.old) pending.old))
        false result machine.old pending.old machine.new pending.new }
{
    if !is_at_rest(machine.state()) {
        return NOTHING;
    }
    match machine.state().next_device() {
        None => NOTHING,
        Some(device) => serve(machine, pending, device),
    }
}

// Takes the due signals from the front: those with at most as many instructions as are complete.
// The labels of this loop and the next serve only their proofs (proofs/between).
fn take_due_signals<M: ExternalEvents>(machine: &mut M, pending: &mut PendingEvents)
    requires { M.is_open machine.old }
    ensures came { scene_at (M.state machine.new) pending.new
        ≡ run.with_due_signals (scene_at (M.state machine.old) pending.old) }
    ensures cards { pending.new.cards ≡ pending.old.cards }
    ensures rest { M.leaves false machine.old machine.new }
{
    'signals: while pending.is_due(done_in(machine.state())) {
        let Some(indicator) = pending.next_signal() else {
            unreachable!()
        };
        machine.signal(indicator);
    }
}

// Takes signals, one at a time, while the machine is at rest.
fn take_signals_at_rest<M: ExternalEvents>(machine: &mut M, pending: &mut PendingEvents)
    requires { M.is_open machine.old }
    ensures came { scene_at (M.state machine.new) pending.new
        ≡ run.with_signals_at_rest (scene_at (M.state machine.old) pending.old) }
    ensures cards { pending.new.cards ≡ pending.old.cards }
    ensures rest { M.leaves false machine.old machine.new }
{
    'signals: while is_at_rest(machine.state()) {
        let Some(indicator) = pending.next_signal() else {
            return
        };
        machine.signal(indicator);
    }
}

// The summary of two successive interludes.
fn joined(first: Interlude, later: Interlude) -> Interlude
    ensures { result ≡ joined_of first later }
{
    Interlude {
        card: first.card || later.card,
        waited: first.waited || later.waited,
        words: first.words.or(later.words),
    }
}

// Takes the events that may end a wait: orders, then signals.
fn end_wait<M: ExternalEvents>(machine: &mut M, pending: &mut PendingEvents) -> Interlude
    requires { M.is_open machine.old }
    ensures { HasHappened M.state M.leaves
        (run.with_wait (scene_at (M.state machine.old) pending.old))
        false result machine.old pending.old machine.new pending.new }
{
    let first = serve_at_rest(machine, pending);
    let second = serve_at_rest(machine, pending);
    take_signals_at_rest(machine, pending);
    joined(first, second)
}

/// Makes the transition between two steps: the due signals and orders, and the events that may end
/// a wait.
pub fn between<M: ExternalEvents>(machine: &mut M, pending: &mut PendingEvents) -> Interlude
    requires { M.is_open machine.old }
    ensures { HasHappened M.state M.leaves
        (run.interlude (scene_at (M.state machine.old) pending.old))
        (rests (run.with_due_orders
        (run.with_due_signals (scene_at (M.state machine.old) pending.old))).scene.machine)
        result machine.old pending.old machine.new pending.new }
{
    take_due_signals(machine, pending);
    let due = serve_due(machine, pending);
    if !is_at_rest(machine.state()) {
        return due;
    }
    machine.rest();
    let later = end_wait(machine, pending);
    joined(joined(due, A_WAIT), later)
}
