//! The service of a device (card reader or printer), for a caller that drives the overlapped
//! machine itself between two instructions. docs/machine.md has the rules. No program calls
//! `serve`: runs use between.rt. docs/CLAIMS.md offers `serve`, so the call stays. The caller finds
//! that the device has an order, after a completion whose decision is owed (`MayServe` of
//! `st_ahead`).
//!
//! Proved: the machine, the remaining cards and the result are those of `IsServed` in
//! specs/Serving.antt, the clause of `serve`. Texts are those of `st_exch`.
//!
//! Pinned, by docs/CLAIMS.md and `IsServed`: the call, its clause and the variants of `Served`.
//! Free: the body.
ghost use Rattle.std.specs.Prelude.{IsSome};
ghost use Rattle.st_ahead.specs.Calls.{MayServe};
ghost use Rattle.st_run.specs.Run.{order_of};
ghost use Rattle.st_run.specs.Serving.{IsServed};

use arrayvec::ArrayString;
use st_ahead::Machine;
use st_exch::{Hopper, print_text};
use st_state::Device;

/// The result of serving a device.
#[derive(Clone, Copy, Debug)]
pub enum Served {
    /// The next card was read into storage. This ended the segment, and `dropped` levels are
    /// flushed.
    Card { dropped: u8 },
    /// The reader had no card.
    NoCard,
    /// Eight words were printed as this text.
    Printed { text: ArrayString<64> },
}

/// The order of a device takes effect: that of the reader with the next card of the hopper or
/// without one, that of the printer with its text. A settle must be owed after a completion at the
/// last tick, and the device must have an order. `docs/machine.md` has the rules.
pub fn serve<const N: usize>(
    machine: &mut Machine<N>,
    hopper: &mut Hopper,
    device: Device,
) -> Served
    requires order { IsSome (order_of device machine.old.state) }
    requires turn { MayServe machine.old }
    ensures { IsServed device result machine.old hopper.old machine.new hopper.new }
{
    match device {
        Device::Reader => match hopper.next() {
            Some(card) => Served::Card {
                dropped: machine.read_in(Some(card)),
            },
            None => {
                machine.read_in(None);
                Served::NoCard
            }
        },
        Device::Printer => Served::Printed {
            text: print_text(&machine.print_out()),
        },
    }
}
