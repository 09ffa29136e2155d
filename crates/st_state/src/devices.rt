//! The two devices, reader and printer, and their orders: pending transfers of eight words between
//! a device and storage. An order takes effect once `due` instructions are complete; `word` is a
//! word address. `RD` and `WR` make orders (`st_exec`), `st_run` serves orders between two
//! instructions, and `State`, `st_ahead` and `st_run` call `is_due`. docs/machine.md has the rules.
//!
//! Proved: `is_due` is the definition of its name in specs/Orders.antt. That an area lies in
//! storage above the registers is part of the invariant of `State` (`HasArea` of
//! specs/Machine.antt), not of `Order`.
//!
//! Pinned, by specs/Orders.antt, specs/Machine.antt and `interlude` of `st_run` (specs/Run.antt
//! there): the fields of `Order` and the two devices. A third device changes at least `Device`,
//! `State`, specs/Orders.antt, transfers.rt of `st_exec` and specs/Run.antt of `st_run`. Free: the
//! body.
ghost use Rattle.std.specs.Prelude.{◌≡◌};
ghost use Rattle.st_state.specs.Orders.{is_due as is_due_of};

/// A device that transfers eight words at a time.
#[derive(Clone, Copy, Debug, PartialEq, Eq)]
pub enum Device {
    /// The card reader, which writes words to storage.
    Reader,
    /// The line printer, which reads words from storage.
    Printer,
}

/// A pending transfer of a device.
#[derive(Clone, Copy, Debug, PartialEq, Eq)]
pub struct Order {
    /// The address of the first of the eight words, 32 to WORDS - 8.
    pub word: u32,
    /// The count of completed instructions at which it takes effect.
    pub due: u64,
}

/// Whether there is an order and it takes effect at or before `done` completed instructions.
pub fn is_due(order: Option<Order>, done: u64) -> bool
    ensures { result ≡ is_due_of done order }
{
    order.is_some_and(|order| order.due <= done)
}
