//! The application of an effect to a state: the second half of a completion, which writes storage,
//! registers and indicators, and gives orders to devices. effects.rt computes the effect; only
//! completing.rt calls `carry_out`. Addresses of fields are bit addresses, those of words word
//! addresses. docs/machine.md has the rules.
//!
//! Proved: the new state is `carried_out` of specs/Effect.antt, for effects in range (`CanBeDone`).
//! Pinned, by this definition, docs/machine.md, vectors/checks.txt and vectors/orders.txt:
//! registers are written first, then the indicators, then the field, so that a field which lies in
//! a register wins; a device with an order keeps this order and turns on CBJ. Free: the bodies and
//! the split into functions. A new kind of `Effect` needs a case here and in `carried_out`.
ghost use Rattle.std.specs.Prelude.{◌≡◌, ◌<◌, IfSome};
ghost use Rattle.st_state.specs.Machine.{HasArea};
ghost use Rattle.st_exec.specs.Outcome.{with_register, with_registers, with_field};
ghost use Rattle.st_exec.specs.Effect.{IsField, CanBeDone, order_standing as order_by, machine_with_order, state_with_order, carried_out};

use crate::effects::Effect;
use crate::transmission::{copy, exchange};
use st_bits::indicators::CHANNEL_BUSY_REJECT;
use st_bits::register::{COUNTS, FACTOR, LEFT_HALF, REMAINDER, RIGHT_HALF, SIGN_BYTE, TRANSIT};
use st_bits::{Ind, indicator};
use st_field::Done;
use st_state::{Order, State};

// The order of the printer if `write` is true, of the reader otherwise.
fn order_of(write: bool, state: &State) -> Option<Order>
    ensures { result ≡ order_by write state.now }
{
    if write { state.printer } else { state.reader }
}

// Sets the order of a device and replaces any order that it has.
fn put_order(write: bool, order: Order, state: &mut State)
    requires { HasArea (Some order) }
    ensures { state.new ≡ machine_with_order write order state.old }
{
    if write {
        state.printer = Some(order);
    } else {
        state.reader = Some(order);
    }
}

// Gives a device an order. If it already has one, turns on CBJ instead.
fn give(write: bool, order: Order, state: &mut State)
    requires { HasArea (Some order) }
    ensures { state.new ≡ state_with_order write order state.old }
{
    if order_of(write, state).is_some() {
        state.signal(CHANNEL_BUSY_REJECT);
    } else {
        put_order(write, order, state);
    }
}

// Writes a register, if there is a value for it.
fn put_register(w: u32, value: Option<u64>, state: &mut State)
    requires { w < 32 }
    ensures { state.new ≡ with_register w value state.old }
{
    if let Some(value) = value {
        state.store(w, value);
    }
}

// Writes the registers of a result.
fn put_registers(left: &Done, state: &mut State)
    ensures { state.new ≡ with_registers left.now state.old }
{
    state.store(LEFT_HALF, (left.acc.mag / (1 << 64)) as u64);
    state.store(RIGHT_HALF, (left.acc.mag % (1 << 64)) as u64);
    state.store(SIGN_BYTE, u64::from(left.acc.sb) * (1 << 56));
    put_register(REMAINDER, left.rm, state);
    put_register(FACTOR, left.ft, state);
    put_register(TRANSIT, left.tr, state);
    put_register(COUNTS, left.counts, state);
}

// Writes the `n` bits of the field at the bit address `a`, if there are bits to write.
fn put_field(field: Option<u64>, a: u32, n: u8, state: &mut State)
    requires { IfSome field (IsField a n) }
    ensures { state.new ≡ with_field field a n state.old }
{
    if let Some(bits) = field {
        state.put_field(a, n, bits);
    }
}

/// Applies an effect to the state.
pub fn carry_out(effect: &Effect, state: &mut State)
    requires { CanBeDone effect.now }
    ensures { state.new ≡ carried_out effect.now state.old }
{
    match *effect {
        Effect::Rest => (),
        Effect::Put { at, length, bits } => state.put_field(at, length, bits),
        Effect::Copy { from, to, count } => copy(from, to, count, state),
        Effect::Exchange { from, to, count } => exchange(from, to, count, state),
        Effect::TurnOff { indicator: i } => state.apply(Ind {
            on: 0,
            off: indicator(i),
        }),
        Effect::Enable { enabled } => state.enabled = enabled,
        Effect::Wait => {
            state.enabled = true;
            state.waiting = true;
        }
        Effect::Give { write, order } => give(write, order, state),
        Effect::Leave { left, at, length } => {
            put_registers(&left, state);
            state.apply(left.ind);
            put_field(left.field, at, length, state);
        }
    }
}
