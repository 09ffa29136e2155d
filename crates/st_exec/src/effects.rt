//! The effect of an operation, given its operands, apart from the change of an index word, which
//! preparation makes, and from the counter, which completion sets. Only completing.rt calls
//! `effect_by`; carrying.rt applies the `Effect`. `e` is a bit address below 2^24; operands are at
//! most two words, and a register among these words is read from the state, since the entry itself
//! can change it. `st_bin`, `st_dec` and `st_conn` compute results on fields (fields.rt).
//! docs/machine.md has the table.
//!
//! Proved: the effect is `effect_of` of specs/Effect.antt, and can be applied (`CanBeDone`). A
//! floating or invalid instruction has no effect. Pinned, by `effect_of`, docs/machine.md,
//! docs/operations.md and the vectors index.txt, moves.txt and checks.txt: the effect of each
//! operation. A new operation needs an arm here and in `effect_of`. A new kind of `Effect` needs
//! its case in carrying.rt, in `CanBeDone`, and in the lemmas of proofs/ on effects. Free: the
//! bodies and their split, if proofs/effects follows.
ghost use Rattle.std.specs.Prelude.{◌≡◌, ◌+◌, ◌*◌, ◌/◌, ◌<◌, ◌≤◌, ◌^◌, true};
ghost use Rattle.st_bits.specs.Storage.{words_of_storage};
ghost use Rattle.st_state.specs.declared.devices.Order.{Order};
ghost use Rattle.st_prep.specs.Entry.{is_index_store, reads, words_written};
ghost use Rattle.st_prep.specs.Ranges.{HasFields, AreInside, FitsPart, IsStored, HasRoomInStorage};
ghost use Rattle.st_exec.specs.Operand.{AreRead};
ghost use Rattle.st_exec.specs.Effect.{index_effect as index_effect_of, branch_effect as branch_effect_of, move_effect as move_effect_of, bit_effect as bit_effect_of, indicator_effect as indicator_effect_of, order_effect as order_effect_of, effect_of, AreRuns, CanBeDone};

use crate::fields::{Addressed, connect_field, operate};
use crate::operands::operand_field;
use st_bits::{BranchOp, HalfOp};
use st_conn::ConnShape;
use st_field::{Done, Shape};
use st_format::Instr;
use st_state::{Order, State};

/// The effect of an operation, given its operands: what it writes to storage, registers and
/// indicators, and its orders.
#[derive(Clone, Copy, Debug, PartialEq, Eq)]
pub enum Effect {
    /// Nothing is left to do.
    Rest,
    /// The number `bits`, below 2^length, is written to the `length` bits, 1 to 64, from the bit
    /// address `at`.
    Put { at: u32, length: u8, bits: u64 },
    /// `count` words from the word address `from` are copied to those from `to`, one word at a
    /// time.
    Copy { from: u32, to: u32, count: u8 },
    /// `count` words from the word address `from` are exchanged with those from `to`, one word at a
    /// time.
    Exchange { from: u32, to: u32, count: u8 },
    /// An indicator, 0 to 63, is turned off.
    TurnOff { indicator: u8 },
    /// Interrupts are enabled or disabled.
    Enable { enabled: bool },
    /// Interrupts are enabled and the machine waits.
    Wait,
    /// An order is given to the reader, or to the printer if `write` is true.
    Give { write: bool, order: Order },
    /// The result of an operation on a field is written to registers, indicators, and the field at
    /// the bit address `at`.
    Leave { left: Done, at: u32, length: u8 },
}

// The effect of an index store: `value`, an index word or a part of it, is stored in the word or
// the half-word at the address `e`.
fn index_effect(op: HalfOp, e: u32, value: u64) -> Effect
    requires address { e < 2 ^ 24 }
    requires part { FitsPart op value }
    requires inside { is_index_store op ≡ true → e / 64 < words_of_storage }
    ensures value { result ≡ index_effect_of op e value }
    ensures can { CanBeDone result }
{
    let word = 64 * (e / 64);
    let (at, length) = match op {
        HalfOp::Sx => (word, 64),
        HalfOp::Sv => (word, 25),
        HalfOp::Sc => (word + 28, 18),
        HalfOp::Sr => (word + 46, 18),
        HalfOp::Sva => (32 * (e / 32), 19),
        _ => return Effect::Rest,
    };
    Effect::Put {
        at,
        length,
        bits: value,
    }
}

// The effect of a branch instruction, apart from the jump: it enables or disables interrupts, or
// waits.
fn branch_effect(op: BranchOp) -> Effect
    ensures value { result ≡ branch_effect_of op }
    ensures can { CanBeDone result }
{
    match op {
        BranchOp::Be => Effect::Enable { enabled: true },
        BranchOp::Bd => Effect::Enable { enabled: false },
        BranchOp::Bew => Effect::Wait,
        BranchOp::B | BranchOp::Br | BranchOp::Nop => Effect::Rest,
    }
}

// The effect of a transmission: words are copied or exchanged.
fn move_effect(swap: bool, from: u32, to: u32, count: u8) -> Effect
    requires { AreRuns from to count }
    ensures value { result ≡ move_effect_of swap from to count }
    ensures can { CanBeDone result }
{
    if swap {
        Effect::Exchange { from, to, count }
    } else {
        Effect::Copy { from, to, count }
    }
}

// The effect of BB on its bit, whose value is `bit`: the bit is left unchanged, cleared, set or
// inverted.
fn bit_effect(change: u8, e: u32, bit: u64) -> Effect
    requires change { change < 4 }
    requires inside { e + 1 ≤ 64 * words_of_storage }
    requires bit { bit < 2 }
    ensures value { result ≡ bit_effect_of change e bit }
    ensures can { CanBeDone result }
{
    let bits = match change {
        0 => return Effect::Rest,
        1 => 0,
        2 => 1,
        _ if bit == 0 => 1,
        _ => 0,
    };
    Effect::Put {
        at: e,
        length: 1,
        bits,
    }
}

// The effect of BI on its indicator: it is turned off if `off` is true.
fn indicator_effect(off: bool, e: u32) -> Effect
    ensures value { result ≡ indicator_effect_of off e }
    ensures can { CanBeDone result }
{
    if off {
        Effect::TurnOff {
            indicator: (e % 64) as u8,
        }
    } else {
        Effect::Rest
    }
}

// The effect of RD and WR: an order that is due `count` instructions after this one, where `done`
// instructions completed before it.
fn order_effect(write: bool, e: u32, count: u32, done: u64) -> Effect
    requires above { 32 ≤ e / 64 }
    requires inside { e / 64 + 8 ≤ words_of_storage }
    requires few { done < 2 ^ 63 }
    ensures value { result ≡ order_effect_of write e count done }
    ensures can { CanBeDone result }
{
    Effect::Give {
        write,
        order: Order {
            word: e / 64,
            due: done + 1 + u64::from(count),
        },
    }
}

/// The effect of an instruction with the effective address `e`, where `value` is the word that an
/// index store or SIC stores, and 0 for all others. The operands are the words that it reads; a
/// register among them is read from the state instead.
pub fn effect_by(instr: &Instr, e: u32, value: u64, operands: &[u64; 2], state: &State) -> Effect
    requires fields { HasFields instr.now }
    requires address { e < 2 ^ 24 }
    requires part { IsStored instr.now value }
    requires inside { AreInside (reads instr.now e) }
    requires written_inside { AreInside (words_written instr.now e) }
    requires area { HasRoomInStorage instr.now e }
    requires read { AreRead (reads instr.now e) operands.now state.now }
    requires few { state.now.done < 2 ^ 63 }

    ensures value { result ≡ effect_of instr.now e value state.now }
    ensures can { CanBeDone result }
{
    match *instr {
        Instr::Half { op, .. } => index_effect(op, e, value),
        Instr::Branch { op, .. } => branch_effect(op),
        Instr::Vfl {
            op,
            decimal,
            p,
            length,
            byte,
            unsigned,
            negated,
            offset,
            ..
        } => {
            let shape = Shape {
                length,
                byte,
                unsigned,
                negated,
                offset,
            };
            let at = Addressed {
                p,
                e,
                operands,
                state,
            };
            let left = operate(decimal, op, &shape, &at);
            Effect::Leave {
                left,
                at: e,
                length,
            }
        }
        Instr::Connect {
            kind,
            table,
            p,
            length,
            offset,
            ..
        } => {
            let shape = ConnShape {
                kind,
                table,
                length,
                offset,
            };
            let at = Addressed {
                p,
                e,
                operands,
                state,
            };
            let left = connect_field(&shape, &at);
            Effect::Leave {
                left,
                at: e,
                length,
            }
        }
        Instr::Move {
            swap,
            second,
            count,
            ..
        } => move_effect(swap, e / 64, second / 2, count),
        Instr::BitBranch { change, .. } => bit_effect(
            change,
            e,
            operand_field(operands, e, 1, state),
        ),
        Instr::IndBranch { off, .. } => indicator_effect(off, e),
        Instr::StoreCounter { .. } => Effect::Put {
            at: 32 * (e / 32),
            length: 19,
            bits: value,
        },
        Instr::Transfer { write, count, .. } => order_effect(write, e, count, state.done),
        Instr::Floating { .. } | Instr::Invalid { .. } => Effect::Rest,
    }
}
