//! Parts of an entry (one instruction) that follow from its instruction: the counter after it (a
//! half-word address), the value that it stores, its cost in ticks, and whether it is serializing
//! (waits for all before it and holds back all after it). preparation.rt calls them. Branches on a
//! bit or an indicator are decided only at completion, in `st_exec`; here the counter is that of
//! the next instruction. docs/machine.md has the tables.
//!
//! Proved: the results are `counter_behind`, `counter_after`, `value_stored`, `cost` and
//! `is_serial_operation` of specs/Entry.antt. A cost is 1 to 24: law `EntriesAreBounded`
//! (specs/Laws.antt of `st_exec`), by proofs/OutcomeLemmas.antt.
//!
//! Pinned, by these definitions, docs/machine.md and vectors/costs.txt: these results. Free: the
//! bodies. A new operation needs its case here only where the last arm does not fit.
ghost use Rattle.std.specs.Prelude.{◌≡◌, ◌<◌, ◌^◌};
ghost use Rattle.st_prep.specs.Entry.{counter_behind as next_of, after_count as after_count_of, after_half as after_half_of, after_branch as after_branch_of, counter_after as after_of};
ghost use Rattle.st_prep.specs.Entry.{stored_part as stored_part_of, value_stored as value_of, binary_cost as binary_cost_of, decimal_cost as decimal_cost_of, cost as cost_of, is_serial_operation as acts_alone_of};
ghost use Rattle.st_prep.specs.Ranges.{HasFields};

use crate::entries::Place;
use st_bits::{BranchOp, HalfOp, VflOp, count_of, part, refill_of};
use st_format::Instr;
use st_index::count_down;

/// The counter of the following instruction, `halves` half-words on. A table instruction does not
/// change the counter.
pub fn next(place: &Place, halves: u8) -> u32
    requires { place.now.counter < 2 ^ 19 }
    ensures value { result ≡ next_of place.now halves }
    ensures bound { result < 2 ^ 19 }
{
    match place.table {
        None => (place.counter + u32::from(halves)) % (1 << 19),
        Some(_) => place.counter,
    }
}

// The counter after a branch on a count; `x` is index word J before it.
fn after_count(x: u64, e: u32, following: u32) -> u32
    ensures { result ≡ after_count_of x e following }
{
    if count_of(count_down(x)) == 0 {
        following
    } else {
        e / 32
    }
}

/// The counter after a half-word instruction: only a branch on a count changes it.
fn after_half(op: HalfOp, x: u64, e: u32, following: u32) -> u32
    ensures { result ≡ after_half_of op x e following }
{
    match op {
        HalfOp::Cb | HalfOp::Cbr => after_count(x, e, following),
        _ => following,
    }
}

/// The counter after a branch: BE and BD jump too, BEW and NOP do not.
fn after_branch(op: BranchOp, counter: u32, e: u32, following: u32) -> u32
    requires counter { counter < 2 ^ 19 }
    requires address { e < 2 ^ 24 }
    ensures { result ≡ after_branch_of op counter e following }
{
    match op {
        BranchOp::B | BranchOp::Be | BranchOp::Bd => e / 32,
        BranchOp::Br => (counter + e / 32) % (1 << 19),
        BranchOp::Bew | BranchOp::Nop => following,
    }
}

/// The counter after an instruction, given the counter before it and the following instruction.
pub fn after(instr: &Instr, x: &[u64; 16], e: u32, counter: u32, following: u32) -> u32
    requires shape { HasFields instr.now }
    requires counter { counter < 2 ^ 19 }
    requires address { e < 2 ^ 24 }
    ensures { result ≡ after_of instr.now x.now e counter following }
{
    match *instr {
        Instr::Half { op, j, .. } => after_half(op, x[j as usize], e, following),
        Instr::Branch { op, .. } => after_branch(op, counter, e, following),
        Instr::StoreCounter { second, .. } => second,
        _ => following,
    }
}

// The part of the index word `x` that an index store writes.
fn stored_part(op: HalfOp, x: u64) -> u64
    ensures { result ≡ stored_part_of op x }
{
    match op {
        HalfOp::Sx => x,
        HalfOp::Sv => part(x, 0, 25),
        HalfOp::Sc => u64::from(count_of(x)),
        HalfOp::Sr => u64::from(refill_of(x)),
        HalfOp::Sva => part(x, 0, 19),
        _ => 0,
    }
}

/// The value that an instruction stores of an index word or of the counter, 0 if it stores none.
pub fn value(instr: &Instr, x: &[u64; 16], following: u32) -> u64
    requires { HasFields instr.now }
    ensures { result ≡ value_of instr.now x.now following }
{
    match *instr {
        Instr::Half { op, j, .. } => stored_part(op, x[j as usize]),
        Instr::StoreCounter { .. } => u64::from(following),
        _ => 0,
    }
}

/// The ticks of a binary operation on a field.
fn binary_cost(op: VflOp) -> u8
    ensures { result ≡ binary_cost_of op }
{
    match op {
        VflOp::Mul | VflOp::MulAdd => 12,
        VflOp::Div | VflOp::Lcv => 24,
        _ => 2,
    }
}

/// The ticks of a decimal operation on a field.
fn decimal_cost(op: VflOp) -> u8
    ensures { result ≡ decimal_cost_of op }
{
    match op {
        VflOp::Lcv => 24,
        _ => 4,
    }
}

/// The number of ticks that an instruction takes once its operands have arrived, 1 to 24.
pub fn cost(instr: &Instr) -> u8
    ensures { result ≡ cost_of instr.now }
{
    match *instr {
        Instr::Vfl { op, decimal, .. } => {
            if decimal {
                decimal_cost(op)
            } else {
                binary_cost(op)
            }
        }
        Instr::Connect { .. } => 2,
        Instr::Move { count, .. } => count,
        _ => 1,
    }
}

/// Whether an instruction is serializing by its operation.
pub fn is_serial_operation(instr: &Instr) -> bool
    ensures { result ≡ acts_alone_of instr.now }
{
    matches!(
        *instr,
        Instr::Branch {
            op: BranchOp::Be | BranchOp::Bd | BranchOp::Bew,
            ..
        } | Instr::Move { .. }
            | Instr::BitBranch { .. }
            | Instr::StoreCounter { .. }
            | Instr::Transfer { .. }
    )
}
