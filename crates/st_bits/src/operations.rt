//! The operations by name. The number of a variant is the operation's number in the instruction.
//! `st_format` decodes to these names; `st_prep`, `st_exec`, `st_field`, `st_conn`, the assembler
//! and the disassembler distinguish cases by them. The comments say in short what each operation
//! does; docs/operations.md and docs/instructions.md have the rules.
//!
//! Proved: nothing here, since there is no function; the specs of these crates say what an
//! operation does. Pinned: the numbers, by specs/Operations.antt of `st_format`, by
//! docs/operations.md, docs/instructions.md and vectors/mnemonics.txt. A new operation begins with
//! a variant here; docs/changing.md lists the other places. Free: a name, if the code and
//! definitions that use it change.

/// An operation of the half-word format outside the branch group.
///
/// The index word is the one in the instruction's J field. The effective address is the sum of the
/// instruction's address and the value of the index word in its I field.
#[derive(Clone, Copy, Debug, PartialEq, Eq)]
pub enum HalfOp {
    /// Load index: the index word is replaced by a word of storage.
    Lx = 1,
    /// Load value: the value and its sign are loaded from a word of storage.
    Lv = 2,
    /// Load count: the count is loaded from a word of storage.
    Lc = 3,
    /// Load refill: the refill address is loaded from a word of storage.
    Lr = 4,
    /// Store index: the index word is stored in a word of storage.
    Sx = 5,
    /// Store value: the value and its sign are stored in a word of storage.
    Sv = 6,
    /// Store count: the count is stored in a word of storage.
    Sc = 7,
    /// Store refill: the refill address is stored in a word of storage.
    Sr = 8,
    /// Store value in address: the leading bits of the value are stored in the address part of a
    /// half-word.
    Sva = 9,
    /// Add to value: the value of a word of storage is added to the index value.
    VPlus = 10,
    /// Add to value as `VPlus`, then count down.
    VPlusC = 11,
    /// Compare the value with that of a word of storage.
    Kv = 13,
    /// Load value with sum: the value becomes the sum of the values of the index words that the
    /// instruction selects.
    Lvs = 14,
    /// Load value immediate: the value becomes the effective address.
    Lvi = 16,
    /// Load count immediate: the count becomes the word part of the effective address.
    Lci = 17,
    /// Load refill immediate: the refill address becomes the word part of the effective address.
    Lri = 18,
    /// Add immediate to value: the effective address is added to the value.
    VPlusI = 19,
    /// Subtract immediate from value: the effective address is subtracted from the value.
    VMinusI = 20,
    /// Add immediate to value and count down.
    VPlusIC = 21,
    /// Add immediate to value, count down, and refill if the count became zero.
    VPlusICR = 22,
    /// Compare the value with the effective address.
    Kvi = 24,
    /// Compare the count with that of a word of storage.
    Kc = 25,
    /// Compare the count with the word part of the effective address.
    Kci = 26,
    /// Count and branch: count down, then branch if the count is not zero.
    Cb = 27,
    /// Count, branch and refill: as `Cb`, and refill if the count became zero.
    Cbr = 28,
    /// Refill: the index word is replaced by the word at its refill address.
    R = 29,
    /// Execute: the instruction at the effective address is executed.
    Ex = 30,
}

/// An operation of the branch group.
#[derive(Clone, Copy, Debug, PartialEq, Eq)]
pub enum BranchOp {
    /// Branch to the effective address.
    B = 0,
    /// Branch relative: the branch target is the sum of the effective address and the program
    /// counter.
    Br = 1,
    /// Branch enabled: interrupts are enabled.
    Be = 2,
    /// Branch disabled: interrupts are disabled.
    Bd = 3,
    /// Branch enabled and wait: interrupts are enabled and the machine waits; there is no branch.
    Bew = 4,
    /// No operation.
    Nop = 5,
}

/// An operation on a field of variable length, binary or decimal.
#[derive(Clone, Copy, Debug, PartialEq, Eq)]
pub enum VflOp {
    /// Load: the field is loaded into the accumulator.
    L = 1,
    /// Load with flag: as `L`, and also loads the zone and the flags of the field's sign byte.
    Lwf = 2,
    /// Load transit and set: the field is loaded into the transit register, and its indicator is
    /// turned on.
    Ltrs = 3,
    /// Load factor: the field is loaded into the factor register.
    Lft = 4,
    /// Store: the accumulator is stored in the field.
    St = 5,
    /// Add the field to the accumulator.
    Add = 7,
    /// Add to magnitude: the field, with its sign, is added to the magnitude of the accumulator,
    /// which keeps its sign. A sum below 0 counts as 0.
    AddMg = 8,
    /// Add to memory: the accumulator is added to the field.
    MAdd = 9,
    /// Add to memory, magnitude: the accumulator with its sign is added to the magnitude of the
    /// field, whose sign does not change.
    MAddMg = 10,
    /// Add one to memory.
    MAdd1 = 11,
    /// Compare the accumulator with the field.
    K = 12,
    /// Compare field: as `K`, but with only as many bits or digits of the accumulator as the
    /// field's magnitude has.
    Kf = 13,
    /// Compare if equal: as `K`, if AE is on.
    Ke = 14,
    /// Compare field if equal: as `Kf`, if AE is on.
    Kfe = 15,
    /// Compare for range: the field is the upper end of a range. Has an effect only if AL is off.
    Kr = 16,
    /// Compare field for range: as `Kr`, with as many bits or digits as the field's magnitude has.
    /// Has an effect only if AL is off.
    Kfr = 17,
    /// Multiply. In decimal only the field is loaded, as by `Ltrs`.
    Mul = 18,
    /// Multiply and add: the product of the field and the factor is added to the accumulator. In
    /// decimal only the field is loaded, as by `Ltrs`.
    MulAdd = 19,
    /// Divide. In decimal only the field is loaded, as by `Ltrs`.
    Div = 20,
    /// Load converted: the field is converted to the other radix and loaded.
    Lcv = 21,
}

/// The destination of the result of a connective.
#[derive(Clone, Copy, Debug, PartialEq, Eq)]
pub enum ConnKind {
    /// Connect: the result goes to the accumulator.
    C = 0,
    /// Connect to memory: the result goes to the field.
    Cm = 1,
    /// Connect for test: the result is only tested.
    Ct = 2,
}
