//! The operations of both formats by their numbers in the instruction. decoding.rt goes from a
//! number to an operation, `None` if there is none; encoding.rt goes back. `st_prep` and
//! `st_mnemonic` call `writes_field`, which tells whether an operation writes its field; `st_exec`
//! and `st_next` use `FullOp` too. docs/instructions.md has the numbers.
//!
//! Proved: each look-up is the definition of its name in specs/Operations.antt (`full_op`,
//! `half_number` and so on), by the tables of numbers and mnemonics there.
//!
//! Pinned, by these tables, docs/instructions.md and vectors/mnemonics.txt: the numbers; by the law
//! `FormatsInFigures` (specs/Laws.antt of `st_laws`): the three constants; by the crates named:
//! `FullOp` and `writes_field`. Free: the form of the matches. docs/changing.md lists what a new
//! operation changes.
ghost use Rattle.std.specs.Prelude.{◌≡◌, ◌<◌};
ghost use Rattle.st_format.specs.Operations.{half_op as half_op_of, branch_op as branch_op_of, full_op as full_op_of, kind as kind_of, half_number as half_number_of, branch_number as branch_number_of, vfl_number as vfl_number_of, kind_number as kind_number_of, numbered_op as numbered_op_of, writes_field as writes_field_of};

use crate::fields::{later, part};
use st_bits::{BranchOp, ConnKind, HalfOp, VflOp};

/// The number of the floating group, whose operations are numbered by J. The machine does not
/// implement it.
pub const FLOATING_GROUP: u8 = 0;
/// The number of the branch group, whose operations are numbered by J.
pub const BRANCH_GROUP: u8 = 23;
/// The unused operation number of the half-word format.
pub const UNUSED: u8 = 12;

/// An operation of the full-word format.
#[derive(Clone, Copy, Debug, PartialEq, Eq)]
pub enum FullOp {
    /// An operation on a field.
    Variable(VflOp),
    /// A connective.
    Connective(ConnKind),
    /// T, or SWAP if `swap` is true.
    Transmission { swap: bool },
    /// BB.
    BitTest,
    /// BI.
    IndicatorTest,
    /// RD, or WR if `write` is true.
    Order { write: bool },
    /// SIC.
    CounterStore,
}

/// The half-word operation with this number, outside the floating group and the branch group.
pub fn half_op(number: u8) -> Option<HalfOp>
    requires { number < 32 }
    ensures { result ≡ half_op_of number }
{
    match number {
        1 => Some(HalfOp::Lx),
        2 => Some(HalfOp::Lv),
        3 => Some(HalfOp::Lc),
        4 => Some(HalfOp::Lr),
        5 => Some(HalfOp::Sx),
        6 => Some(HalfOp::Sv),
        7 => Some(HalfOp::Sc),
        8 => Some(HalfOp::Sr),
        9 => Some(HalfOp::Sva),
        10 => Some(HalfOp::VPlus),
        11 => Some(HalfOp::VPlusC),
        13 => Some(HalfOp::Kv),
        14 => Some(HalfOp::Lvs),
        16 => Some(HalfOp::Lvi),
        17 => Some(HalfOp::Lci),
        18 => Some(HalfOp::Lri),
        19 => Some(HalfOp::VPlusI),
        20 => Some(HalfOp::VMinusI),
        21 => Some(HalfOp::VPlusIC),
        22 => Some(HalfOp::VPlusICR),
        24 => Some(HalfOp::Kvi),
        25 => Some(HalfOp::Kc),
        26 => Some(HalfOp::Kci),
        27 => Some(HalfOp::Cb),
        28 => Some(HalfOp::Cbr),
        29 => Some(HalfOp::R),
        30 => Some(HalfOp::Ex),
        _ => None,
    }
}

/// The branch with this number.
pub fn branch_op(number: u8) -> Option<BranchOp>
    ensures { result ≡ branch_op_of number }
{
    match number {
        0 => Some(BranchOp::B),
        1 => Some(BranchOp::Br),
        2 => Some(BranchOp::Be),
        3 => Some(BranchOp::Bd),
        4 => Some(BranchOp::Bew),
        5 => Some(BranchOp::Nop),
        _ => None,
    }
}

/// The operation of a full word with this second half-word.
pub fn full_op(second: u32) -> Option<FullOp>
    ensures { result ≡ full_op_of second }
{
    if later(second, 51, 1) == 1 {
        kind(later(second, 56, 2)).map(FullOp::Connective)
    } else {
        numbered_op(later(second, 55, 5))
    }
}

// The operation with this number in bits 55-59, connectives excluded.
fn numbered_op(number: u32) -> Option<FullOp>
    requires { number < 32 }
    ensures { result ≡ numbered_op_of number }
{
    match number {
        1 => Some(FullOp::Variable(VflOp::L)),
        2 => Some(FullOp::Variable(VflOp::Lwf)),
        3 => Some(FullOp::Variable(VflOp::Ltrs)),
        4 => Some(FullOp::Variable(VflOp::Lft)),
        5 => Some(FullOp::Variable(VflOp::St)),
        7 => Some(FullOp::Variable(VflOp::Add)),
        8 => Some(FullOp::Variable(VflOp::AddMg)),
        9 => Some(FullOp::Variable(VflOp::MAdd)),
        10 => Some(FullOp::Variable(VflOp::MAddMg)),
        11 => Some(FullOp::Variable(VflOp::MAdd1)),
        12 => Some(FullOp::Variable(VflOp::K)),
        13 => Some(FullOp::Variable(VflOp::Kf)),
        14 => Some(FullOp::Variable(VflOp::Ke)),
        15 => Some(FullOp::Variable(VflOp::Kfe)),
        16 => Some(FullOp::Variable(VflOp::Kr)),
        17 => Some(FullOp::Variable(VflOp::Kfr)),
        18 => Some(FullOp::Variable(VflOp::Mul)),
        19 => Some(FullOp::Variable(VflOp::MulAdd)),
        20 => Some(FullOp::Variable(VflOp::Div)),
        21 => Some(FullOp::Variable(VflOp::Lcv)),
        24 => Some(FullOp::Transmission { swap: false }),
        25 => Some(FullOp::Transmission { swap: true }),
        26 => Some(FullOp::BitTest),
        27 => Some(FullOp::IndicatorTest),
        28 => Some(FullOp::Order { write: false }),
        29 => Some(FullOp::Order { write: true }),
        30 => Some(FullOp::CounterStore),
        _ => None,
    }
}

// The kind of connective with this number in bits 56-57.
fn kind(number: u32) -> Option<ConnKind>
    requires { number < 4 }
    ensures { result ≡ kind_of number }
{
    match number {
        0 => Some(ConnKind::C),
        1 => Some(ConnKind::Cm),
        2 => Some(ConnKind::Ct),
        _ => None,
    }
}

/// The operation number of a half-word operation, below 32.
pub fn half_number(op: HalfOp) -> u32
    ensures value { result ≡ half_number_of op }
    ensures bound { result < 32 }
{
    op as u32
}

/// The number of a branch in its J field, below 6.
pub fn branch_number(op: BranchOp) -> u32
    ensures value { result ≡ branch_number_of op }
    ensures bound { result < 6 }
{
    op as u32
}

/// The number of an operation on a field, below 22.
pub fn vfl_number(op: VflOp) -> u32
    ensures value { result ≡ vfl_number_of op }
    ensures bound { result < 22 }
{
    op as u32
}

/// The number of a kind of connective, below 3.
pub fn kind_number(kind: ConnKind) -> u32
    ensures value { result ≡ kind_number_of kind }
    ensures bound { result < 3 }
{
    kind as u32
}

/// Whether an operation writes its field.
pub fn writes_field(op: FullOp) -> bool
    ensures { result ≡ writes_field_of op }
{
    matches!(
        op,
        FullOp::Variable(VflOp::St | VflOp::MAdd | VflOp::MAddMg | VflOp::MAdd1)
            | FullOp::Connective(ConnKind::Cm)
    )
}
