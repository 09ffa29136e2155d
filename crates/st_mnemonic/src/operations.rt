//! The operations by their mnemonics, the words with which statements begin. `st_strap`
//! (reading.rt) calls `operation_of` for each card; `st_strap`, descriptions.rt and forms.rt match
//! on `Operation`. docs/strap.md and docs/operations.md list the words.
//!
//! Proved: the result is `operation_of_word` of specs/Table.antt, by the tables there, which for
//! operations of the machine are those of `st_format`; so the tables here are equal to these.
//!
//! Pinned, by `operation_of_word`, docs/strap.md and vectors/mnemonics.txt: the mnemonics. A new
//! mnemonic is a row here and in specs/Table.antt (docs/changing.md has the rest). Free: the order
//! of the three look-ups in `listed_operation`, since no word is in two tables, if
//! proofs/operations follows.

ghost use Rattle.std.specs.Prelude.{◌≡◌, false};
ghost use Rattle.std.specs.Option.{option_or};
ghost use Rattle.st_text.specs.Tables.{row_of};
ghost use Rattle.st_mnemonic.specs.Table as spec;

use crate::parts::ends_with;
use st_bits::{BranchOp, ConnKind, HalfOp, VflOp};
use st_text::row_of;

/// An operation as its mnemonic names it. The variants from `Data` on are pseudo-operations, orders
/// to the assembler.
#[derive(Clone, Copy)]
pub enum Operation {
    /// An operation on an index word.
    Half(HalfOp),
    /// LVS, which loads the sum of listed index words.
    Sum,
    /// R.
    Refill,
    /// EX.
    Execute,
    /// A branch to an address.
    Branch(BranchOp),
    /// A branch without an address.
    Bare(BranchOp),
    /// An operation of the floating group by its number, 1 to 6 or 9 to 14. Only the data
    /// description distinguishes its mnemonic from that of an operation on a field.
    Floating(u8),
    /// An operation on a field.
    Vfl { op: VflOp, negated: bool },
    /// A connective with its truth table, 0 to 15.
    Connect { kind: ConnKind, table: u8 },
    /// T, or SWAP.
    Move { swap: bool },
    /// BB. `change` is the change of the bit: 0 none, 1 to zero, 2 to one, 3 inverted.
    BitBranch { sense: bool, change: u8 },
    /// BI. `off` says whether the indicator is turned off.
    IndBranch { sense: bool, off: bool },
    /// SIC.
    StoreCounter,
    /// RD, or WR if `write` is set.
    Transfer { write: bool },
    /// DD.
    Data,
    /// XW.
    IndexWord,
    /// SYN.
    Synonym,
    /// SLC.
    SetLocation,
    /// DR.
    Reserve,
    /// END.
    End,
}

// Operations on an index word and an address.
const INDEX_OPERATIONS: [(&[u8], HalfOp); 24] = [
    (b"LX", HalfOp::Lx),
    (b"LV", HalfOp::Lv),
    (b"LC", HalfOp::Lc),
    (b"LR", HalfOp::Lr),
    (b"SX", HalfOp::Sx),
    (b"SV", HalfOp::Sv),
    (b"SC", HalfOp::Sc),
    (b"SR", HalfOp::Sr),
    (b"SVA", HalfOp::Sva),
    (b"V+", HalfOp::VPlus),
    (b"V+C", HalfOp::VPlusC),
    (b"KV", HalfOp::Kv),
    (b"LVI", HalfOp::Lvi),
    (b"LCI", HalfOp::Lci),
    (b"LRI", HalfOp::Lri),
    (b"V+I", HalfOp::VPlusI),
    (b"V-I", HalfOp::VMinusI),
    (b"V+IC", HalfOp::VPlusIC),
    (b"V+ICR", HalfOp::VPlusICR),
    (b"KVI", HalfOp::Kvi),
    (b"KC", HalfOp::Kc),
    (b"KCI", HalfOp::Kci),
    (b"CB", HalfOp::Cb),
    (b"CBR", HalfOp::Cbr),
];

// Operations on a field; with a final N they are negated.
const FIELD_OPERATIONS: [(&[u8], VflOp); 20] = [
    (b"L", VflOp::L),
    (b"LWF", VflOp::Lwf),
    (b"LTRS", VflOp::Ltrs),
    (b"LFT", VflOp::Lft),
    (b"ST", VflOp::St),
    (b"+", VflOp::Add),
    (b"+MG", VflOp::AddMg),
    (b"M+", VflOp::MAdd),
    (b"M+MG", VflOp::MAddMg),
    (b"M+1", VflOp::MAdd1),
    (b"K", VflOp::K),
    (b"KF", VflOp::Kf),
    (b"KE", VflOp::Ke),
    (b"KFE", VflOp::Kfe),
    (b"KR", VflOp::Kr),
    (b"KFR", VflOp::Kfr),
    (b"*", VflOp::Mul),
    (b"*+", VflOp::MulAdd),
    (b"/", VflOp::Div),
    (b"LCV", VflOp::Lcv),
];

// All others, except the connectives.
const OTHER_OPERATIONS: [(&[u8], Operation); 32] = [
    (b"LVS", Operation::Sum),
    (b"R", Operation::Refill),
    (b"EX", Operation::Execute),
    (b"B", Operation::Branch(BranchOp::B)),
    (b"BR", Operation::Branch(BranchOp::Br)),
    (b"BE", Operation::Branch(BranchOp::Be)),
    (b"BD", Operation::Branch(BranchOp::Bd)),
    (b"BEW", Operation::Bare(BranchOp::Bew)),
    (b"NOP", Operation::Bare(BranchOp::Nop)),
    (b"T", Operation::Move { swap: false }),
    (b"SWAP", Operation::Move { swap: true }),
    (
        b"BB0",
        Operation::BitBranch {
            sense: false,
            change: 0,
        },
    ),
    (
        b"BB0Z",
        Operation::BitBranch {
            sense: false,
            change: 1,
        },
    ),
    (
        b"BB0S",
        Operation::BitBranch {
            sense: false,
            change: 2,
        },
    ),
    (
        b"BB0V",
        Operation::BitBranch {
            sense: false,
            change: 3,
        },
    ),
    (
        b"BB1",
        Operation::BitBranch {
            sense: true,
            change: 0,
        },
    ),
    (
        b"BB1Z",
        Operation::BitBranch {
            sense: true,
            change: 1,
        },
    ),
    (
        b"BB1S",
        Operation::BitBranch {
            sense: true,
            change: 2,
        },
    ),
    (
        b"BB1V",
        Operation::BitBranch {
            sense: true,
            change: 3,
        },
    ),
    (
        b"BI0",
        Operation::IndBranch {
            sense: false,
            off: false,
        },
    ),
    (
        b"BI0Z",
        Operation::IndBranch {
            sense: false,
            off: true,
        },
    ),
    (
        b"BI1",
        Operation::IndBranch {
            sense: true,
            off: false,
        },
    ),
    (
        b"BI1Z",
        Operation::IndBranch {
            sense: true,
            off: true,
        },
    ),
    (b"SIC", Operation::StoreCounter),
    (b"RD", Operation::Transfer { write: false }),
    (b"WR", Operation::Transfer { write: true }),
    (b"DD", Operation::Data),
    (b"XW", Operation::IndexWord),
    (b"SYN", Operation::Synonym),
    (b"SLC", Operation::SetLocation),
    (b"DR", Operation::Reserve),
    (b"END", Operation::End),
];

// The kinds of connectives.
const KINDS: [(&[u8], ConnKind); 3] = [
    (b"C", ConnKind::C),
    (b"CM", ConnKind::Cm),
    (b"CT", ConnKind::Ct),
];

// The truth tables of connectives: the results for 00, 01, 10 and 11.
const TRUTH_TABLES: [(&[u8], u8); 16] = [
    (b"0000", 0),
    (b"0001", 1),
    (b"0010", 2),
    (b"0011", 3),
    (b"0100", 4),
    (b"0101", 5),
    (b"0110", 6),
    (b"0111", 7),
    (b"1000", 8),
    (b"1001", 9),
    (b"1010", 10),
    (b"1011", 11),
    (b"1100", 12),
    (b"1101", 13),
    (b"1110", 14),
    (b"1111", 15),
];

/// The operation that a mnemonic names without a data description; `None` if the word is not a
/// mnemonic.
pub fn operation_of(word: &[u8]) -> Option<Operation>
    ensures { result ≡ spec.operation_of_word word.now }
{
    if let Some(op) = listed_operation(word) {
        return Some(op);
    }
    if let Some(op) = negated_operation(word) {
        return Some(op);
    }
    connective(word)
}

// The operation of a mnemonic in one of the tables. No mnemonic is in two tables, so the tables
// with the most frequent operations come first.
fn listed_operation(word: &[u8]) -> Option<Operation>
    ensures { result ≡ option_or (option_or (row_of word.now spec.other_operations)
        (spec.index_operation word.now))
        (spec.field_operation false word.now) }
{
    if let Some(op) = field_operation(word, false) {
        return Some(op);
    }
    if let Some(op) = row_of(&INDEX_OPERATIONS, word) {
        return Some(Operation::Half(op));
    }
    row_of(&OTHER_OPERATIONS, word)
}

// The operation on a field that a word names; `negated` is passed on.
fn field_operation(word: &[u8], negated: bool) -> Option<Operation>
    ensures { result ≡ spec.field_operation negated word.now }
{
    row_of(&FIELD_OPERATIONS, word).map(|op| Operation::Vfl { op, negated })
}

// An operation on a field whose mnemonic ends with N, for negated.
fn negated_operation(word: &[u8]) -> Option<Operation>
    ensures { result ≡ spec.negated_operation word.now }
{
    if ends_with(word, b'N') {
        field_operation(word.split_at(word.len().saturating_sub(1)).0, true)
    } else {
        None
    }
}

// A connective: its kind, followed by four digits of its truth table.
fn connective(word: &[u8]) -> Option<Operation>
    ensures { result ≡ spec.connective word.now }
{
    if word.len() < 4 {
        return None;
    }
    let (kind, digits) = word.split_at(word.len() - 4);
    row_of(&KINDS, kind)
        .zip(row_of(&TRUTH_TABLES, digits))
        .map(|(kind, table)| Operation::Connect { kind, table })
}
