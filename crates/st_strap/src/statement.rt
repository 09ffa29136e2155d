//! Statements and their addresses: the values that a card is parsed to. The parsers of this crate
//! make them; the passes of `st_asm` take them. docs/strap.md describes the operations.
//!
//! Addresses have two representations, `Expr` (terms) and `ExprText` (text), which contracts see as
//! equal values. An address that can have an index part is a `Spot`, one that can have none is an
//! expression.
//!
//! Proved: nothing here, there is no code. The numbers of index words and forms of every parsed
//! statement are in range (`IsWellFormed` in specs/WellFormed.antt, proved in
//! proofs/StatementLemmas.antt); `st_asm` requires this.
//!
//! Pinned, by specs/Saying.antt and the definitions of `st_asm`: variants and fields. A new kind of
//! statement needs cases in these, in saying.rt and in terms.rt. Free: the representation of
//! addresses, and the derived traits.

use st_bits::{BranchOp, ConnKind, HalfOp, VflOp};
use st_expr::{Expr, ExprText};
use st_mnemonic::Form;

/// An address with the index word that modifies it. `E` is the representation of the address: its
/// terms or its text.
#[derive(Drop, Debug, PartialEq)]
pub struct Spot<E = Expr> {
    /// The expression of the address, a bit address.
    pub expr: E,
    /// The number of the index word, 1 to 15, or 0 for none.
    pub index: u8,
}

/// A statement: an instruction, or an order to the assembler. `at` is its first address, and
/// `second` is another one, in bits, without an index part. The numbers `offset`, `count`, `number`
/// and `flags` are the values read, below 2^64; the assembler checks later whether they fit. A
/// `form` is the data description of a field, as `(BU,64)` gives it. `negated` says that the
/// operation inverts the sign of its operand, `sense` for which value of the bit a branch is taken.
/// `E` is the representation of addresses: their terms or their texts.
#[derive(Drop, Debug, PartialEq)]
pub enum Statement<E = Expr> {
    /// An operation on the index word `j`, 0 to 15; EX has `j` 0.
    Half {
        op: HalfOp,
        j: u8,
        at: Spot<E>,
    },
    /// LVS: the most significant bit of `list` represents index word 0, the least significant one
    /// index word 15.
    Sum {
        j: u8,
        list: u16,
    },
    /// R.
    Refill {
        j: u8,
    },
    /// An operation of the branch group; BEW and NOP have no address.
    Branch {
        op: BranchOp,
        at: Option<Spot<E>>,
    },
    /// An operation of the floating group by its number, 1 to 6 or 9 to 14.
    Floating {
        number: u8,
        at: Spot<E>,
    },
    /// An operation on a field. `offset` is in bits.
    Vfl {
        op: VflOp,
        negated: bool,
        form: Form,
        at: Spot<E>,
        offset: u64,
    },
    /// A connective with its truth table, 0 to 15. `offset` is in bits.
    Connect {
        kind: ConnKind,
        table: u8,
        form: Form,
        at: Spot<E>,
        offset: u64,
    },
    /// T, or SWAP if `swap` is set, of `count` words.
    Move {
        swap: bool,
        at: Spot<E>,
        second: E,
        count: u64,
    },
    /// BB. `change` is the change of the bit: 0 none, 1 to zero, 2 to one, 3 inverted.
    BitBranch {
        sense: bool,
        change: u8,
        at: Spot<E>,
        second: E,
    },
    /// BI, which turns the indicator off if `off` is set.
    IndBranch {
        sense: bool,
        off: bool,
        at: Spot<E>,
        second: E,
    },
    /// SIC.
    StoreCounter {
        at: Spot<E>,
        second: E,
    },
    /// RD, or WR if `write` is set: the order takes effect `count` instructions later.
    Transfer {
        write: bool,
        at: Spot<E>,
        count: u64,
    },
    /// DD: a number that is assembled as a field, negative if `minus` is set.
    Data {
        form: Form,
        minus: bool,
        number: u64,
    },
    /// XW: an index word. Its value is in bits and may be negative; `count` is its count field, the
    /// refill is the address of a word, in bits, and `flags` has its three flag bits.
    IndexWord {
        value: E,
        count: u64,
        refill: E,
        flags: u64,
    },
    /// SYN: defines the card's name with this value.
    Synonym {
        at: E,
    },
    /// SLC: sets the location counter.
    SetLocation {
        at: E,
    },
    /// DR: reserves (skips) this number of bits.
    Reserve {
        at: E,
    },
    /// END, with the start address of the program.
    End {
        at: E,
    },
}

/// An address that is kept as text.
pub type CompactSpot = Spot<ExprText>;

/// A statement whose addresses are kept as text, which takes a seventh of the memory.
pub type CompactStatement = Statement<ExprText>;
