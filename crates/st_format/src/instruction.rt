//! Instructions and their fields: the values to which bits decode and from which the assembler
//! encodes. docs/instructions.md has the formats. `st_prep`, `st_exec`, `st_next`, `st_plain`,
//! `st_asm` and `st_dis` distinguish cases by these variants. Field names are shared by the
//! variants: `i` is the index word that modifies the address, `j` the index word that the operation
//! works on, `sense` the value of the bit for which a branch is taken.
//!
//! Proved: `is_valid` and the defaults are definitions of specs/Formats.antt; `IsShape` there has
//! the range of each field; decoding yields such values, and encoding requires such values.
//!
//! Pinned, by specs/Formats.antt, docs/instructions.md and the definitions of the crates named
//! above: variants and fields. A new kind of instruction is a variant here, with its cases in
//! specs/Formats.antt, decoding.rt and encoding.rt; docs/changing.md lists the other places. Free:
//! the bodies.
use crate::operations::{FullOp, UNUSED};
use st_bits::{BranchOp, ConnKind, HalfOp, VflOp};

/// An instruction, or invalid bits.
///
/// The address of a half-word instruction is a half-word address below 2^19, that of a full-word
/// instruction a bit address below 2^24, and a second address is a half-word address below 2^19.
/// The index fields `i` and `j` are 0 to 15.
#[derive(Clone, Copy, Debug, PartialEq, Eq)]
pub enum Instr {
    /// An operation of the half-word format.
    Half {
        op: HalfOp,
        address: u32,
        j: u8,
        i: u8,
    },
    /// An operation of the branch group.
    Branch {
        op: BranchOp,
        address: u32,
        i: u8,
    },
    /// An operation of the floating group, which the machine does not implement. Its number is 0 to
    /// 15.
    Floating {
        number: u8,
        address: u32,
        i: u8,
    },
    /// An operation on a field. `p`, 0 to 7, is the progressive form, `length` is 1 to 64, `byte`
    /// is 1 to 8 and `offset` is 0 to 127. The length 64 and the byte size 8 are encoded as 0.
    Vfl {
        op: VflOp,
        decimal: bool,
        unsigned: bool,
        negated: bool,
        p: u8,
        length: u8,
        byte: u8,
        offset: u8,
        address: u32,
        i: u8,
    },
    /// A connective. The highest bit of `table`, 0 to 15, is the result for two zeros, its lowest
    /// that for two ones. The other fields are those of an operation on a field.
    Connect {
        kind: ConnKind,
        table: u8,
        p: u8,
        length: u8,
        byte: u8,
        offset: u8,
        address: u32,
        i: u8,
    },
    /// A transmission: copies or exchanges words. `count`, 1 to 16, is the number of words; 16 is
    /// encoded as 0.
    Move {
        swap: bool,
        address: u32,
        i: u8,
        second: u32,
        count: u8,
    },
    /// A branch on a bit of storage. `change`, 0 to 3, is the change of the bit after the test: it
    /// is left unchanged, cleared, set or inverted.
    BitBranch {
        sense: bool,
        change: u8,
        address: u32,
        i: u8,
        second: u32,
    },
    /// A branch on an indicator, which is turned off after the test if `off` is true.
    IndBranch {
        sense: bool,
        off: bool,
        address: u32,
        i: u8,
        second: u32,
    },
    /// Stores the program counter and branches.
    StoreCounter {
        address: u32,
        i: u8,
        second: u32,
    },
    /// An order to the reader, or to the printer if `write` is true. It takes effect `count`
    /// instructions later, 1 to 1,000.
    Transfer {
        write: bool,
        address: u32,
        i: u8,
        count: u32,
    },
    /// Invalid bits: two half-words if `full` is true; otherwise one, and `second` is 0.
    Invalid {
        first: u32,
        second: u32,
        full: bool,
    },
}

/// The format of an instruction, with the operation if the format has one: the part of the decoding
/// that precedes the extraction of the fields.
#[derive(Clone, Copy, Debug, PartialEq, Eq)]
pub enum Format {
    /// The half-word format.
    Index(HalfOp),
    /// The branch group of the half-word format.
    Branch(BranchOp),
    /// The floating group of the half-word format.
    Floating,
    /// The full-word format.
    Whole(FullOp),
    /// An invalid half-word.
    NoHalf,
    /// An invalid full word.
    NoWhole,
}

/// An instruction and its length in half-words, 1 or 2.
#[derive(Clone, Copy, Debug, PartialEq, Eq)]
pub struct Decoded {
    /// The instruction, or its bits if they are invalid.
    pub instr: Instr,
    /// Its length: 1 half-word, or 2.
    pub halves: u8,
}

impl Default for Instr {
    ghost use Rattle.st_format.specs.Formats.{IsBlank};

    // The definition of the default value.
    ghost is_default = { IsBlank };

    /// An invalid half-word.
    fn default() -> Instr {
        Instr::Invalid {
            first: UNUSED as u32 * 16,
            second: 0,
            full: false,
        }
    }
}

impl Default for Decoded {
    ghost use Rattle.st_format.specs.Formats.{IsBlankDecoded};

    // The definition of the default value.
    ghost is_default = { IsBlankDecoded };

    /// An invalid half-word.
    fn default() -> Decoded {
        Decoded {
            instr: Instr::default(),
            halves: 1,
        }
    }
}

impl Instr {
    ghost use Rattle.std.specs.Prelude.{◌≡◌};
    ghost use Rattle.st_format.specs.Formats.{is_valid as is_valid_of};

    /// Whether the machine implements this instruction: false for invalid bits and for the floating
    /// group.
    pub fn is_valid(&self) -> bool
        ensures { result ≡ is_valid_of self.now }
    {
        !matches!(self, Instr::Floating { .. } | Instr::Invalid { .. })
    }
}
