//! The two instruction formats, their decoding and their encoding. docs/instructions.md has the
//! rules. `st_prep` and `st_next` decode for the machine, `st_dis` for the disassembler; `st_asm`
//! and `st_plain` encode. `st_exec` and `st_ring` use `Instr`, `st_mnemonic` the groups of
//! operations, `st_lines` lengths.
//!
//! Proved: decoding is `decoded_entry`, encoding `first_half` and `second_half` of
//! specs/Formats.antt. Decoding and encoding are inverse: the laws `BitsSpellInstruction` and
//! `InstructionKeepsBits` in specs/Laws.antt. Pinned, by these definitions, docs/instructions.md,
//! docs/CLAIMS.md, vectors/words.txt and vectors/mnemonics.txt: the bits. Free: the bodies, if
//! their proofs in proofs/ follow.
//!
//! A half-word instruction has 32 bits:
//!
//! ```text
//!   0                  18 19  22 23   27 28 31
//!  +---------------------+------+-------+-----+
//!  |       address       |   J  |  op   |  I  |
//!  +---------------------+------+-------+-----+
//! ```
//!
//! A full-word instruction has two half-words, and bits 24-27 of the first are ones. The second
//! half-word of an operation on a field, decimal, binary or connective, is:
//!
//! ```text
//!   0                       23 24  27 28 31
//!  +--------------------------+------+-----+
//!  |         address          | 1111 |  I  |
//!  +--------------------------+------+-----+
//!   32 34 35    40 41  43 44    50 51       59 60 63
//!  +-----+--------+------+--------+-----------+-----+
//!  |  P  | length | byte | offset | operation |  K  |
//!  +-----+--------+------+--------+-----------+-----+
//! ```
//!
//! The second half-word of an instruction with two addresses, or with an address and a count, is:
//!
//! ```text
//!   32                      50 51       59 60 63
//!  +--------------------------+-----------+-----+
//!  |      second address      | operation |  K  |
//!  +--------------------------+-----------+-----+
//! ```
//!
//! The operation of a full word is:
//!
//! ```text
//!   51  52  53  54  55      59
//!  +---+---+---+---+----------+
//!  | 0 | D | U | N |  number  |   decimal, unsigned, negated; in a branch its sense
//!  +---+---+---+---+----------+
//!   51  52        55 56  57 58 59
//!  +---+------------+------+-----+
//!  | 1 |   table    | kind | 00  |   a connective
//!  +---+------------+------+-----+
//! ```
#![tactic(auto, unfolding( //
crate::specs::Formats::full_word_instruction, //
crate::specs::Formats::half_word, //
crate::specs::Formats::instruction_of, //
crate::specs::Halves::address_of, //
crate::specs::Halves::bit_address_of, //
crate::specs::Halves::byte_of, //
crate::specs::Halves::first_bits, //
crate::specs::Halves::half_bits, //
crate::specs::Halves::i_of, //
crate::specs::Halves::is_full, //
crate::specs::Halves::j_of, //
crate::specs::Halves::k_of, //
crate::specs::Halves::length_of, //
crate::specs::Halves::offset_of, //
crate::specs::Halves::operation_of, //
crate::specs::Halves::p_of, //
crate::specs::Halves::second_address_of, //
crate::specs::Halves::second_bits, //
crate::specs::Halves::second_half_bits, //
crate::specs::Halves::words_moved, //
crate::specs::Operations::branch_op, //
crate::specs::Operations::branch_ops, //
crate::specs::Operations::full_op, //
crate::specs::Operations::full_ops, //
crate::specs::Operations::half_op, //
crate::specs::Operations::half_ops, //
crate::specs::Operations::kind, //
crate::specs::Operations::kinds, //
crate::specs::Operations::numbered_op, //
crate::specs::Validity::breaks_rules, //
crate::specs::Validity::is_invalid_half //
))]

mod decoding;
mod encoding;
mod fields;
mod instruction;
mod operations;
mod rules;

pub use decoding::{decode, decode_as, format_of, length_in_halves};
pub use encoding::encode;
pub use instruction::{Decoded, Format, Instr};
pub use operations::{FullOp, writes_field};
pub use rules::misfits_field;
