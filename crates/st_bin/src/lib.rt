//! Binary operations on fields: their results in the accumulator, the field, the registers and the
//! indicators. docs/variable-fields.md has the rules. `st_exec` calls `binary`, and uses the types
//! of `st_field` from here.
//!
//! Proved: the result is `result` of specs/BinaryResult.antt; bits that are written fit the field
//! (clause `field`). Pinned: the result, by docs/operations.md, vectors/binary.txt and
//! model/binary.py; `binary` and `Registers`, by `st_exec`. Free: the bodies, if their proofs
//! follow.
#![tactic(auto, unfolding( //
crate::specs::BinaryResult::conversion_result, //
crate::specs::BinaryResult::product, //
crate::specs::BinaryResult::product_added, //
crate::specs::BinaryResult::quotient_result, //
crate::specs::BinaryResult::result //
))]

mod base;
mod conversion;
mod operations;

pub use operations::{Registers, binary};
pub use st_field::{Acc, Done, Field, Shape, digits_value, read_field, to_digits, write_field};
