//! Operations on fields as binary (`st_bin`) and decimal (`st_dec`) share them: fields of storage,
//! the accumulator, signed numbers and result indicators. docs/variable-fields.md has the rules.
//! `st_conn` and `st_exec` use `Acc`, `Done` and a few more. Nothing here reads storage or
//! registers: inputs are values, and a result, `Done`, says what `st_exec` has to write.
//!
//! Proved: each call returns what a definition of a file in specs/ says, which the head of its
//! module names; `operate` is `result_of` of specs/Bases.antt for each base. Pinned, by these
//! definitions, docs/operations.md, docs/variable-fields.md, vectors/binary.txt and
//! vectors/decimal.txt: the results of the public calls. Free: the bodies, if their proofs in
//! proofs/ follow.
#![tactic(auto, unfolding( //
crate::specs::Bases::fields, //
crate::specs::Bases::numbers_compared, //
crate::specs::Bases::store_result //
))]

pub mod accumulator;
mod base;
mod comparisons;
mod digits;
pub mod fields;
pub mod indicators;
mod loads;
pub mod operand;
mod operations;
mod outcome;
pub mod signed;

pub use accumulator::Acc;
pub use base::{Base, Taken, take};
pub use digits::{digits_value, power_of_ten, to_digits};
pub use fields::{Field, Shape, read_field, write_field};
pub use loads::{load, load_transit};
pub use operand::{Aligned, Kept, align, cut, shift};
pub use operations::operate;
pub use outcome::{Done, done_with, in_accumulator, in_field};
pub use signed::Signed;
