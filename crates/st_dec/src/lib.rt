//! Decimal operations on fields: their results in the accumulator, the field, the registers and the
//! indicators. docs/variable-fields.md has the rules. `st_exec` (fields.rt) calls `decimal`, the
//! one public function.
//!
//! Proved: the clause `done` of `decimal` says that the result is `result` of
//! specs/DecimalResult.antt. The law `DigitsAgree` (specs/Laws.antt of `st_laws`) says that lists
//! of digits have the values that conversions of `st_field` give. Pinned, by that definition,
//! docs/operations.md, vectors/decimal.txt and docs/CLAIMS.md: `decimal`, its clauses and its
//! results. Free: the private modules, if their proofs in proofs/ follow.
#![tactic(auto, unfolding( //
crate::specs::DecimalResult::binary_value, //
crate::specs::DecimalResult::result //
))]

mod accumulator;
mod base;
mod digits;
mod loads;
mod operand;
mod operations;
mod stores;

pub use operations::decimal;
