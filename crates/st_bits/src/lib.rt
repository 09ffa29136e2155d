//! Words, fields, register words and index words, and the names and numbers of indicators, limits
//! and operations. docs/machine.md, docs/index-words.md and docs/operations.md have the rules. Most
//! crates of the machine and of the assembler use them; nothing here has a state.
//!
//! Proved: each call returns what a definition of specs/ says (Bits, IndexWord, Registers, Storage,
//! Indicators). Pinned: the numbers of the constants, by the laws `LimitsInFigures`,
//! `ControlsInFigures`, `RegistersInFigures` and `IndicatorsInFigures` (specs/Laws.antt of
//! `st_laws`); the results, by these definitions and the three pages. Free: the bodies, if their
//! proofs follow.
#![tactic(auto)]

mod fields;
mod index_words;
pub mod indicators;
pub mod limits;
mod operations;
mod parts;
pub mod register;
mod storage;

pub use fields::{get_field, put_field};
pub use index_words::{count_of, refill_of, value_of, with_count, with_refill, with_value};
pub use limits::WORDS;
pub use operations::{BranchOp, ConnKind, HalfOp, VflOp};
pub use parts::{part, with_part};
pub use register::fix_register;
pub use storage::{Ind, NoMemory, indicator, number_of_words};
