//! Connectives: bitwise logic on a field and the accumulator, and its result. docs/connectives.md
//! has the rules. `st_exec` calls `connective`, which uses `connect` and, if the result goes to the
//! accumulator, `put_acc`.
//!
//! Proved: each call returns what a definition of specs/ says: `connection` (Connection.antt),
//! `connective_bits` and `accumulator_bits` (Connective.antt). Pinned: these results, by
//! docs/connectives.md, vectors/connectives.txt and model/connectives.py; `connective`, by
//! `st_exec` and docs/CLAIMS.md. Free: the bodies, if their proofs follow.
#![tactic(auto)]

mod connections;
mod logic;
mod placement;

pub use connections::{ConnShape, connective};
