//! Index arithmetic: effective addresses, changes of index words, and the index indicators.
//! docs/index-words.md has the rules. Only preparation (`st_prep`) uses these calls.
//!
//! Proved: each call returns exactly what a definition of specs/IndexChange.antt says. Pinned, by
//! these definitions, docs/CLAIMS.md, docs/index-words.md and vectors/index.txt: the results of the
//! exported calls. Free: the private functions and the bodies, with their proofs in proofs/.
#![tactic(auto)]

mod change;
mod results;
mod selection;

pub use change::{Changed, add_value, count_down, effective, progress};
pub use results::{compare, index_result};
pub use selection::sum_values;
