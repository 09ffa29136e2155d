//! Expressions and their symbols, by the rules of docs/strap.md. `st_strap` parses fields by
//! `ExprText`, `st_asm` has the symbol table (`Symbols`) and takes values; `st_dis` passes an empty
//! table on.
//!
//! Proved: each call returns what a definition of specs/ says: `expr_of` (Expression.antt),
//! `is_name` (Name.antt), `system_symbols` (System.antt), `atom_of` (Term.antt), `sum_of_terms`
//! (Value.antt).
//!
//! Pinned, by these definitions, docs/strap.md, docs/CLAIMS.md, vectors/texts.txt,
//! vectors/faults.txt and vectors/mnemonics.txt: the results of the exported calls. Free: the
//! bodies, if their proofs in proofs/ follow.
#![tactic(auto)]

mod expressions;
mod names;
mod system;
mod terms;
mod texts;
mod values;

pub use expressions::{Expr, read_expr};
pub use names::{is_name, padded};
pub use terms::{Atom, Term};
pub use texts::ExprText;
pub use values::{Symbols, value_of};
