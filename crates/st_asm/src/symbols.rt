//! The names in a statement's expressions, and whether a table of symbols defines them.
//! docs/strap.md has the rules. naming.rt calls `knows_all` and `names_in`, alone.rt `knows_all`.
//!
//! Proved: `knows_all` is `accepts_all` of specs/Symbols.antt with the names of the table; the
//! table of `names_in` has exactly the names that cards define (`names_of`). The values in the
//! table of `names_in` mean nothing.
//!
//! Pinned: which expressions a statement has, by `expressions` there and docs/strap.md. A new kind
//! of statement needs a case of `knows_all`, one of `expressions`, and one in values.rt. Free: the
//! form of the search, if proofs/symbols follows `knows`, `add_name` and `names_in`.

ghost use Rattle.std.specs.Prelude.{◌≡◌, ◌||◌, List, ℕ, IfOk, OnOk};
ghost use Rattle.st_text.specs.Tables.{is_same};
ghost use Rattle.st_asm.specs.Symbols as spec;

use crate::line::ReadCard;
use st_bits::NoMemory;
use st_expr::{ExprText, Symbols};
use st_strap::{CompactStatement, Statement};
use std::alloc::Global;

// Whether each name in a statement's expressions is in a table.
pub(crate) fn knows_all(symbols: &Symbols, statement: &CompactStatement) -> bool
    ensures { result ≡ spec.accepts_all (spec.is_defined symbols.now) statement.now }
{
    match statement {
        Statement::Half { at, .. }
        | Statement::Floating { at, .. }
        | Statement::Vfl { at, .. }
        | Statement::Connect { at, .. }
        | Statement::Transfer { at, .. } => knows(symbols, &at.expr),
        Statement::Branch { at: Some(at), .. } => knows(symbols, &at.expr),
        Statement::Move { at, second, .. }
        | Statement::BitBranch { at, second, .. }
        | Statement::IndBranch { at, second, .. }
        | Statement::StoreCounter { at, second } => {
            knows(symbols, &at.expr) && knows(symbols, second)
        }
        Statement::IndexWord { value, refill, .. } => {
            knows(symbols, value) && knows(symbols, refill)
        }
        Statement::Synonym { at }
        | Statement::SetLocation { at }
        | Statement::Reserve { at }
        | Statement::End { at } => knows(symbols, at),
        Statement::Sum { .. }
        | Statement::Refill { .. }
        | Statement::Data { .. }
        | Statement::Branch { at: None, .. } => true,
    }
}

// Whether each name in an expression is in a table.
fn knows(symbols: &Symbols, expr: &ExprText) -> bool
    ensures { result ≡ spec.accepts (spec.is_defined symbols.now) expr.now.items }
{
    expr.value(symbols).is_some()
}

// A table of the names of all cards; their values are not meaningful.
pub(crate) fn names_in(alloc: Global, lines: &[ReadCard]) -> Result<Symbols, NoMemory>
    ensures { IfOk result (λ t. (name : List ℕ)
        → spec.is_defined t name ≡ spec.has_name (spec.names_of lines.now) name) }
{
    let mut names = Symbols::new(alloc);
    let mut rest = lines;
    // Proofs name the loop by its label.
    'lines: while let [line, after @ ..] = rest {
        if let Some(name) = line.name {
            add_name(&mut names, name)?;
        }
        rest = after;
    }
    Ok(names)
}

// Adds a name to a table.
fn add_name(names: &mut Symbols, name: [u8; 8]) -> Result<(), NoMemory>
    ensures { OnOk result ((query : List ℕ) → spec.is_defined names.new query
        ≡ (spec.is_defined names.old query || is_same query name)) }
{
    match names.define(name, 0) {
        Ok(_) => Ok(()),
        Err(_) => Err(NoMemory),
    }
}
