//! The values of a statement's expressions, in bits, under a table of symbols. A statement has at
//! most two expressions, so two numbers serve all. docs/strap.md has the rules of expressions.
//! naming.rt takes the first value for locations; valuing.rt and alone.rt pass both to checks.rt
//! and emitting.rt.
//!
//! Proved: `values_of` is the definition of its name in specs/Values.antt, `wrapped` is
//! `value_modulo`. A name that is not defined counts as 0; no result shows this, because the name
//! pass refuses such names.
//!
//! Pinned: which expression of a statement is the first and which the second, by specs/Values.antt;
//! the values, by docs/strap.md and vectors/texts.txt. A new kind of statement needs a case here,
//! and one of `expressions` in specs/Symbols.antt. Free: the split into functions.

ghost use Rattle.std.specs.Prelude.{◌≡◌, ◌<◌, ◌^◌, pos};
ghost use Rattle.st_asm.specs.Values as spec;

use st_expr::{ExprText, Symbols};
use st_strap::{CompactStatement, Statement};

// The values of a statement's first and second expression, in bits; 0 if there is no such
// expression.
#[derive(Clone, Copy)]
pub(crate) struct Values {
    // The value of the first expression.
    pub first: i64,
    // The value of the second expression.
    pub second: i64,
}

// The values of a statement's expressions; an expression with a name that is not defined has the
// value 0.
pub(crate) fn values_of(symbols: &Symbols, statement: &CompactStatement) -> Values
    ensures { result ≡ spec.values_of symbols.now statement.now }
{
    match statement {
        Statement::Half { at, .. }
        | Statement::Floating { at, .. }
        | Statement::Vfl { at, .. }
        | Statement::Connect { at, .. }
        | Statement::Transfer { at, .. } => value_alone(symbols, &at.expr),
        Statement::Branch { at: Some(at), .. } => value_alone(symbols, &at.expr),
        Statement::Move { at, second, .. }
        | Statement::BitBranch { at, second, .. }
        | Statement::IndBranch { at, second, .. }
        | Statement::StoreCounter { at, second } => two_values(symbols, &at.expr, second),
        Statement::IndexWord { value, refill, .. } => two_values(symbols, value, refill),
        Statement::Synonym { at }
        | Statement::SetLocation { at }
        | Statement::Reserve { at }
        | Statement::End { at } => value_alone(symbols, at),
        Statement::Sum { .. }
        | Statement::Refill { .. }
        | Statement::Data { .. }
        | Statement::Branch { at: None, .. } => Values {
            first: 0,
            second: 0,
        },
    }
}

// The values of a statement with one expression.
fn value_alone(symbols: &Symbols, e: &ExprText) -> Values
    ensures { result ≡ record { first = spec.value_in symbols.now e.now; second = pos 0 } }
{
    Values {
        first: value_in(symbols, e),
        second: 0,
    }
}

// The values of a statement with two expressions.
fn two_values(symbols: &Symbols, e: &ExprText, f: &ExprText) -> Values
    ensures { result ≡ record {
      first = spec.value_in symbols.now e.now;
      second = spec.value_in symbols.now f.now;
    } }
{
    Values {
        first: value_in(symbols, e),
        second: value_in(symbols, f),
    }
}

// The value of an expression, 0 if a name is not defined.
fn value_in(symbols: &Symbols, e: &ExprText) -> i64
    ensures { result ≡ spec.value_in symbols.now e.now }
{
    e.value(symbols).unwrap_or(0)
}

// A number modulo 2^24.
pub(crate) fn wrapped(value: i64) -> u32
    ensures value { result ≡ spec.value_modulo value }
    ensures below { result < 2 ^ 24 }
{
    value.rem_euclid(1 << 24) as u32
}
