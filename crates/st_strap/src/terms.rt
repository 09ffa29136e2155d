//! Converts a statement whose addresses are texts to one whose addresses are lists of terms. Only
//! `read_statement` of reading.rt calls this module; docs/CLAIMS.md offers that call. The programs
//! use `read_compact`, which keeps texts. docs/strap.md describes statements.
//!
//! Proved, by the clause of `statement_terms`: the result equals the argument, because contracts
//! see both representations of an address as equal values. So no field is changed or confused.
//!
//! Pinned: the clause of `statement_terms`, by the contract of `read_statement`. Free: how the
//! cases are written. A new variant of `Statement` (statement.rt) needs a case; the compiler names
//! a missing one.

ghost use Rattle.std.specs.Prelude.{◌≡◌};

use crate::statement::{CompactSpot, CompactStatement, Spot, Statement};

// The statement with its addresses as lists of terms.
pub(crate) fn statement_terms(statement: CompactStatement) -> Statement
    ensures { result ≡ statement }
{
    match statement {
        Statement::Half { op, j, at } => Statement::Half {
            op,
            j,
            at: spot_terms(at),
        },
        Statement::Sum { j, list } => Statement::Sum { j, list },
        Statement::Refill { j } => Statement::Refill { j },
        Statement::Branch { op, at: None } => Statement::Branch { op, at: None },
        Statement::Branch { op, at: Some(at) } => Statement::Branch {
            op,
            at: Some(spot_terms(at)),
        },
        Statement::Floating { number, at } => Statement::Floating {
            number,
            at: spot_terms(at),
        },
        Statement::Vfl {
            op,
            negated,
            form,
            at,
            offset,
        } => Statement::Vfl {
            op,
            negated,
            form,
            at: spot_terms(at),
            offset,
        },
        Statement::Connect {
            kind,
            table,
            form,
            at,
            offset,
        } => Statement::Connect {
            kind,
            table,
            form,
            at: spot_terms(at),
            offset,
        },
        Statement::Move {
            swap,
            at,
            second,
            count,
        } => Statement::Move {
            swap,
            at: spot_terms(at),
            second: second.terms(),
            count,
        },
        Statement::BitBranch {
            sense,
            change,
            at,
            second,
        } => Statement::BitBranch {
            sense,
            change,
            at: spot_terms(at),
            second: second.terms(),
        },
        Statement::IndBranch {
            sense,
            off,
            at,
            second,
        } => Statement::IndBranch {
            sense,
            off,
            at: spot_terms(at),
            second: second.terms(),
        },
        Statement::StoreCounter { at, second } => Statement::StoreCounter {
            at: spot_terms(at),
            second: second.terms(),
        },
        Statement::Transfer { write, at, count } => Statement::Transfer {
            write,
            at: spot_terms(at),
            count,
        },
        Statement::Data {
            form,
            minus,
            number,
        } => Statement::Data {
            form,
            minus,
            number,
        },
        Statement::IndexWord {
            value,
            count,
            refill,
            flags,
        } => Statement::IndexWord {
            value: value.terms(),
            count,
            refill: refill.terms(),
            flags,
        },
        Statement::Synonym { at } => Statement::Synonym { at: at.terms() },
        Statement::SetLocation { at } => Statement::SetLocation { at: at.terms() },
        Statement::Reserve { at } => Statement::Reserve { at: at.terms() },
        Statement::End { at } => Statement::End { at: at.terms() },
    }
}

// The address as a list of terms.
fn spot_terms(at: CompactSpot) -> Spot
    ensures { result ≡ at }
{
    Spot {
        expr: at.expr.terms(),
        index: at.index,
    }
}
