//! The result of an operation on a field: all that the operation changes, as values that `st_exec`
//! writes. `None` says that a register or the field does not change. operations.rt, comparisons.rt,
//! loads.rt, `st_bin`, `st_dec` and `st_conn` make the results. docs/variable-fields.md has the
//! rules.
//!
//! Proved: the three usual results are `done_with`, `in_accumulator` and `in_field` of
//! specs/Results.antt. Pinned, by these definitions, docs/variable-fields.md, vectors/binary.txt
//! and vectors/decimal.txt: these results; by the definitions of `st_bin`, `st_dec`, `st_conn` and
//! `st_exec`: the fields of `Done`; a new field needs a change in all four. Free: the bodies.
ghost use Rattle.std.specs.Prelude.{◌≡◌, ◌<◌, ◌^◌};
ghost use Rattle.st_field.specs.Fields.{IsBinaryShape, HasRoom};
ghost use Rattle.st_field.specs.Results.{done_with as done_with_of, in_accumulator as in_accumulator_of, in_field as in_field_of};

use crate::accumulator::{Acc, signed_as};
use crate::fields::{Field, Shape, write_field};
use crate::indicators::by_number;
use crate::signed::Signed;
use st_bits::Ind;

/// The result of an operation on a field: the new contents of registers and of the field.
#[derive(Clone, Copy, Debug, PartialEq, Eq)]
pub struct Done {
    /// The accumulator with its sign byte.
    pub acc: Acc,
    /// The bits of the field, if it is written.
    pub field: Option<u64>,
    /// The remainder register, if it changes.
    pub rm: Option<u64>,
    /// The factor register, if it changes.
    pub ft: Option<u64>,
    /// The transit register, if it changes.
    pub tr: Option<u64>,
    /// The register with the counts of leading zeros and of ones, if it changes.
    pub counts: Option<u64>,
    /// The indicators that are turned on and off.
    pub ind: Ind,
}

/// The result with the accumulator `acc` that writes no field and no other register.
pub fn done_with(acc: &Acc, ind: Ind) -> Done
    ensures { result ≡ done_with_of acc.now ind }
{
    Done {
        acc: *acc,
        field: None,
        rm: None,
        ft: None,
        tr: None,
        counts: None,
        ind,
    }
}

/// The result with the accumulator `acc`, whose value `mag` is the result number; the indicators
/// `on` are also turned on.
pub fn in_accumulator(acc: Acc, mag: u128, on: u64) -> Done
    requires { on < 2 ^ 63 }
    ensures { result ≡ in_accumulator_of acc mag on }
{
    done_with(&acc, by_number(false, signed_as(&acc, mag), on))
}

/// The result that writes the field `f`, whose value `mag` is the result number; the indicators
/// `on` are also turned on.
pub fn in_field(acc: &Acc, f: &Field, shape: &Shape, mag: u128, on: u64) -> Done
    requires shape { IsBinaryShape shape.now }
    requires room { HasRoom f.now shape.now }
    requires few { on < 2 ^ 63 }
    ensures { result ≡ in_field_of acc.now f.now shape.now mag on }
{
    let number = Signed {
        negative: f.negative,
        mag,
    };
    Done {
        field: Some(write_field(f, shape)),
        ..done_with(acc, by_number(true, number, on))
    }
}
