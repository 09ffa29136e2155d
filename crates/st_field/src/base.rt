//! The inputs of an operation on a field, and the trait of the two bases: `Two` in `st_bin` and
//! `Ten` in `st_dec`. `operate` in operations.rt has the part of all operations that both bases
//! share, and calls the methods of this trait for the rest; both crates call `take`.
//! docs/variable-fields.md has the rules.
//!
//! Proved: each base states its `InBase` of specs/Bases.antt, the values that it gives for given
//! inputs, and its methods return them. Each method requires `IsTaken` there: the shape is valid in
//! this base (`Allows`), and the parts of the field fit it; `large` requires that a sum with a
//! carry occurs only if `limit` is above 2^127. `take` is `operand_taken` there.
//!
//! Pinned, by specs/Bases.antt, `operate` and both bases: the clauses. Free: the body of `take`,
//! and `limit`, as long as values are below `limit`. A new method needs a field of `InBase` and a
//! body in both bases.
ghost use Rattle.std.specs.Prelude.{◌≡◌, ◌<◌, ◌%◌, ◌^◌, ℕ, true};
ghost use Rattle.st_field.specs.Fields.{IsBinaryShape, HasRoom, magnitude_bits};
ghost use Rattle.st_field.specs.Numbers.{exceeds};
ghost use Rattle.st_field.specs.declared.base.Taken.{Taken};
ghost use Rattle.st_field.specs.declared.fields.Shape.{Shape};
ghost use Rattle.st_field.specs.Bases.{InBase, IsTaken, operand_taken};

use crate::accumulator::Acc;
use crate::fields::{Field, Shape, read_field};
use crate::operand::Kept;
use crate::outcome::Done;
use crate::signed::Sum;

/// The inputs of an operation on a field.
#[derive(Clone, Copy)]
pub struct Taken {
    /// The accumulator.
    pub acc: Acc,
    /// The parts of the field.
    pub field: Field,
    /// The shape of the field.
    pub shape: Shape,
}

/// The inputs of an operation on a field with the bits `bits`, below 2^length.
pub fn take(acc: &Acc, bits: u64, shape: &Shape) -> Taken
    requires shape { IsBinaryShape shape.now }
    requires fits { bits < 2 ^ shape.now.length }
    ensures value { result ≡ operand_taken acc.now bits shape.now }
    ensures room { HasRoom result.field shape.now }
{
    Taken {
        acc: *acc,
        field: read_field(bits, shape),
        shape: *shape,
    }
}

/// The base of the numbers in a field and in the accumulator.
pub trait Base {
    /// The parts of a result that depend on the base, for given inputs.
    ghost base: { Taken → InBase };

    /// The shapes that are valid in this base.
    ghost Allows: { Shape → Type 0 };

    /// An upper bound that the values of the accumulator and of a field are below.
    ghost limit: { ℕ };

    /// The value of the accumulator.
    fn whole(taken: &Taken) -> u128
        requires { IsTaken Allows taken.now }
        ensures value { result ≡ (base taken.now).whole }
        ensures bound { result < limit };

    /// The value of the accumulator from the offset.
    fn part(taken: &Taken) -> u128
        requires { IsTaken Allows taken.now }
        ensures value { result ≡ (base taken.now).part }
        ensures bound { result < limit };

    /// The value of the field.
    fn value(taken: &Taken) -> u64
        requires { IsTaken Allows taken.now }
        ensures value { result ≡ (base taken.now).value }
        ensures bound { result < limit };

    /// The bits of the field as the transit register and the factor register store them.
    fn content(taken: &Taken) -> u64
        requires { IsTaken Allows taken.now }
        ensures { result ≡ (base taken.now).content };

    /// The indicators that are turned on by a load of the transit register.
    fn transit(taken: &Taken) -> u64
        requires { IsTaken Allows taken.now }
        ensures value { result ≡ (base taken.now).transit }
        ensures few { result < 2 ^ 42 };

    /// The field shifted to its place in the accumulator.
    fn at_place(taken: &Taken) -> Kept
        requires { IsTaken Allows taken.now }
        ensures value { result ≡ (base taken.now).at_place }
        ensures bound { result.value < limit };

    /// The accumulator from the offset as it is stored in the field.
    fn stored(taken: &Taken) -> Kept
        requires { IsTaken Allows taken.now }
        ensures value { result ≡ (base taken.now).stored }
        ensures room { result.bits < 2 ^ magnitude_bits taken.now.shape };

    /// The magnitude of a sum as it is stored in the accumulator.
    fn summed(taken: &Taken, sum: Sum) -> Kept
        requires fits { IsTaken Allows taken.now }
        requires large { sum.carry ≡ true → 2 ^ 127 < limit }
        ensures { (n : ℕ) → sum.number.mag ≡ n % 2 ^ 128 → sum.carry ≡ exceeds n 128 →
            result ≡ (base taken.now).summed n };

    /// The magnitude of a sum as it is stored in the field.
    fn replaced(taken: &Taken, sum: Sum) -> Kept
        requires fits { IsTaken Allows taken.now }
        requires large { sum.carry ≡ true → 2 ^ 127 < limit }
        ensures value { (n : ℕ) → sum.number.mag ≡ n % 2 ^ 128 → sum.carry ≡ exceeds n 128 →
            result ≡ (base taken.now).replaced n }
        ensures room { result.bits < 2 ^ magnitude_bits taken.now.shape };

    /// Multiply.
    fn multiply(taken: &Taken) -> Done
        requires { IsTaken Allows taken.now }
        ensures { result ≡ (base taken.now).product };

    /// Multiply by the factor register, and add.
    fn multiply_and_add(taken: &Taken, ft: u64) -> Done
        requires { IsTaken Allows taken.now }
        ensures { result ≡ (base taken.now).product_added ft };

    /// Divide.
    fn divide(taken: &Taken) -> Done
        requires { IsTaken Allows taken.now }
        ensures { result ≡ (base taken.now).quotient };

    /// Load converted.
    fn convert(taken: &Taken) -> Done
        requires { IsTaken Allows taken.now }
        ensures { result ≡ (base taken.now).converted };
}
