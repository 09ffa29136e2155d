//! Numbers as the bits of fields, as the pseudo-operation DD assembles them: binary or decimal,
//! signed or unsigned, 1 to 64 bits in bytes of 1 to 8. docs/strap.md and docs/variable-fields.md
//! have the forms. checks.rt calls `holds`, emitting.rt `field_of`.
//!
//! Proved: the results are `holds` and `field_bits_of` of specs/Numbers.antt. The law
//! `EmittedNumbersAreRead` (specs/Laws.antt of `st_laws`) says that the operations of the machine
//! read the number again.
//!
//! Pinned: every bit, by specs/Numbers.antt, docs/strap.md and vectors/mnemonics.txt; flags and
//! zones are 0. Free: the bodies, if proofs/numbers follows.

ghost use Rattle.std.specs.Prelude.{◌≡◌, ◌*◌, ◌^◌, ◌<◌, ◌≤◌, IsTrue};
ghost use Rattle.st_asm.specs.Numbers as spec;
ghost use Rattle.st_strap.specs.WellFormed.{IsNumberForm};

use st_strap::Form;

// The number of bits of a field's magnitude.
fn magnitude_bits(form: Form) -> u8
    requires { IsNumberForm form }
    ensures bits { result ≡ spec.magnitude_bits_of form }
    ensures few { result ≤ form.length }
{
    if form.unsigned {
        form.length
    } else {
        form.length - form.byte
    }
}

// The number of digits of a decimal field.
fn digit_count(form: Form) -> u8
    requires form { IsNumberForm form }
    requires decimal { IsTrue form.decimal }
    ensures count { result ≡ spec.digits_of_form form }
    ensures few { result ≤ 16 }
    ensures whole { form.byte * result ≡ spec.magnitude_bits_of form }
{
    magnitude_bits(form) / form.byte
}

// The least number that is too large for a field.
fn capacity(form: Form) -> u128
    requires { IsNumberForm form }
    ensures { result ≡ spec.capacity form }
{
    if form.decimal {
        10u128.pow(u32::from(digit_count(form)))
    } else {
        1 << magnitude_bits(form)
    }
}

// Whether a number fits in a field.
pub(crate) fn holds(form: Form, minus: bool, number: u64) -> bool
    requires { IsNumberForm form }
    ensures { result ≡ spec.holds form minus number }
{
    !(form.unsigned && minus) && u128::from(number) < capacity(form)
}

// The last `count` digits of a number, each right-aligned in a byte of `byte` bits.
fn packed(byte: u8, count: u8, number: u64) -> u64
    requires some { 4 ≤ byte }
    requires room { byte * count ≤ 64 }
    requires byte_fits { byte ≤ 8 }
    ensures value { result ≡ spec.packed_digits byte count number }
    ensures below { result < 2 ^ (byte * count) }
{
    if count == 0 {
        return 0;
    }
    (packed(byte, count - 1, number / 10) << byte) + number % 10
}

// The bits of a number's magnitude in a field.
fn magnitude(form: Form, number: u64) -> u64
    requires form { IsNumberForm form }
    requires few { number < spec.capacity form }
    ensures value { result ≡ spec.magnitude form number }
    ensures below { result < 2 ^ spec.magnitude_bits_of form }
{
    if form.decimal {
        packed(form.byte, digit_count(form), number)
    } else {
        number
    }
}

// A sign byte whose flags and zone are 0.
fn sign_byte(byte: u8, minus: bool) -> u64
    requires some { 1 ≤ byte }
    requires few { byte ≤ 8 }
    ensures value { result ≡ spec.sign_byte_of byte minus }
    ensures below { result < 2 ^ byte }
{
    if minus { 1 << (byte.min(4) - 1) } else { 0 }
}

// The bits of a field that contains a number.
pub(crate) fn field_of(form: Form, minus: bool, number: u64) -> u64
    requires form { IsNumberForm form }
    requires few { number < spec.capacity form }
    ensures bits { result ≡ spec.field_bits_of form minus number }
    ensures below { result < 2 ^ form.length }
{
    let magnitude = magnitude(form, number);
    if form.unsigned {
        magnitude
    } else {
        (magnitude << form.byte) + sign_byte(form.byte, minus)
    }
}
