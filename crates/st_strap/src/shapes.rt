//! Parsers of the lists of fields that operations have, such as an index word and an address.
//! docs/strap.md has the fields of each operation. Only saying.rt calls these functions, for its
//! operations.
//!
//! Proved: the clause of each function names the shape of its fields, a definition of
//! specs/Saying.antt such as `two`, and the readings of single fields in specs/Reading.antt. The
//! call returns exactly the values, or the first fault in the order of `both_of` in
//! specs/Order.antt, with `BadFieldCount` for a wrong number of fields.
//!
//! Pinned, by specs/Saying.antt and docs/strap.md: the number of fields of each list (LVS has 1 to
//! 15 index words); progressive forms from 2 on require an index part. A new list of fields is a
//! definition in specs/Saying.antt and a function here. Free: the bodies, if proofs/shapes follows.

ghost use Rattle.std.specs.Prelude.{◌≡◌, false};
ghost use Rattle.st_mnemonic.specs.Fields.{texts};
ghost use Rattle.st_strap.specs.Reading as one;
ghost use Rattle.st_strap.specs.Saying as spec;

use crate::fields::{both, expression, index_field, plain_number, selected, signed_number, spot};
use crate::statement::{CompactSpot, CompactStatement};
use st_card::Fault;
use st_expr::ExprText;
use st_mnemonic::{FieldText, Form};

// Parses one field that is an index word.
pub(crate) fn index_alone(fields: &[FieldText]) -> Result<u8, Fault>
    ensures { result ≡ spec.alone one.index_field (texts fields.now) }
{
    match fields {
        [j] => index_field(j.text),
        _ => Err(Fault::BadFieldCount),
    }
}

// Parses one address with an optional index part.
pub(crate) fn spot_alone(fields: &[FieldText]) -> Result<CompactSpot, Fault>
    ensures { result ≡ spec.alone (one.spot false) (texts fields.now) }
{
    match fields {
        [at] => spot(false, at.text),
        _ => Err(Fault::BadFieldCount),
    }
}

// Parses one address without an index part.
pub(crate) fn expression_alone(fields: &[FieldText]) -> Result<ExprText, Fault>
    ensures { result ≡ spec.alone one.expression (texts fields.now) }
{
    match fields {
        [at] => expression(at.text),
        _ => Err(Fault::BadFieldCount),
    }
}

// Parses one number with an optional sign.
pub(crate) fn number_alone(fields: &[FieldText]) -> Result<(bool, u64), Fault>
    ensures { result ≡ spec.alone one.signed_number (texts fields.now) }
{
    match fields {
        [number] => signed_number(number.text),
        _ => Err(Fault::BadFieldCount),
    }
}

// Parses an index word and an address.
pub(crate) fn index_and_spot(fields: &[FieldText]) -> Result<(u8, CompactSpot), Fault>
    ensures { result ≡ spec.two one.index_field (one.spot false) (texts fields.now) }
{
    match fields {
        [j, at] => both(index_field(j.text), spot(false, at.text)),
        _ => Err(Fault::BadFieldCount),
    }
}

// Parses an index word and a list of 1 to 15 index words.
pub(crate) fn index_and_list(fields: &[FieldText]) -> Result<(u8, u16), Fault>
    ensures { result ≡ spec.index_and_list (texts fields.now) }
{
    match fields {
        [j, list @ ..] if !list.is_empty() && list.len() <= 15 => {
            both(index_field(j.text), selected(list))
        }
        _ => Err(Fault::BadFieldCount),
    }
}

// Parses the address of a field and an optional offset.
pub(crate) fn operand(form: Form, fields: &[FieldText]) -> Result<(CompactSpot, u64), Fault>
    ensures { result ≡ spec.operand_spot form (texts fields.now) }
{
    match fields {
        [at] => both(spot(form.p >= 2, at.text), Ok(0)),
        [at, offset] => both(spot(form.p >= 2, at.text), plain_number(offset.text)),
        _ => Err(Fault::BadFieldCount),
    }
}

// Parses an address and a second one without an index part.
pub(crate) fn two_addresses(fields: &[FieldText]) -> Result<(CompactSpot, ExprText), Fault>
    ensures { result ≡ spec.two (one.spot false) one.expression (texts fields.now) }
{
    match fields {
        [at, second] => both(spot(false, at.text), expression(second.text)),
        _ => Err(Fault::BadFieldCount),
    }
}

// Parses an address and a number.
pub(crate) fn spot_and_number(fields: &[FieldText]) -> Result<(CompactSpot, u64), Fault>
    ensures { result ≡ spec.two (one.spot false) one.plain_number (texts fields.now) }
{
    match fields {
        [at, number] => both(spot(false, at.text), plain_number(number.text)),
        _ => Err(Fault::BadFieldCount),
    }
}

// Parses an address without an index part and a number.
fn address_and_number(fields: &[FieldText]) -> Result<(ExprText, u64), Fault>
    ensures { result ≡ spec.two one.expression one.plain_number (texts fields.now) }
{
    match fields {
        [at, number] => both(expression(at.text), plain_number(number.text)),
        _ => Err(Fault::BadFieldCount),
    }
}

// Parses two addresses and a number.
pub(crate) fn two_addresses_and_number(
    fields: &[FieldText],
) -> Result<(CompactSpot, (ExprText, u64)), Fault>
    ensures { result ≡ spec.followed (one.spot false) (spec.two one.expression one.plain_number) (texts fields.now) }
{
    match fields {
        [] => Err(Fault::BadFieldCount),
        [at, more @ ..] => both(spot(false, at.text), address_and_number(more)),
    }
}

// Parses a refill address and optional flags.
fn refill_and_flags(fields: &[FieldText]) -> Result<(ExprText, u64), Fault>
    ensures { result ≡ spec.with_number one.expression (texts fields.now) }
{
    match fields {
        [refill] => both(expression(refill.text), Ok(0)),
        [refill, flags] => both(expression(refill.text), plain_number(flags.text)),
        _ => Err(Fault::BadFieldCount),
    }
}

// Parses a count, a refill address and optional flags.
fn count_and_refill(fields: &[FieldText]) -> Result<(u64, (ExprText, u64)), Fault>
    ensures { result ≡ spec.followed one.plain_number (spec.with_number one.expression) (texts fields.now) }
{
    match fields {
        [] => Err(Fault::BadFieldCount),
        [count, more @ ..] => both(plain_number(count.text), refill_and_flags(more)),
    }
}

// Parses the parts of an index word: value, count, refill address and flags.
pub(crate) fn index_word_parts(
    fields: &[FieldText],
) -> Result<(ExprText, (u64, (ExprText, u64))), Fault>
    ensures { result ≡ spec.followed one.expression (spec.followed one.plain_number (spec.with_number one.expression)) (texts fields.now) }
{
    match fields {
        [] => Err(Fault::BadFieldCount),
        [value, more @ ..] => both(expression(value.text), count_and_refill(more)),
    }
}

// Checks that a statement has no fields.
pub(crate) fn without_fields(
    statement: CompactStatement,
    fields: &[FieldText],
) -> Result<CompactStatement, Fault>
    ensures { result ≡ spec.without_fields statement (texts fields.now) }
{
    if fields.is_empty() {
        Ok(statement)
    } else {
        Err(Fault::BadFieldCount)
    }
}
