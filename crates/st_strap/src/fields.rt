//! Parsers of single fields of a statement: index words, addresses with or without an index part,
//! and numbers below 2^64. docs/strap.md has the rules. shapes.rt calls them for each list of
//! fields; no other crate does.
//!
//! Proved: each call returns exactly the value or the fault that the definition of its name in
//! specs/Reading.antt gives (`spot`, `expression`, `plain_number`, `signed_number`, `index_field`),
//! and of two faults the earlier one in the list (`both_of` in specs/Order.antt). That a fault of a
//! field is the first of its card is the law `TheFirstFaultOfTheListCounts` in specs/Laws.antt. Not
//! proved here: that a number fits its place, which `st_asm` checks.
//!
//! Pinned, by `index_fields` and `index_parts` of specs/Reading.antt: the texts and numbers of both
//! tables. Pinned, by `rank` of specs/Order.antt, which numbers the variants of `Fault` of
//! `st_card`: their order. Free: the bodies and the search in the tables, if proofs/fields follows.

ghost use Rattle.std.specs.Prelude.{◌≡◌, ◌≤◌, ◌<◌, length, IfOk, IfSome};
ghost use Rattle.st_text.specs.Tables.{row_of};
ghost use Rattle.st_strap.specs.Order as order;
ghost use Rattle.st_mnemonic.specs.Fields.{texts};
ghost use Rattle.st_strap.specs.Reading as spec;

use crate::statement::{CompactSpot, Spot};
use st_card::Fault;
use st_expr::ExprText;
use st_mnemonic::{FieldText, begins_with, ends_with};
use st_text::{Reading, read_number, row_of};

// The fields that name an index word, as the first field of most operations on one.
const INDEX_FIELDS: [(&[u8], u8); 16] = [
    (b"$X0", 0),
    (b"$X1", 1),
    (b"$X2", 2),
    (b"$X3", 3),
    (b"$X4", 4),
    (b"$X5", 5),
    (b"$X6", 6),
    (b"$X7", 7),
    (b"$X8", 8),
    (b"$X9", 9),
    (b"$X10", 10),
    (b"$X11", 11),
    (b"$X12", 12),
    (b"$X13", 13),
    (b"$X14", 14),
    (b"$X15", 15),
];

// The index parts of addresses; index word 0 is none, and has no part.
const INDEX_PARTS: [(&[u8], u8); 15] = [
    (b"($X1)", 1),
    (b"($X2)", 2),
    (b"($X3)", 3),
    (b"($X4)", 4),
    (b"($X5)", 5),
    (b"($X6)", 6),
    (b"($X7)", 7),
    (b"($X8)", 8),
    (b"($X9)", 9),
    (b"($X10)", 10),
    (b"($X11)", 11),
    (b"($X12)", 12),
    (b"($X13)", 13),
    (b"($X14)", 14),
    (b"($X15)", 15),
];

// A fault's position in the list of all faults.
fn rank(fault: Fault) -> u8
    ensures { result ≡ order.rank fault }
{
    fault as u8
}

// The fault of two that is earlier in the list.
fn earlier(a: Fault, b: Fault) -> Fault
    ensures { result ≡ order.earlier_fault a b }
{
    if rank(b) < rank(a) { b } else { a }
}

// Both values, or the earlier fault if one or both are faults.
pub(crate) fn both<A: Drop, B: Drop>(
    a: Result<A, Fault>,
    b: Result<B, Fault>,
) -> Result<(A, B), Fault>
    ensures { result ≡ order.both_of a b }
{
    match (a, b) {
        (Ok(a), Ok(b)) => Ok((a, b)),
        (Ok(_), Err(fault)) | (Err(fault), Ok(_)) => Err(fault),
        (Err(a), Err(b)) => Err(earlier(a, b)),
    }
}

// The offset of the last opening parenthesis of a text, if it has one.
fn last_open(text: &[u8]) -> Option<usize>
    ensures value { result ≡ spec.last_open text.now }
    ensures within { IfSome result (λ n. n < length text.now) }
{
    match text {
        [] => None,
        [first, rest @ ..] => match last_open(rest) {
            Some(place) => Some(place + 1),
            None if *first == b'(' => Some(0),
            None => None,
        },
    }
}

// The offset at which the index part of a field begins; the field's length if it has none.
fn index_start(field: &[u8]) -> usize
    ensures value { result ≡ spec.index_start field.now }
    ensures within { result ≤ length field.now }
{
    if !ends_with(field, b')') {
        return field.len();
    }
    match last_open(field) {
        Some(place) => place,
        None => field.len(),
    }
}

// Splits a field into the text before its index part and the index part.
fn split_index(field: &[u8]) -> (&[u8], &[u8])
    ensures front { result.0.now ≡ spec.field_front field.now }
    ensures part { result.1.now ≡ spec.index_part field.now }
    ensures within { length result.0.now ≤ length field.now }
{
    field.split_at(index_start(field))
}

// The number of the index word that an index field names.
#[tactic(auto, unfolding(crate::specs::Reading::index_field, crate::specs::Reading::index_fields))]
pub(crate) fn index_field(field: &[u8]) -> Result<u8, Fault>
    ensures value { result ≡ spec.index_field field.now }
    ensures within { IfOk result (λ j. j < 16) }
{
    row_of(&INDEX_FIELDS, field).ok_or(Fault::BadIndex)
}

// The number of the index word that an index part names; 0 if there is no part and `must` is not
// set.
fn index_of(must: bool, part: &[u8]) -> Result<u8, Fault>
    ensures { result ≡ spec.index_named must part.now }
{
    match part {
        [] if must => Err(Fault::BadIndex),
        [] => Ok(0),
        _ => row_of(&INDEX_PARTS, part).ok_or(Fault::BadIndex),
    }
}

// Parses an address with an index part, which is required if `must` is set and optional otherwise.
#[tactic(auto, unfolding(crate::specs::Reading::spot))]
pub(crate) fn spot(must: bool, field: &[u8]) -> Result<CompactSpot, Fault>
    requires { length field.now ≤ 63 }
    ensures { result ≡ spec.spot must field.now }
{
    let (front, part) = split_index(field);
    match both(ExprText::read(front), index_of(must, part)) {
        Ok((expr, index)) => Ok(Spot { expr, index }),
        Err(fault) => Err(fault),
    }
}

// A value, or the fault `BadIndex` if an index part follows it.
fn unindexed<A: Drop>(part: &[u8], value: Result<A, Fault>) -> Result<A, Fault>
    ensures { result ≡ spec.reading_without_index part.now value }
{
    if part.is_empty() {
        return value;
    }
    match value {
        Ok(_) => Err(Fault::BadIndex),
        Err(fault) => Err(earlier(fault, Fault::BadIndex)),
    }
}

// Parses an address without an index part.
#[tactic(auto, unfolding(crate::specs::Reading::expression))]
pub(crate) fn expression(field: &[u8]) -> Result<ExprText, Fault>
    requires { length field.now ≤ 63 }
    ensures { result ≡ spec.expression field.now }
{
    let (front, part) = split_index(field);
    unindexed(part, ExprText::read(front))
}

// Parses a number below 2^64.
fn number_of(text: &[u8]) -> Result<u64, Fault>
    ensures { result ≡ spec.number_result text.now }
{
    match read_number(text, u64::MAX) {
        Reading::Bad => Err(Fault::BadExpression),
        Reading::Large => Err(Fault::NumberTooLarge),
        Reading::Good(number) => Ok(number),
    }
}

// Parses a field that is a number without a sign.
pub(crate) fn plain_number(field: &[u8]) -> Result<u64, Fault>
    ensures { result ≡ spec.plain_number field.now }
{
    let (front, part) = split_index(field);
    unindexed(part, number_of(front))
}

// Parses a number whose sign the caller has read.
fn with_sign(minus: bool, text: &[u8]) -> Result<(bool, u64), Fault>
    ensures { result ≡ order.reading_map (λ n. (minus, n)) (spec.number_result text.now) }
{
    match number_of(text) {
        Ok(number) => Ok((minus, number)),
        Err(fault) => Err(fault),
    }
}

// Parses a number with an optional sign: whether the sign is a minus, and the magnitude.
fn signed_of(text: &[u8]) -> Result<(bool, u64), Fault>
    ensures { result ≡ spec.signed_of text.now }
{
    if begins_with(text, b'-') {
        return with_sign(true, text.split_at(1).1);
    }
    if begins_with(text, b'+') {
        return with_sign(false, text.split_at(1).1);
    }
    with_sign(false, text)
}

// Parses a field that is a number with an optional sign.
#[tactic(auto, unfolding(crate::specs::Reading::signed_number))]
pub(crate) fn signed_number(field: &[u8]) -> Result<(bool, u64), Fault>
    ensures { result ≡ spec.signed_number field.now }
{
    let (front, part) = split_index(field);
    unindexed(part, signed_of(front))
}

// The list of index words, as bits, that fields name.
pub(crate) fn selected(fields: &[FieldText]) -> Result<u16, Fault>
    ensures { result ≡ spec.index_selector (texts fields.now) }
{
    match fields {
        [] => Ok(0),
        [field, more @ ..] => match (index_field(field.text), selected(more)) {
            // Index word j is bit j of the list, counted from the left.
            (Ok(j), Ok(list)) => Ok((0x8000 >> j) | list),
            _ => Err(Fault::BadIndex),
        },
    }
}
