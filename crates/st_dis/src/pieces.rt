//! Appends the parts of an instruction's text: fields, index parts, data descriptions, truth
//! tables. docs/disassembly.md has the rules. Only texts.rt composes statements of these parts.
//!
//! Proved: each call appends exactly the text of a definition in specs/Texts.antt (`truth_digits`
//! is in specs/Names.antt), and its clause `room` bounds the length, by which callers prove that a
//! statement fits a line of 128 bytes.
//!
//! Pinned, by these definitions, docs/disassembly.md and vectors/decks.txt: the texts: addresses
//! are written as `word.bit`, an offset of 0 and an index part of 0 are left out. Free: the bodies,
//! if proofs/pieces follows `push_listed_fields`; the figures of `room`, if texts.rt is still
//! proved.

ghost use Rattle.std.specs.Prelude.{◌≡◌, ◌+◌, ◌*◌, ◌≤◌, ◌<◌, ◌++◌, [], decimal, if◌then◌else◌};
ghost use Rattle.arrayvec.specs.ArrayString.{array_string_len};
ghost use Rattle.st_dis.specs.Names as names;
ghost use Rattle.st_dis.specs.Texts as spec;

use crate::names::{digit, form_name, mode_name};
use itoa::Buffer;
use st_text::{Line, push_bit_address, push_half_address, push_short_decimal};

// Appends a number below 256.
fn push_small(line: &mut Line, n: u8)
    requires { array_string_len line.old + 3 ≤ 128 }
    ensures text { line.new.bytes ≡ line.old.bytes ++ decimal n }
    ensures room { array_string_len line.new ≤ array_string_len line.old + 3 }
{
    line.push_str(Buffer::new().format(n));
}

// Appends an index word as a field.
pub(crate) fn push_index_field(line: &mut Line, j: u8)
    requires { array_string_len line.old + 6 ≤ 128 }
    ensures text { line.new.bytes ≡ line.old.bytes ++ spec.index_field_text j }
    ensures room { array_string_len line.new ≤ array_string_len line.old + 6 }
{
    line.push_str(",$X");
    push_small(line, j);
}

// Appends the index part of an address, if it has one.
fn push_index_part(line: &mut Line, i: u8)
    requires { array_string_len line.old + 7 ≤ 128 }
    ensures text { line.new.bytes ≡ line.old.bytes ++ spec.index_part_text i }
    ensures room { array_string_len line.new ≤ array_string_len line.old + 7 }
{
    if i == 0 {
        return;
    }
    line.push_str("($X");
    push_small(line, i);
    line.push_str(")");
}

// Appends a half-word address as a field without an index part.
pub(crate) fn push_second_field(line: &mut Line, second: u32)
    requires { array_string_len line.old + 15 ≤ 128 }
    ensures text { line.new.bytes ≡ line.old.bytes ++ spec.second_field second }
    ensures room { array_string_len line.new ≤ array_string_len line.old + 15 }
{
    line.push_str(",");
    push_half_address(line, second);
}

// Appends a half-word address with an optional index part as a field.
pub(crate) fn push_half_field(line: &mut Line, address: u32, i: u8)
    requires { array_string_len line.old + 22 ≤ 128 }
    ensures text { line.new.bytes ≡ line.old.bytes ++ spec.half_field address i }
    ensures room { array_string_len line.new ≤ array_string_len line.old + 22 }
{
    push_second_field(line, address);
    push_index_part(line, i);
}

// Appends a bit address with an optional index part as a field.
pub(crate) fn push_bit_field(line: &mut Line, address: u32, i: u8)
    requires { array_string_len line.old + 22 ≤ 128 }
    ensures text { line.new.bytes ≡ line.old.bytes ++ spec.bit_field address i }
    ensures room { array_string_len line.new ≤ array_string_len line.old + 22 }
{
    line.push_str(",");
    push_bit_address(line, address);
    push_index_part(line, i);
}

// Appends a number as a field.
pub(crate) fn push_number_field(line: &mut Line, n: u32)
    requires { array_string_len line.old + 11 ≤ 128 }
    ensures text { line.new.bytes ≡ line.old.bytes ++ spec.number_field n }
    ensures room { array_string_len line.new ≤ array_string_len line.old + 11 }
{
    line.push_str(",");
    push_short_decimal(line, n);
}

// Appends an offset as a field, if it is not 0.
fn push_offset_field(line: &mut Line, offset: u8)
    requires { array_string_len line.old + 11 ≤ 128 }
    ensures text { line.new.bytes ≡ line.old.bytes ++ spec.offset_field offset }
    ensures room { array_string_len line.new ≤ array_string_len line.old + 11 }
{
    if offset == 0 {
        return;
    }
    push_number_field(line, u32::from(offset));
}

// Appends as fields those of the first `count` index words that a list contains.
pub(crate) fn push_listed_fields(line: &mut Line, count: u8, address: u32)
    requires few { count ≤ 16 }
    requires room { array_string_len line.old + 6 * count ≤ 128 }
    ensures text { line.new.bytes ≡ line.old.bytes ++ spec.listed_fields count address }
    ensures room { array_string_len line.new ≤ array_string_len line.old + 6 * count }
{
    if count == 0 {
        return;
    }
    push_listed_fields(line, count - 1, address);
    push_listed_field(line, count - 1, address);
}

// Appends index word k as a field, if a list contains it. A list is an address of 19 bits, the first
// of which is that of index word 0.
fn push_listed_field(line: &mut Line, k: u8, address: u32)
    requires few { k < 16 }
    requires room { array_string_len line.old + 6 ≤ 128 }
    ensures text { line.new.bytes ≡ line.old.bytes
        ++ (if spec.has_index address k then spec.index_field_text k else []) }
    ensures room { array_string_len line.new ≤ array_string_len line.old + 6 }
{
    if (address >> (18 - k)) % 2 == 0 {
        return;
    }
    push_index_field(line, k);
}

// Appends the digits of a truth table: the results for 00, 01, 10 and 11, the first the highest bit
// of `truth`.
pub(crate) fn push_truth(line: &mut Line, truth: u8)
    requires { array_string_len line.old + 4 ≤ 128 }
    ensures text { line.new.bytes ≡ line.old.bytes ++ names.truth_digits truth }
    ensures room { array_string_len line.new ≤ array_string_len line.old + 4 }
{
    line.push_str(digit(truth / 8 % 2 == 1));
    line.push_str(digit(truth / 4 % 2 == 1));
    line.push_str(digit(truth / 2 % 2 == 1));
    line.push_str(digit(truth % 2 == 1));
}

// Appends a data description: the mode, the length in bits, and the byte size in bits.
pub(crate) fn push_description(line: &mut Line, decimal: bool, unsigned: bool, length: u8, byte: u8)
    requires { array_string_len line.old + 26 ≤ 128 }
    ensures text { line.new.bytes ≡ line.old.bytes
        ++ spec.description decimal unsigned length byte }
    ensures room { array_string_len line.new ≤ array_string_len line.old + 26 }
{
    line.push_str("(");
    line.push_str(mode_name(decimal, unsigned));
    push_number_field(line, u32::from(length));
    push_number_field(line, u32::from(byte));
    line.push_str(")");
}

// Appends the parts after the data description: progressive form, address and offset.
pub(crate) fn push_operand(line: &mut Line, p: u8, address: u32, i: u8, offset: u8)
    requires { array_string_len line.old + 40 ≤ 128 }
    ensures text { line.new.bytes ≡ line.old.bytes ++ spec.operand_text p address i offset }
    ensures room { array_string_len line.new ≤ array_string_len line.old + 40 }
{
    line.push_str(form_name(p));
    push_bit_field(line, address, i);
    push_offset_field(line, offset);
}
