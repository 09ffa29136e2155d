//! Fields of an operation, taken apart into magnitude, sign, flags and zone, and put together. A
//! field is 1 to 64 bits of storage, here one number. `take` and `in_field` of this crate read and
//! write fields; `st_bin` and `st_dec` use parts, `st_exec` `Shape`. docs/variable-fields.md has
//! the rules.
//!
//! ```text
//! unsigned   mmmmmmmm mmmmmmmm
//! signed     mmmmmmmm zzzzsTUV    the last byte holds zone, sign and flags
//! byte 3     mmmmmmmm mmmmmsTU    a short byte holds the first of sTUV
//! ```
//!
//! Proved: reading is `field_of`, writing `field_bits` of specs/Fields.antt for `IsBinaryShape`; a
//! field that is read is written with the same bits. Pinned, by these definitions,
//! docs/variable-fields.md, vectors/binary.txt and vectors/decimal.txt: this layout. Free: the
//! bodies, if proofs/fields follows `read_field`, `write_field` and `byte_bits`.
ghost use Rattle.std.specs.Prelude.{◌≡◌, ◌<◌, ◌≤◌, ◌^◌};
ghost use Rattle.st_field.specs.Fields.{IsBinaryShape, HasRoom, magnitude_bits as magnitude_bits_of};
ghost use Rattle.st_field.specs.Fields.{sign_of, sign_byte as sign_byte_of};
ghost use Rattle.st_field.specs.Fields.{byte_bits as byte_bits_of, field_of, field_bits};

/// The parts of a field.
#[derive(Clone, Copy, Debug, PartialEq, Eq)]
pub struct Field {
    /// The magnitude.
    pub mag: u64,
    /// Whether the sign is minus; zero can have either sign.
    pub negative: bool,
    /// The flags T, U and V: the bits of value 4, 2 and 1.
    pub flags: u8,
    /// The zone, four bits.
    pub zone: u8,
}

/// The shape of a field: how an instruction interprets it.
#[derive(Clone, Copy, Debug, PartialEq, Eq)]
pub struct Shape {
    /// The number of bits of the field, 1 to 64.
    pub length: u8,
    /// The number of bits of a byte, 1 to 8; a signed field has at least one byte.
    pub byte: u8,
    /// Whether all bits are magnitude bits.
    pub unsigned: bool,
    /// Whether the operation inverts a sign.
    pub negated: bool,
    /// The place of the field's last bit in the accumulator: the bit of value 2^offset, 0 to 127.
    pub offset: u8,
}

/// The number of magnitude bits of a field.
pub fn magnitude_bits(shape: &Shape) -> u8
    requires { IsBinaryShape shape.now }
    ensures value { result ≡ magnitude_bits_of shape.now }
    ensures bound { result ≤ 64 }
{
    if shape.unsigned {
        shape.length
    } else {
        shape.length - shape.byte
    }
}

/// Whether the sign in a sign byte is minus.
pub fn is_minus(sign_byte: u8) -> bool
    ensures { result ≡ sign_of sign_byte }
{
    sign_byte / 8 % 2 == 1
}

/// The sign byte with a zone, 0 to 15, a sign and flags, 0 to 7.
pub fn sign_byte(zone: u8, negative: bool, flags: u8) -> u8
    requires zone { zone < 16 }
    requires flags { flags < 8 }
    ensures { result ≡ sign_byte_of zone negative flags }
{
    zone * 16 + if negative { 8 } else { 0 } + flags
}

/// The parts of a field with the bits `bits`, below 2^length.
pub fn read_field(bits: u64, shape: &Shape) -> Field
    requires shape { IsBinaryShape shape.now }
    requires fits { bits < 2 ^ shape.now.length }
    ensures parts { result ≡ field_of bits shape.now }
    ensures same { field_bits result shape.now ≡ bits }
    ensures room { HasRoom result shape.now }
{
    if shape.unsigned {
        return Field {
            mag: bits,
            negative: false,
            flags: 0,
            zone: 0,
        };
    }
    // The missing bits on the right of a short byte are 0.
    let last = (bits % (1 << shape.byte)) as u8;
    let sign = last << 4u8.saturating_sub(shape.byte);
    Field {
        mag: bits >> shape.byte,
        negative: is_minus(sign),
        flags: sign % 8,
        zone: sign / 16,
    }
}

// The bits of the last byte of a signed field. Bits that do not fit are dropped: zone bits on the
// left, and flags on the right of a short byte.
fn byte_bits(f: &Field, byte: u8) -> u64
    requires some { 1 ≤ byte }
    requires small { byte ≤ 8 }
    requires flags { f.now.flags < 8 }
    requires zone { f.now.zone < 16 }

    ensures value { result ≡ byte_bits_of f.now byte }
    ensures bound { result < 2 ^ byte }
{
    let zone = f.zone % (1 << byte.saturating_sub(4));
    u64::from(sign_byte(zone, f.negative, f.flags) >> 4u8.saturating_sub(byte))
}

/// The bits of the field with the parts `f`. The magnitude must fit: below 2^length, or 2^(length -
/// byte) if the field is signed. Flags are below 8 and the zone below 16. An unsigned field stores
/// only the magnitude.
pub fn write_field(f: &Field, shape: &Shape) -> u64
    requires shape { IsBinaryShape shape.now }
    requires room { HasRoom f.now shape.now }
    ensures bits { result ≡ field_bits f.now shape.now }
    ensures fits { result < 2 ^ shape.now.length }
{
    if shape.unsigned {
        f.mag
    } else {
        (f.mag << shape.byte) + byte_bits(f, shape.byte)
    }
}
