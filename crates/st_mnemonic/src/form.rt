//! The form of a field in storage, as a card writes it: its data description and its progressive
//! form. descriptions.rt and forms.rt make it, `st_strap` keeps it in statements, and `st_asm`
//! encodes it. docs/strap.md has the rules.
//!
//! Proved: nothing here, since the values are plain and have no invariant. They are in range by the
//! definitions that descriptions.rt and forms.rt are proved to follow (specs/Describing.antt and
//! specs/Forming.antt).
//!
//! Pinned, by these two files, by `st_strap` and `st_asm`, which read the fields, and by the law
//! `EmittedNumbersAreRead` (specs/Laws.antt of `st_laws`): the fields and their ranges. Free: the
//! derived traits. A new field needs its value in descriptions.rt, and its bits in `st_asm`.

/// The form of a field in storage.
#[derive(Clone, Copy, Debug, PartialEq, Eq)]
pub struct Form {
    /// Whether the field's bytes are decimal digits.
    pub decimal: bool,
    /// Whether the field lacks a sign byte.
    pub unsigned: bool,
    /// The length of the field in bits, 1 to 64.
    pub length: u8,
    /// The byte size in bits, 1 to 8.
    pub byte: u8,
    /// The number of the progressive form, 0 to 7: 0 is no progressive form, 1 takes the operand
    /// from the address (immediate), and the others change the index word.
    pub p: u8,
}
