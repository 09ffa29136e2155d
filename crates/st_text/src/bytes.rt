//! A class of bytes: the printable ones, 32 to 126. Cards (`st_card`) and prints (`st_exch`) may
//! contain these only; docs/strap.md and docs/machine.md have the rules.
//!
//! Proved: the result is `is_printable_byte` of specs/Bytes.antt, which also names single bytes.
//! Laws of `st_dis` and `st_entries` (specs/Laws.antt of each) are about texts of such bytes.
//!
//! Pinned, by `is_printable_byte` and the two pages: the range. Free: the body.

ghost use Rattle.std.specs.Prelude.{◌≡◌};
ghost use Rattle.st_text.specs.Bytes as spec;

/// Whether a byte is a blank or a printable character of ASCII.
pub fn is_printable_byte(byte: u8) -> bool
    ensures { result ≡ spec.is_printable_byte byte }
{
    matches!(byte, b' '..=b'~')
}
