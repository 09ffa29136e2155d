//! Names of symbols on cards: 1 to 8 upper-case letters and digits, the first a letter. `st_strap`
//! calls `is_name`, `st_asm` calls `padded`, and terms.rt calls all three functions. docs/strap.md
//! has the rule.
//!
//! Proved: the results are `is_name`, `is_system_word` and `padded_name` of specs/Name.antt.
//!
//! Pinned, by these definitions, docs/strap.md, vectors/texts.txt and vectors/faults.txt: which
//! texts are names; the longest name, by the type `[u8; 8]` in values.rt, `st_asm` and `st_report`.
//! Free: the bodies.

ghost use Rattle.std.specs.Prelude.{◌≡◌, ◌≤◌, length};
ghost use Rattle.std.specs.List.{list_all};
ghost use Rattle.st_expr.specs.Name as spec;

/// Whether a text is a name: 1 to 8 upper-case letters and digits, the first a letter.
pub fn is_name(text: &[u8]) -> bool
    ensures { result ≡ spec.is_name text.now }
{
    match text {
        [] => false,
        [first, rest @ ..] => first.is_ascii_uppercase() && all_name_bytes(rest) && rest.len() <= 7,
    }
}

// Whether a text is a system word: `$` and 1 to 7 upper-case letters and digits.
pub(crate) fn is_system_word(text: &[u8]) -> bool
    ensures { result ≡ spec.is_system_word text.now }
{
    match text {
        [] => false,
        [first, rest @ ..] => {
            *first == b'$' && !rest.is_empty() && all_name_bytes(rest) && rest.len() <= 7
        }
    }
}

// Whether all bytes are upper-case letters or digits; true for an empty text.
fn all_name_bytes(text: &[u8]) -> bool
    ensures { result ≡ list_all spec.is_name_byte text.now }
{
    text.iter()
        .all(|byte| byte.is_ascii_uppercase() || byte.is_ascii_digit())
}

/// A name of at most eight bytes, padded with blanks to eight.
pub fn padded(name: &[u8]) -> [u8; 8]
    requires { length name.now ≤ 8 }
    ensures { result ≡ spec.padded_name name.now }
{
    let mut filled = [b' '; 8];
    filled[..name.len()].copy_from_slice(name);
    filled
}
