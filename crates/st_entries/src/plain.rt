//! Numbers, and texts in printable characters, appended to a list of bytes. Text charts and logs
//! show texts of a report by `push_plain`, SVG charts by `plain_byte`, so no control character of a
//! report reaches a terminal. log_line.rt, caption.rt and `st_draw` call these functions.
//! docs/chart.md describes charts and logs.
//!
//! Proved: the definitions of specs/Plain.antt are appended, unless memory runs out. That a label
//! of a log is printable is the law `LabelsStayInTheirLines` (specs/Laws.antt).
//!
//! Pinned, by specs/Plain.antt, docs/chart.md and vectors/pictures: a question mark for each byte
//! outside 32 to 126; the calls, by specs/Escape.antt of `st_draw`. Free: the bodies, if
//! proofs/plain follows the loop of `push_plain`.
ghost use Rattle.std.specs.Prelude.{◌≡◌, ◌++◌, IfOk, decimal};
ghost use Rattle.st_entries.specs.Plain as spec;

use itoa::Buffer;
use std::alloc::AllocError;

/// Appends a number in decimal digits.
pub fn push_decimal(out: &mut Vec<u8>, n: u128) -> Result<(), AllocError>
    ensures { IfOk result (λ _. out.new.items ≡ out.old.items ++ decimal n) }
{
    out.extend_from_slice(Buffer::new().format(n).as_bytes())
}

/// A byte in a form that is safe for a terminal: a question mark if it is not a printable ASCII
/// character.
pub fn plain_byte(byte: u8) -> u8
    ensures { result ≡ spec.plain_byte byte }
{
    match byte {
        b' '..=b'~' => byte,
        _ => b'?',
    }
}

/// Appends a text in a form that is safe for a terminal.
pub fn push_plain(out: &mut Vec<u8>, text: &[u8]) -> Result<(), AllocError>
    ensures { IfOk result (λ _. out.new.items ≡ out.old.items ++ spec.plain_text text.now) }
{
    let mut rest = text;
    // Proofs name the loop by its label.
    'bytes: while let [byte, after @ ..] = rest {
        out.push(plain_byte(*byte))?;
        rest = after;
    }
    Ok(())
}
