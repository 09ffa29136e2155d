//! Text that is escaped for a place between the elements of an SVG chart. Only element.rt calls
//! `push_escaped`, for each text of a report. docs/chart.md describes the chart.
//!
//! Proved: `escaped_text` of specs/Escape.antt is appended, or memory runs out. The law
//! `TextsStayInTheirElements` (specs/Laws.antt) says that an escaped text is printable and has no
//! `<` or `>`. Not promised: that an escaped text is safe between quotation marks; no text is put
//! there.
//!
//! Pinned, by this definition, docs/chart.md and vectors/pictures/cards.svg: the three entities,
//! and a question mark for unprintable bytes (`plain_byte` of `st_entries`). Free: the bodies, if
//! proofs/escape follows the loop.
ghost use Rattle.std.specs.Prelude.{◌≡◌, ◌++◌, IfOk};
ghost use Rattle.st_draw.specs.Escape as spec;

use st_entries::plain_byte;
use std::alloc::AllocError;

// Appends a byte in escaped form.
fn push_escaped_byte(out: &mut Vec<u8>, byte: u8) -> Result<(), AllocError>
    ensures { IfOk result (λ _. out.new.items ≡ out.old.items ++ spec.escaped_byte byte) }
{
    match byte {
        b'<' => out.extend_from_slice(b"&lt;"),
        b'>' => out.extend_from_slice(b"&gt;"),
        b'&' => out.extend_from_slice(b"&amp;"),
        _ => out.extend_from_slice(&[plain_byte(byte)]),
    }
}

/// Appends a text in escaped form.
pub fn push_escaped(out: &mut Vec<u8>, text: &[u8]) -> Result<(), AllocError>
    ensures { IfOk result (λ _. out.new.items ≡ out.old.items ++ spec.escaped_text text.now) }
{
    let mut rest = text;
    // Proofs name the loop by its label.
    'bytes: while let [byte, after @ ..] = rest {
        push_escaped_byte(out, *byte)?;
        rest = after;
    }
    Ok(())
}
