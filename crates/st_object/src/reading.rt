//! Reads an object text: the program that it contains, or the number of its bad line, counted from
//! 1. docs/object-text.md has the format. `st_top` calls `read_object` for the commands `load` and
//! `disassemble`.
//!
//! Proved: the result is `read_text` of specs/Object.antt, unless memory runs out (`ok`, `err`);
//! the text is the object text of the program (`same`), and a refusal names the first line with
//! which no object text can go on (`first`). The laws are `TextsAreReadAsOne` and
//! `RefusedTextsHaveABadLine` (specs/Laws.antt). Not proved: speed.
//!
//! Pinned, by `read_text`, docs/object-text.md and vectors/objects.txt: which texts are read, and
//! the number of the bad line; the fault is always `BadObjectCard`. Free: the bodies, if
//! proofs/reading follows `read` and `read_object`.

ghost use Rattle.std.specs.Prelude.{◌≡◌, ◌+◌, ◌<◌, ◌^◌, true, IfOk, IfErr, Ok};
ghost use Rattle.st_card.specs.declared.faults.Fault.TheVariants.{BadObjectCard};
ghost use Rattle.st_object.specs.Draft.{IsDraft, is_whole};
ghost use Rattle.st_object.specs.Object as spec;
ghost use Rattle.st_object.specs.Answers.{Settles, Explains, Gives, NamesBadLine};
ghost use Rattle.st_object.specs.declared.reading.ObjectError.TheVariants as errors;

use crate::drafts::{Draft, fill_up};
use crate::images::Image;
use crate::meaning::item_in;
use st_bits::WORDS;
use st_card::{Addition, Fault};
use st_text::cut;
use std::alloc::Global;

/// Why a text was not read.
#[derive(Clone, Copy, Debug, PartialEq, Eq)]
pub enum ObjectError {
    /// The text is not an object text. `card` is the number of its bad line, counted from 1, and
    /// `fault` is `BadObjectCard`.
    Refused { card: u32, fault: Fault },
    /// There was not enough memory for the contents of the text.
    NoMemory,
}

// Adds a line, if it may come next.
fn add_line(draft: &mut Draft, line: &[u8]) -> Addition
    ensures { Settles draft.new (spec.draft_with_line draft.old line.now) result }
{
    match item_in(line) {
        None => Addition::Refused,
        Some(item) => draft.add(item),
    }
}

// The refusal of the line with this number.
fn refused(card: u32) -> ObjectError
    ensures { result ≡ errors.Refused card BadObjectCard }
{
    ObjectError::Refused {
        card,
        fault: Fault::BadObjectCard,
    }
}

// The program that a complete draft describes.
fn image_of(draft: Draft) -> Result<Image, ObjectError>
    requires draft { IsDraft draft }
    requires whole { is_whole draft ≡ true }
    ensures { Gives (Ok (spec.program_of draft)) result }
{
    let Draft {
        start,
        mut words,
        controls,
        ..
    } = draft;
    let Some(start) = start else {
        unreachable!();
    };
    if fill_up(&mut words, WORDS as usize).is_err() {
        return Err(ObjectError::NoMemory);
    }
    Ok(Image {
        words,
        start,
        controls,
    })
}

// The program of a text that ends here; `card` is the number after that of its last line.
fn finish(draft: Draft, card: u32) -> Result<Image, ObjectError>
    requires { IsDraft draft }
    ensures { Gives (spec.program_at_end draft card) result }
{
    if !draft.is_whole() {
        return Err(refused(card));
    }
    image_of(draft)
}

// The refusal of a text whose last line has no line end.
fn refuse_unended(draft: &mut Draft, card: u32, line: &[u8]) -> ObjectError
    requires { card + 1 < 2 ^ 32 }
    ensures { Explains (spec.program_cut draft.old card line.now) result }
{
    match add_line(draft, line) {
        Addition::Added => refused(card + 1),
        Addition::Refused => refused(card),
        Addition::NoMemory => ObjectError::NoMemory,
    }
}

// The program of a text, given the text after its last line end.
fn end_of(mut draft: Draft, card: u32, rest: &[u8]) -> Result<Image, ObjectError>
    requires draft { IsDraft draft }
    requires counted { card + 1 < 2 ^ 32 }
    ensures { Gives (spec.program_behind draft card rest.now) result }
{
    if rest.is_empty() {
        return finish(draft, card);
    }
    Err(refuse_unended(&mut draft, card, rest))
}

// Reads the program of a text.
fn read(alloc: Global, text: &[u8]) -> Result<Image, ObjectError>
    ensures { Gives (spec.read_text text.now) result }
{
    let mut draft = Draft::new(alloc);
    let mut card = 1;
    let mut rest = text;
    // Proofs name the loop by its label.
    'lines: while let Some((line, after)) = cut(rest, b'\n') {
        match add_line(&mut draft, line) {
            Addition::Added => {}
            Addition::Refused => return Err(refused(card)),
            Addition::NoMemory => return Err(ObjectError::NoMemory),
        }
        card += 1;
        rest = after;
    }
    end_of(draft, card, rest)
}

/// Reads the program that an object text contains.
///
/// A text that is not an object text is refused with the number of its bad line: the first line
/// such that no object text begins with the lines up to it, or, if the text ends too early, the
/// number after that of the last line. The other error is that memory ran out.
/// `docs/object-text.md` has the format.
pub fn read_object(alloc: Global, text: &[u8]) -> Result<Image, ObjectError>
    ensures ok { IfOk result (λ image. spec.read_text text.now ≡ Ok image) }
    ensures err { IfErr result (Explains (spec.read_text text.now)) }

    // The program is within the limits, and the text is its object text.
    ensures program { IfOk result (λ image. spec.IsProgram image) }
    ensures same { IfOk result (λ image. text.now ≡ spec.object_text image) }

    // The number in a refusal is that of the first bad line.
    ensures first { IfErr result (NamesBadLine text.now) }
{
    read(alloc, text)
}
