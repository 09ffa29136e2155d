//! The text of requests, one request a line: as control cards, for the disassembler (`st_dis`), and
//! as lines of an object text, for `st_object`. A listing (`/LIST`) is not written.
//! docs/object-text.md and docs/disassembly.md have the rules.
//!
//! Proved: a call appends exactly the lines that specs/Written.antt defines, in the order of the
//! table of keywords.rt, or fails for lack of memory. Laws that both readers accept the lines:
//! `ControlsComeBack` (specs/Laws.antt of `st_dis`), `LinesAreReadBack` (specs/Laws.antt of
//! `st_object`). Pinned: texts and order of the lines, by specs/Written.antt, these two pages,
//! vectors/objects.txt and vectors/decks.txt. Free: the bodies, if proofs/written follows the
//! loops. A new request needs no case here, since none is named.

ghost use Rattle.std.specs.Prelude.{◌≡◌, ◌++◌, [], ◌∷◌, OnOk, map, codes, decimal};
ghost use Rattle.st_card.specs.Keywords.{keyword_text};
ghost use Rattle.st_card.specs.Written as spec;

use crate::control_cards::Controls;
use crate::keywords::{Control, ControlForm, Keyword, ORDER, keyword_line};
use st_text::{Line, push_decimal};
use std::alloc::AllocError;

// A line with a keyword and one number.
fn with_number(form: ControlForm, keyword: Keyword, n: u64) -> Line
    ensures { result.bytes ≡ keyword_text form keyword ++ codes " " ++ decimal n }
{
    let mut line = keyword_line(form, keyword);
    line.push_str(" ");
    push_decimal(&mut line, n);
    line
}

// A line with a keyword and two numbers.
fn with_numbers(form: ControlForm, keyword: Keyword, a: u64, b: u64) -> Line
    ensures { result.bytes
        ≡ keyword_text form keyword ++ codes " " ++ decimal a ++ codes " " ++ decimal b }
{
    let mut line = keyword_line(form, keyword);
    line.push_str(" ");
    push_decimal(&mut line, a);
    line.push_str(" ");
    push_decimal(&mut line, b);
    line
}

/// The line of one request, without its line end.
#[tactic(auto, unfolding(crate::specs::Written::control_line))]
pub fn control_line(form: ControlForm, control: Control) -> Line
    ensures { result.bytes ≡ spec.control_line form control }
{
    match control {
        Control::Mark(mark) => keyword_line(form, Keyword::Mark(mark)),
        Control::Once(once, n) => with_number(form, Keyword::Once(once), n),
        Control::Number(number, n) => with_number(form, Keyword::Number(number), n),
        Control::Pair(pair, a, b) => with_numbers(form, Keyword::Pair(pair), a, b),
    }
}

// Appends the line of one request.
fn push_line(text: &mut Vec<u8>, form: ControlForm, control: Control) -> Result<(), AllocError>
    ensures { let lines = spec.control_line form control ∷ [] in
        OnOk result (text.new.items ≡ text.old.items ++ spec.text_of_lines lines) }
{
    text.extend_from_slice(control_line(form, control).as_str().as_bytes())?;
    text.extend_from_slice(b"\n")
}

// Appends the lines of the requests with this keyword.
fn push_requests(
    text: &mut Vec<u8>,
    form: ControlForm,
    controls: &Controls,
    keyword: Keyword,
) -> Result<(), AllocError>
    ensures { let lines = map (spec.control_line form) (spec.asked_by keyword controls.now) in
        OnOk result (text.new.items ≡ text.old.items ++ spec.text_of_lines lines) }
{
    // Proofs name the loops by their labels.
    'requests: for index in 0..controls.count(keyword) {
        let Some(control) = controls.request(keyword, index) else {
            return Ok(());
        };
        push_line(text, form, control)?;
    }
    Ok(())
}

/// Appends all requests, each line with its line end.
pub fn push_controls(
    text: &mut Vec<u8>,
    form: ControlForm,
    controls: &Controls,
) -> Result<(), AllocError>
    ensures { let lines = map (spec.control_line form) (spec.requests controls.now) in
        OnOk result (text.new.items ≡ text.old.items ++ spec.text_of_lines lines) }
{
    let mut rest = ORDER.as_slice();
    'keywords: while let [keyword, after @ ..] = rest {
        push_requests(text, form, controls, *keyword)?;
        rest = after;
    }
    Ok(())
}
