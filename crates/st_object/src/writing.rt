//! Writes an object text: the words of a program that are not zero, its start and its requests as
//! lines. docs/object-text.md has the format. `st_top` calls `write_object` for the command
//! `assemble`; the command `disassemble` writes a deck.
//!
//! Proved: the text is `object_text` of specs/Object.antt, unless memory runs out; and the
//! definition `read_text`, which `read_object` follows (reading.rt), reads the text as the program
//! (clause `again`). Required is `IsProgram` of specs/Object.antt: the ranges of an `Image`
//! (images.rt).
//!
//! Pinned, by `object_text`, docs/object-text.md and vectors/objects.txt: the lines and their
//! order. Free: the split into private functions, if proofs/writing follows `write_object`,
//! `push_object` and `push_words`.

ghost use Rattle.std.specs.Prelude.{◌≡◌, ◌++◌, [], ◌∷◌, OnOk, IfOk, Ok};
ghost use Rattle.st_card.specs.Written.{unless_zero};
ghost use Rattle.st_object.specs.Lines as lines;
ghost use Rattle.st_object.specs.Object.{Program, object_text, read_text, IsProgram, AreWords};
ghost use Rattle.st_object.specs.declared.items.Item.TheVariants as items;

use crate::images::Image;
use crate::items::Item;
use crate::spelling::spelled;
use st_bits::NoMemory;
use st_card::{ControlForm, Controls, push_controls};
use std::alloc::{AllocError, Global};

// Appends the line of an item.
fn push_line(text: &mut Vec<u8>, item: Item) -> Result<(), AllocError>
    ensures { OnOk result (text.new.items ≡ text.old.items ++ lines.object_text_of (item ∷ [])) }
{
    text.extend_from_slice(spelled(item).as_str().as_bytes())?;
    text.extend_from_slice(b"\n")
}

// Appends the line of a word, if the word is not zero.
fn push_filled(text: &mut Vec<u8>, address: u64, word: u64) -> Result<(), AllocError>
    ensures { let filled = unless_zero word (items.Word address word) in
        OnOk result (text.new.items ≡ text.old.items ++ lines.object_text_of filled) }
{
    if word == 0 {
        return Ok(());
    }
    push_line(text, Item::Word(address, word))
}

// Appends the lines of the words that are not zero.
fn push_words(text: &mut Vec<u8>, words: &[u64]) -> Result<(), AllocError>
    ensures { OnOk result
        (text.new.items ≡ text.old.items ++ lines.object_text_of (lines.word_lines 0 words.now)) }
{
    // Proofs name the loop by its label.
    'words: for (address, word) in words.iter().enumerate() {
        push_filled(text, address as u64, *word)?;
    }
    Ok(())
}

// Appends the lines of a program before its requests.
fn push_program(text: &mut Vec<u8>, words: &[u64], start: u32) -> Result<(), AllocError>
    ensures { let program = items.Object ∷ items.Start start ∷ [] ++ lines.word_lines 0 words.now in
        OnOk result (text.new.items ≡ text.old.items ++ lines.object_text_of program) }
{
    push_line(text, Item::Object)?;
    push_line(text, Item::Start(u64::from(start)))?;
    push_words(text, words)
}

// Appends the whole object text.
fn push_object(
    text: &mut Vec<u8>,
    words: &[u64],
    start: u32,
    controls: &Controls,
) -> Result<(), AllocError>
    ensures text { let asked = controls.now in
        let p : Program = record { words = words.now; start = start; controls = asked } in
        OnOk result (text.new.items ≡ text.old.items ++ object_text p) }

    // Each word has 64 bits.
    ensures words { AreWords words.now }
{
    push_program(text, words, start)?;
    push_controls(text, ControlForm::ObjectLine, controls)?;
    push_line(text, Item::Fin)
}

/// Writes the object text of a program.
///
/// The program has 98,304 words, the first 32 zero; its start is a half-word address below 2^19.
/// Its requests are within the limits of control cards, with a budget, at least one delay, and no
/// listing. Each program has exactly one object text, and `read_object` reads it as that program.
/// The only error is that memory ran out. `docs/object-text.md` has the format.
pub fn write_object(alloc: Global, image: &Image) -> Result<Vec<u8>, NoMemory>
    requires { IsProgram image.now }
    ensures text { IfOk result (λ text. text.items ≡ object_text image.now) }

    // The text is read back as the given program.
    ensures again { IfOk result (λ text. read_text text.items ≡ Ok image.now) }
{
    let words = image.words.as_slice();
    let mut text = Vec::new(alloc);
    match push_object(&mut text, words, image.start, &image.controls) {
        Ok(()) => Ok(text),
        Err(_) => Err(NoMemory),
    }
}
