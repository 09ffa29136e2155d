//! Writes the object text of a job and the deck of a program, line by line, for the commands
//! `assemble` and `disassemble`. docs/object-text.md and docs/disassembly.md have the formats.
//!
//! Only program.rt calls these functions. `st_object` and `st_dis` build the whole text first,
//! which is all the memory that is needed; then each line is a write of its own. A line end is byte
//! 10.
//!
//! Proved: the lines are `object_text_lines` of specs/ObjectText.antt or those of `disassembled_by`
//! in specs/Output.antt; together with the answer, `Writes` of specs/Answers.antt.
//!
//! Pinned, by `program_in`, the clause of `image_of`: an object text has no request for a listing.
//! Pinned, by docs/object-text.md and vectors/mnemonics.txt: the lines of object texts; by
//! docs/disassembly.md and vectors/decks.txt: the lines of decks. Free: the loops, if
//! proofs/objects follows.
ghost use Rattle.std.specs.Prelude.{◌≡◌, ◌+◌, Ok};
ghost use Rattle.st_asm.specs.Assembly.{assembly_parts};
ghost use Rattle.st_text.specs.Pieces.{pieces_of};
ghost use Rattle.st_io.specs.Lines.{WritesLines, text};
ghost use Rattle.st_object.specs.Object.{IsProgram};
ghost use Rattle.st_top.specs.Answers.{Writes};
ghost use Rattle.st_top.specs.ObjectText.{program_in, object_text_lines, whole_lines};
ghost use Rattle.st_top.specs.Layers.{Ends};
ghost use Rattle.st_top.specs.Output.{lines_alone, disassembled_by};
ghost use Rattle.st_top.specs.declared.answer.Status.TheVariants.{Done};

use crate::answer::{Answer, Status};
use crate::layer_error::LayerError;
use st_asm::Assembled;
use st_dis::disassemble;
use st_io::{Failed, Sink, write_line};
use st_object::{Image, write_object};
use st_text::cut;
use std::alloc::Global;

/// The part of an assembled job that its object text keeps: all but whether it is listed.
pub fn image_of(program: Assembled) -> Image
    ensures { result ≡ program_in (assembly_parts program) }
{
    let Assembled {
        image,
        start,
        mut controls,
        ..
    } = program;
    controls.list = false;
    Image {
        words: image,
        start,
        controls,
    }
}

// Writes the lines of a text that have a line end, including the line end. The label of the loop
// serves only its proof.
fn write_ended<K: Sink>(out: &mut K, text: &[u8]) -> Result<(), Failed>
    ensures { WritesLines (K.output out.old) (K.output out.new)
        (whole_lines (pieces_of 10 text.now)) result }
{
    let mut rest = text;
    'lines: while let Some((line, after)) = cut(rest, b'\n') {
        write_line(out, rest.split_at(line.len() + 1).0)?;
        rest = after;
    }
    Ok(())
}

// Writes a text line by line. Returns the answer.
fn answer_text<K: Sink>(out: &mut K, text: &[u8]) -> Answer
    ensures writes { Writes result.status (K.output out.old) (K.output out.new)
        (lines_alone Done (whole_lines (pieces_of 10 text.now))) result }
    ensures ticks { result.ticks ≡ 0 }
{
    match write_ended(out, text) {
        Ok(()) => Answer::without_run(Status::Done),
        Err(_) => Answer {
            status: Status::WriteFault,
            done: 0,
            ticks: 0,
        },
    }
}

/// Writes the object text of a program line by line. All memory is allocated first. The program is
/// one that an object text can contain (`IsProgram`).
pub fn answer_object<K: Sink>(alloc: Global, program: &Image, out: &mut K) -> Answer
    requires { IsProgram program.now }
    ensures writes { Writes result.status (K.output out.old) (K.output out.new)
        (lines_alone Done (object_text_lines program.now)) result }
    ensures ticks { result.ticks ≡ 0 }
{
    match write_object(alloc, program) {
        Ok(text) => answer_text(out, text.as_slice()),
        Err(_) => Answer::without_run(Status::NoMemory),
    }
}

/// Writes the deck of a program line by line. All memory is allocated first.
pub fn answer_deck<K: Sink>(
    alloc: Global,
    program: &Image,
    out: &mut K,
) -> Result<Answer, LayerError>
    requires { IsProgram program.now }
    ensures { Ends (K.output out.old) (K.output out.new)
        (disassembled_by (Ok program.now)) result }
{
    let deck = disassemble(
        alloc,
        program.words.as_slice(),
        program.start,
        &program.controls,
    )?;
    Ok(answer_text(out, deck.as_slice()))
}
