//! The choice of instructions that have a spelling: those whose statement assembles to exactly
//! their bits. All other words are written as numbers, `DD`. docs/disassembly.md has the rule.
//! counting.rt and writing.rt call these functions for each word, or half of a word, that is not
//! zero.
//!
//! Proved: each call returns exactly the definition of its name in specs/Spelling.antt; the table
//! of symbols is empty, since no card of a deck has a name. That the statements of a word assemble
//! to its 64 bits is the law `StatementsEmitTheirWord` (specs/Laws.antt).
//!
//! Pinned, by these definitions, docs/disassembly.md and vectors/decks.txt: the choice; that each
//! text is assembled again (`emitted_alone` of `st_asm`); MOST_CHARACTERS, which
//! specs/Spelling.antt repeats as a figure. Free: the bodies.

ghost use Rattle.std.specs.Prelude.{◌≡◌, ◌/◌, ◌%◌, ◌^◌, []};
ghost use Rattle.std.specs.Option.{option_map};
ghost use Rattle.st_dis.specs.Spelling as spec;

use crate::texts::text_of;
use st_asm::{EmittedBits, emitted_alone};
use st_expr::Symbols;
use st_format::{Instr, decode};
use st_text::Line;

// The most characters of a statement on a card, columns 10 to 72; a figure of the definition.
const MOST_CHARACTERS: usize = 63;

// The first half-word of a word.
pub(crate) fn left_half(word: u64) -> u32
    ensures { result ≡ word / 2 ^ 32 }
{
    (word >> 32) as u32
}

// The second half-word of a word.
pub(crate) fn right_half(word: u64) -> u32
    ensures { result ≡ word % 2 ^ 32 }
{
    (word % (1 << 32)) as u32
}

// The statement of a full-word instruction; `None` if these bits have none. The symbol table is
// empty.
pub(crate) fn word_spelling(symbols: &Symbols, left: u32, right: u32) -> Option<Line>
    requires { symbols.now ≡ [] }
    ensures { option_map (λ line. line.bytes) result ≡ spec.word_spelling left right }
{
    let decoded = decode(left, right);
    if decoded.halves != 2 {
        return None;
    }
    let wanted = EmittedBits {
        length: 64,
        bits: (u64::from(left) << 32) + u64::from(right),
    };
    spelling_of(symbols, decoded.instr, wanted)
}

// The statement of a half-word instruction; `None` if these bits have none. The symbol table is
// empty.
pub(crate) fn half_spelling(symbols: &Symbols, half: u32) -> Option<Line>
    requires { symbols.now ≡ [] }
    ensures { option_map (λ line. line.bytes) result ≡ spec.half_spelling half }
{
    let decoded = decode(half, 0);
    if decoded.halves == 2 {
        return None;
    }
    let wanted = EmittedBits {
        length: 32,
        bits: u64::from(half),
    };
    spelling_of(symbols, decoded.instr, wanted)
}

// The text of an instruction, if the instruction is valid and the text assembles to the bits
// `wanted`.
#[tactic(auto, unfolding(crate::specs::Spelling::spelling_of))]
fn spelling_of(symbols: &Symbols, instr: Instr, wanted: EmittedBits) -> Option<Line>
    requires { symbols.now ≡ [] }
    ensures { option_map (λ line. line.bytes) result ≡ spec.spelling_of instr wanted }
{
    if !instr.is_valid() {
        return None;
    }
    let text = text_of(instr);
    if says(symbols, text.as_str().as_bytes(), wanted) {
        Some(text)
    } else {
        None
    }
}

// Whether a text fits on a card and assembles to these bits.
fn says(symbols: &Symbols, text: &[u8], wanted: EmittedBits) -> bool
    requires { symbols.now ≡ [] }
    ensures { result ≡ spec.says text.now wanted }
{
    if text.len() > MOST_CHARACTERS {
        return false;
    }
    match emitted_alone(symbols, text) {
        None => false,
        Some(emitted) => emitted.length == wanted.length && emitted.bits == wanted.bits,
    }
}
