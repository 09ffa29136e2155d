//! Splitting a text at a byte, and at a length, without copying it. `cut` is the step of each
//! splitting loop: fields of a card at commas, words at blanks, lines at line ends. Callers are
//! words.rt, the parsers (`st_card`, `st_expr`, `st_mnemonic`, `st_object`, `st_entries`), `st_top`
//! and others. docs/strap.md says where cards are split.
//!
//! Proved: the parts of `cut` are the first piece and the rest of `pieces_of` in specs/Pieces.antt,
//! so a loop of `cut` yields exactly these pieces; `front` and `behind` are `take` and `drop`. Laws
//! of `st_dis` and `st_entries` use `pieces_of`. Not proved: speed.
//!
//! Pinned, by `pieces_of` and the proofs of these crates: the results. Free: the search (here
//! `memchr`), if proofs/pieces follows `cut`.

ghost use Rattle.std.specs.Prelude.{◌≡◌, ◌+◌, length, take, drop, [], ◌∷◌, ◌++◌, IsTrue, MatchOption, IfSome};
ghost use Rattle.st_text.specs.Pieces.{pieces_of, lacks};

use memchr::memchr;

/// The parts of `text` before and after the first byte `at`.
///
/// `None` if the text has no such byte.
pub fn cut(text: &[u8], at: u8) -> Option<(&[u8], &[u8])>
    ensures pieces { MatchOption result (pieces_of at text.now ≡ text.now ∷ [])
        (λ p. pieces_of at text.now ≡ p.0.now ∷ pieces_of at p.1.now) }
    ensures whole { IfSome result (λ p. text.now ≡ p.0.now ++ at ∷ p.1.now) }
    ensures first { MatchOption result (IsTrue (lacks at text.now))
        (λ p. IsTrue (lacks at p.0.now)) }
    ensures lengths { IfSome result (λ p. length p.0.now + 1 + length p.1.now ≡ length text.now) }
{
    let Some(place) = memchr(at, text) else {
        return None;
    };
    let (front, behind) = text.split_at(place);
    Some((front, behind.split_at(1).1))
}

/// The first `count` bytes of a text, or all of it if it is shorter.
pub fn front(text: &[u8], count: usize) -> &[u8]
    ensures { result.now ≡ take count text.now }
{
    text.split_at(count.min(text.len())).0
}

/// The text without its first `count` bytes, empty if it is not longer.
pub fn behind(text: &[u8], count: usize) -> &[u8]
    ensures { result.now ≡ drop count text.now }
{
    text.split_at(count.min(text.len())).1
}
