//! The words of a text: its parts between blanks, none of them empty. The parser of control cards
//! (`st_card`) splits its text by `first_word`; docs/strap.md has the rule.
//!
//! Proved: the result is the first of the `words` of specs/Pieces.antt, with a rest that has the
//! other words. The clause `shorter` is the measure by which the loops of callers terminate.
//!
//! Pinned, by `words` of specs/Pieces.antt and docs/strap.md: the byte 32 as separator. Free: the
//! body, if proofs/words follows.

ghost use Rattle.std.specs.Prelude.{◌≡◌, ◌-◌, ◌<◌, ◌≤◌, length, [], ◌∷◌, MatchOption, IfSome};
ghost use Rattle.st_text.specs.Pieces.{words};

use crate::pieces::cut;

/// The first word of a text and the rest after it. Words are separated by blanks.
///
/// `None` if the text has no word.
pub fn first_word(text: &[u8]) -> Option<(&[u8], &[u8])>
    ensures words { MatchOption result (words text.now ≡ [])
        (λ p. words text.now ≡ p.0.now ∷ words p.1.now) }
    ensures some_text { IfSome result (λ p. 0 < length text.now) }
    ensures shorter { IfSome result (λ p. length p.1.now ≤ length text.now - 2) }
{
    let mut rest = text;
    // Proofs name the loop by its label.
    'blanks: while let Some((word, after)) = cut(rest, b' ') {
        if !word.is_empty() {
            return Some((word, after));
        }
        rest = after;
    }
    if rest.is_empty() {
        None
    } else {
        Some((rest, &[]))
    }
}
