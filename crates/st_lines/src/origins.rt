//! The cards that the first half-words of entries come from, for the line `LAID` (docs/ledger.md):
//! the first card whose bits begin in that half-word, and whether storage still has the bits of the
//! image there. `st_account` makes the table `Origins` from the listing; `st_account` and
//! writing.rt call `at`, facts.rt writes the line, and `st_tally` reads `Origin`. `cards` is
//! indexed by half-word address; cards are numbered from 1, and 0 means none.
//!
//! Proved: the origin is `origin_at` of specs/Origins.antt, and the line `emitted_line` of
//! specs/Lines.antt. Which of several cards counts is decided by the table (`first_card` of
//! `st_account`), not here.
//!
//! Pinned, by these definitions, docs/ledger.md and vectors/ledger/lines.txt: the line, and that
//! for a full word both half-words are compared with the image. Free: the bodies, if proofs/origins
//! follows.
ghost use Rattle.std.specs.Prelude.{◌≡◌, ◌+◌, true, slice_index, option_map};
ghost use Rattle.st_lines.specs.Lines.{emitted_line};
ghost use Rattle.st_lines.specs.Origins.{half_in, is_same_half as is_same_half_of, is_kept as is_kept_of, origin_at};

use st_bits::part;
use st_format::length_in_halves;
use st_report::LineFromEnd;
use st_state::State;

/// The card that the first half-word of an entry comes from.
#[derive(Clone, Copy, Debug, PartialEq, Eq)]
pub struct Origin {
    /// The number of the first card whose bits begin in the half-word at the entry's address.
    pub card: u32,
    /// Whether that half-word still is that of the image; for a full word, whether the next
    /// half-word still is too.
    pub kept: bool,
}

/// The cards that the half-words of a program come from.
#[derive(Drop)]
pub struct Origins {
    /// For each half-word address the number of the first card whose bits begin there, or 0.
    pub cards: Vec<u32>,
    /// The words of storage as they were assembled.
    pub image: Vec<u64>,
}

// Half-word `h` of a list of words; 0 after the last one.
fn half_at(words: &[u64], h: usize) -> u32
    ensures { result ≡ half_in words.now h }
{
    let w = h / 2;
    let word = if w < words.len() { words[w] } else { 0 };
    part(word, 32 * (h % 2) as u32, 32) as u32
}

// Whether half-word `h` of a list of words is that of the image.
#[tactic(auto, unfolding(crate::specs::Origins::is_same_half))]
fn is_same_half(image: &[u64], words: &[u64], h: usize) -> bool
    ensures { result ≡ is_same_half_of image.now words.now h }
{
    half_at(words, h) == half_at(image, h)
}

// Whether the half-word or full word that begins at half-word `h` is that of the image.
#[tactic(auto, unfolding(crate::specs::Origins::is_kept))]
fn is_kept(image: &[u64], words: &[u64], h: u32) -> bool
    ensures { result ≡ is_kept_of image.now words.now h }
{
    let h = h as usize;
    if !is_same_half(image, words, h) {
        return false;
    }
    length_in_halves(half_at(words, h)) == 1 || is_same_half(image, words, h + 1)
}

// The number of the card whose bits begin in half-word `h`, or 0.
fn number_at(cards: &Vec<u32>, h: u32) -> u32
    ensures { result ≡ slice_index cards.now.items h }
{
    let h = h as usize;
    if h < cards.len() { cards[h] } else { 0 }
}

impl Origins {
    /// The card that half-word `h` of a state comes from, if a card's bits begin there.
    pub fn at(&self, state: &State, h: u32) -> Option<Origin>
        ensures { result ≡ origin_at self.now state.now h }
    {
        let card = number_at(&self.cards, h);
        if card == 0 {
            return None;
        }
        Some(Origin {
            card,
            kept: is_kept(self.image.as_slice(), state.words(), h),
        })
    }

    /// The card that half-word `h` of a state comes from, if a card's bits begin there. Whether
    /// storage still has these bits is valid only if `facts` is set.
    pub fn at_if(&self, facts: bool, state: &State, h: u32) -> Option<Origin>
        ensures facts { facts ≡ true → result ≡ origin_at self.now state.now h }
        ensures card { option_map (λ o. o.card) result
            ≡ option_map (λ o. o.card) (origin_at self.now state.now h) }
    {
        if facts {
            return self.at(state, h);
        }
        let card = number_at(&self.cards, h);
        if card == 0 {
            return None;
        }
        Some(Origin { card, kept: false })
    }
}

/// Fills a line with `LAID k KEPT f`: card k is the first whose bits begin in the half-word at the
/// address of an entry. The previous contents are overwritten.
pub(crate) fn fill_emitted(line: &mut LineFromEnd, origin: Origin)
    ensures { line.new ≡ emitted_line origin }
{
    line.clear();
    line.put_word(*b"\n");
    line.put_word(if origin.kept {
        *b" KEPT 1"
    } else {
        *b" KEPT 0"
    });
    line.put_decimal(u64::from(origin.card));
    line.put_word(*b"LAID ");
}
