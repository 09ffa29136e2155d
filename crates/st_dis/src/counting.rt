//! Counts the cards of a deck, so that a program with too many is refused before anything is
//! written. docs/disassembly.md has the limit. Only disassembling.rt calls `card_count`.
//!
//! Proved: `card_count` is the definition of its name in specs/Deck.antt, the length of the list of
//! cards that writing.rt writes, so both modules agree; the clause `count` of each function says so
//! for its part of the list. Not proved: speed.
//!
//! Pinned, by `card_count` there, docs/disassembly.md and vectors/decks.txt: all counts: a word
//! that is not zero has one or two statement cards, with a location card in front if the word
//! before it is zero; END and the control cards follow. Free: all bodies and their split, and the
//! bounds `few`, which only keep sums below 2^32, if proofs/counting, which has 98,304 in figures,
//! follows the loops.

ghost use Rattle.std.specs.Prelude.{◌≡◌, ◌≤◌, ◌+◌, ◌*◌, ℕ, [], length, if◌then◌else◌};
ghost use Rattle.st_bits.specs.declared.limits.TheConstants.{WORDS};
ghost use Rattle.st_card.specs.Limits.{IsWithinLimits};
ghost use Rattle.st_card.specs.Keywords.{keyword_order};
ghost use Rattle.st_card.specs.Written.{asked_by};
ghost use Rattle.st_object.specs.Object.{AreWords};
ghost use Rattle.st_dis.specs.Deck as spec;
ghost use Rattle.st_dis.specs.Spelling.{statements_of};

use crate::spelling::{half_spelling, left_half, right_half};
use st_card::{Controls, Keyword, ORDER};
use st_expr::Symbols;

// Whether a word is two half-word instructions, each of which has a spelling. The first half of a
// full-word instruction has none.
fn is_pair(symbols: &Symbols, word: u64) -> bool
    requires { symbols.now ≡ [] }
    ensures { length (statements_of word) ≡ (if result then 2 else 1) }
{
    half_spelling(symbols, left_half(word)).is_some()
        && half_spelling(symbols, right_half(word)).is_some()
}

// The number of cards of a word, at most one location card and two statements; `before` is the word
// before it.
fn count_placed(symbols: &Symbols, before: u64, word: u64) -> u32
    requires { symbols.now ≡ [] }
    ensures count { result ≡ length (spec.cards_of_word 0 before word) }
    ensures few { result ≤ 3 }
{
    if word == 0 {
        return 0;
    }
    u32::from(before == 0) + if is_pair(symbols, word) { 2 } else { 1 }
}

// The number of cards of words. The word before the first counts as zero, so a location card begins
// the first run of words.
fn count_words(symbols: &Symbols, words: &[u64]) -> u32
    requires symbols { symbols.now ≡ [] }
    requires few { length words.now ≤ WORDS }
    ensures count { result ≡ length (spec.word_cards 0 0 words.now) }
    ensures few { result ≤ 3 * WORDS }
{
    let mut count = 0;
    let mut before = 0;
    let mut rest = words;
    // Proofs name the loop by its label.
    'words: while let [word, after @ ..] = rest {
        count += count_placed(symbols, before, *word);
        before = *word;
        rest = after;
    }
    count
}

// The number of control cards of the requests with a keyword.
fn count_asked(controls: &Controls, keyword: Keyword) -> u32
    requires { IsWithinLimits controls.now }
    ensures count { result ≡ length (asked_by keyword controls.now) }
    ensures few { result ≤ 4096 }
{
    controls.count(keyword) as u32
}

// The number of control cards.
fn count_controls(controls: &Controls) -> u32
    requires { IsWithinLimits controls.now }
    ensures count { result ≡ length (spec.control_cards controls.now) }
    ensures few { result ≤ 4096 * length keyword_order }
{
    let mut count = 0;
    let mut rest = ORDER.as_slice();
    'keywords: while let [keyword, after @ ..] = rest {
        count += count_asked(controls, *keyword);
        rest = after;
    }
    count
}

// The number of cards in the deck of a program with these words of storage, whatever its start. The
// symbol table is empty. The 1 is the END card, which has the start.
#[tactic(auto, unfolding(crate::specs::Deck::card_count))]
pub(crate) fn card_count(symbols: &Symbols, words: &[u64], controls: &Controls) -> u32
    requires symbols { symbols.now ≡ [] }
    requires few { length words.now ≤ WORDS }
    requires limits { IsWithinLimits controls.now }
    ensures count { (start : ℕ) →
        result ≡ spec.card_count (spec.program words.now start controls.now) }

    // Each word has 64 bits; the proof of `disassemble` bounds the length of the deck by it.
    ensures words { AreWords words.now }
{
    count_words(symbols, words) + 1 + count_controls(controls)
}
