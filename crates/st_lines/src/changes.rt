//! Writes the words that changed since the previous entry (instruction), one `WORD` line each, in
//! order of address. docs/ledger.md has the lines. writing.rt calls `write_changed`, `keep_changed`
//! and `keep_words`. To compare all 98,304 words would be slow, so the caller says which words
//! other than registers may have changed (`Changeable`, made by `st_account`), and only these words
//! and the registers are compared with a copy.
//!
//! Proved: the lines are `word_change_lines` of all words (specs/BorderLines.antt), given that no
//! other word changed (`AreOthersAlike` of specs/Changes.antt), and the copy is up to date after
//! the call. Not proved: speed.
//!
//! Pinned, by `word_change_lines`, docs/ledger.md and vectors/ledger/lines.txt: the lines and their
//! order; by `AreOthersAlike` and the proofs of `st_account`: the fields of `Changeable`. Free: how
//! unchanged words are skipped, if proofs/changes follows.
ghost use Rattle.std.specs.Prelude.{true, ◌≡◌, ℕ, ◌+◌, ◌<◌, ◌≤◌, ◌⊎◌, ◌++◌, drop, length, slice_index, slice_set, take, IsOk};
ghost use Rattle.st_bits.specs.Storage.{words_of_storage};
ghost use Rattle.st_bits.specs.declared.limits.TheConstants.{WORDS};
ghost use Rattle.st_io.specs.Lines.{WritesLines, lines_for};
ghost use Rattle.st_state.specs.Machine.{word as word_of};
ghost use Rattle.st_lines.specs.BorderLines.{word_change_lines};
ghost use Rattle.st_lines.specs.Changes.{IsUntouched, AreOthersAlike};

use crate::digits::fill_changed;
use st_bits::WORDS;
use st_bits::register::FIRST_STORAGE_WORD;
use st_io::{Failed, Sink, write_line};
use st_prep::Words;
use st_report::LineFromEnd;
use st_state::State;

// The number of registers.
const REGISTERS: usize = FIRST_STORAGE_WORD as usize;

/// The words other than registers that may have changed since the previous entry.
#[derive(Clone, Copy, Debug, Default, PartialEq, Eq)]
pub struct Changeable {
    /// The words that the entry writes.
    pub writes: Words,
    /// The address of the first of eight words that the reader may overwrite with a card, if it has
    /// an order.
    pub card: Option<u32>,
}

// An address of at least `w` and at most `WORDS` such that no address from `w` up to it is one of
// the `len` words from `first` on.
fn next_in(first: u32, len: u8, w: u32) -> u32
    requires { w ≤ WORDS }
    ensures least { w ≤ result }
    ensures most { result ≤ WORDS }
    ensures between { (v : ℕ) → w ≤ v → v < result → (v < first) ⊎ (first + len ≤ v) }
{
    if u64::from(first) + u64::from(len) <= u64::from(w) {
        return WORDS;
    }
    w.max(first.min(WORDS))
}

// The first address from `w` on of a word, not a register, that may have changed; at most `WORDS`.
fn next_word(may: &Changeable, w: u32) -> u32
    requires above { 32 ≤ w }
    requires most { w ≤ WORDS }
    ensures least { w ≤ result }
    ensures most { result ≤ WORDS }
    ensures between { (v : ℕ) → w ≤ v → v < result → IsUntouched v may.now }
{
    let writes = may.writes;
    if writes.len == 0 && writes.len2 == 0 && may.card.is_none() {
        return WORDS;
    }
    let one = next_in(writes.first, writes.len, w);
    let two = next_in(writes.first2, writes.len2, w);
    let least = one.min(two);
    match may.card {
        Some(area) => least.min(next_in(area, 8, w)),
        None => least,
    }
}

// Whether the two registers from `w` on are unchanged.
#[tactic(auto, using(st_bits::specs::Storage::words_of_storage_is))]
fn are_two(old: &Vec<u64>, state: &State, w: u32) -> bool
    requires size { length old.now.items ≡ words_of_storage }
    requires inside { w + 2 ≤ 32 }
    ensures { result ≡ true → (v : ℕ) → w ≤ v → v < w + 2 →
        slice_index old.now.items v ≡ word_of state.now v }
{
    if old[w as usize] != state.word(w) {
        return false;
    }
    old[w as usize + 1] == state.word(w + 1)
}

// The first register from `w` on that changed, or else the first word after the registers.
// Unchanged registers are skipped four at a time.
#[tactic(auto, using(st_bits::specs::Storage::words_of_storage_is))]
fn next_register(old: &Vec<u64>, state: &State, w: u32) -> u32
    requires size { length old.now.items ≡ words_of_storage }
    requires most { w ≤ 32 }
    ensures least { w ≤ result }
    ensures most { result ≤ 32 }
    ensures between { (v : ℕ) → w ≤ v → v < result →
        slice_index old.now.items v ≡ word_of state.now v }
{
    let mut r = w;
    'registers: while r < FIRST_STORAGE_WORD {
        if r <= 28 && are_two(old, state, r) && are_two(old, state, r + 2) {
            r += 4;
        } else if old[r as usize] == state.word(r) {
            r += 1;
        } else {
            return r;
        }
    }
    r
}

// The first address from `w` on of a word that may have changed; at most `WORDS`.
fn next_changed(old: &Vec<u64>, state: &State, may: &Changeable, w: u32) -> u32
    requires size { length old.now.items ≡ words_of_storage }
    requires most { w ≤ WORDS }
    requires left { (v : ℕ) → w ≤ v → v < WORDS → IsUntouched v may.now →
        slice_index old.now.items v ≡ word_of state.now v }

    // No word from `w` up to this one may have changed.
    ensures least { w ≤ result }
    ensures most { result ≤ WORDS }
    ensures between { (v : ℕ) → w ≤ v → v < result →
        slice_index old.now.items v ≡ word_of state.now v }
{
    if w >= FIRST_STORAGE_WORD {
        return next_word(may, w);
    }
    let r = next_register(old, state, w);
    if r < FIRST_STORAGE_WORD {
        return r;
    }
    next_word(may, r)
}

// Writes word `w` if it changed, and stores its new value in `old`.
#[tactic(auto, unfolding(crate::specs::BorderLines::word_change_lines), using(st_io::proofs::Progress::wrote_nothing, st_bits::specs::Storage::words_of_storage_is))]
fn write_change<K: Sink>(
    out: &mut K,
    old: &mut Vec<u64>,
    state: &State,
    w: u32,
) -> Result<(), Failed>
    requires inside { w < WORDS }
    requires size { length old.old.items ≡ words_of_storage }
    ensures lines { WritesLines (K.output out.old) (K.output out.new)
        (word_change_lines old.old.items state.now w) result }
    ensures kept { old.new.items ≡ slice_set old.old.items w (word_of state.now w) }
{
    let was = old[w as usize];
    let is = state.word(w);
    if was == is {
        return Ok(());
    }
    old[w as usize] = is;
    let mut line = LineFromEnd::new();
    fill_changed(&mut line, w, was, is);
    write_line(out, line.as_bytes())
}

/// Writes the words of a state that changed, in order of address. `old` has the words as they were
/// before, and is updated to those of the state.
pub(crate) fn write_changed<K: Sink>(
    out: &mut K,
    old: &mut Vec<u64>,
    state: &State,
    may: &Changeable,
) -> Result<(), Failed>
    requires size { length old.old.items ≡ words_of_storage }
    requires left { AreOthersAlike may.now old.old.items state.now }
    ensures lines { WritesLines (K.output out.old) (K.output out.new)
        (lines_for (word_change_lines old.old.items state.now) WORDS 0) result }
    ensures words { IsOk result → old.new.items ≡ state.now.words }
{
    state.shape();
    let first = next_changed(old, state, may, 0);
    let mut w = first;
    'words: while w < WORDS {
        write_change(out, old, state, w)?;
        let next = next_changed(old, state, may, w + 1);
        w = next;
    }
    Ok(())
}

// Copies the first `n` words; both slices have as many.
fn copy_front(n: usize, from: &[u64], to: &mut [u64])
    requires from { n ≤ length from.now }
    requires to { n ≤ length to.old }
    ensures { to.new ≡ take n from.now ++ drop n to.old }
{
    to[..n].copy_from_slice(&from[..n]);
}

/// Copies the words of a state that changed. `old` has the words as they were before. To copy all
/// registers takes less time than to compare them.
#[tactic(auto, using(st_bits::specs::Storage::words_of_storage_is))]
pub(crate) fn keep_changed(old: &mut Vec<u64>, state: &State, may: &Changeable)
    requires size { length old.old.items ≡ words_of_storage }
    requires left { AreOthersAlike may.now old.old.items state.now }
    ensures { old.new.items ≡ state.now.words }
{
    state.shape();
    copy_front(REGISTERS, state.words(), old.as_mut_slice());
    let first = next_word(may, FIRST_STORAGE_WORD);
    let mut w = first;
    'words: while w < WORDS {
        old[w as usize] = state.word(w);
        let next = next_word(may, w + 1);
        w = next;
    }
}

/// Copies all words of a state; both have the same number of words.
pub(crate) fn keep_words(old: &mut Vec<u64>, state: &State)
    requires { length old.old.items ≡ words_of_storage }
    ensures { old.new.items ≡ state.now.words }
{
    old.copy_from_slice(state.words());
}
