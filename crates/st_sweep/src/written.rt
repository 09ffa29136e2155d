//! The words that the entries (executed instructions) of a run have written so far, as one mark for
//! each word of storage (98,304), for the test whether a run is hazard-free ("calm" in
//! docs/timetable.md). Only hazards.rt uses the marks (sweeping.rt allocates them): it asks whether
//! an entry reads a marked word, then adds the words that the entry writes. The only error of `new`
//! is a failed allocation.
//!
//! Proved: the answers are those of specs/HazardFree.antt for the list of all earlier entries, by
//! `AreMarks` of specs/Marks.antt: a word is marked if and only if an entry writes it.
//!
//! Pinned, by `AreMarks` and specs/HazardFree.antt: registers are marked like other words, and
//! `put` adds one entry to the list. Free: how marks are kept, bits for example.
ghost use Rattle.std.specs.Prelude.{◌≡◌, ◌+◌, ◌≤◌, List, [], ◌∷◌, IfOk, length, get_or, false};
ghost use Rattle.st_prep.specs.Ranges.{IsRuns, AreInside};
ghost use Rattle.st_rows.specs.declared.entry.WordRuns.{WordRuns};
ghost use Rattle.st_segment.specs.Entries.{words_to_write};
ghost use Rattle.st_sweep.specs.HazardFree.{are_written, one_is_written, side_is_written};
ghost use Rattle.st_sweep.specs.Marks.{AreMarks, marks_with};

use st_bits::{NoMemory, number_of_words};
use st_prep::Words;
use std::alloc::Global;
use std::marker::Model;

// The set of words of storage that have been written so far.
#[derive(Drop)]
pub(crate) struct WrittenWords {
    // For each word of storage, whether an entry wrote it.
    marks: Vec<bool>,
}

// Contracts see a mark for each word.
impl Model for WrittenWords {
    ghost use Rattle.std.specs.Prelude.{◌≡◌, List, Bool, length};
    ghost use Rattle.st_bits.specs.Storage.{words_of_storage};

    ghost Value = { List Bool };

    ghost view = { λ w. w.marks.items };

    ghost invariant = { λ w. length w.marks.items ≡ words_of_storage };
}

// Whether a word is marked.
fn is_marked(marks: &[bool], w: usize) -> bool
    ensures { result ≡ get_or marks.now w false }
{
    marks.get(w).copied().unwrap_or(false)
}

// Whether one of the `len` words from `first` is marked. The labels of this loop and the next serve
// only their proofs.
fn has_mark(marks: &[bool], first: u32, len: u8) -> bool
    ensures { (earlier : List WordRuns) → AreMarks earlier marks.now → result
        ≡ are_written earlier first len }
{
    let mut w = first as usize;
    let mut left = len;
    'words: while left > 0 {
        if is_marked(marks, w) {
            return true;
        }
        w += 1;
        left -= 1;
    }
    false
}

// Marks the `len` words from `first`.
fn mark(marks: &mut Vec<bool>, first: u32, len: u8)
    requires { 1 ≤ len → first + len ≤ length marks.old.items }
    ensures marked { marks.new.items ≡ marks_with marks.old.items first len }
    ensures long { length marks.new.items ≡ length marks.old.items }
{
    let mut w = first as usize;
    let mut left = len;
    'words: while left > 0 {
        marks[w] = true;
        w += 1;
        left -= 1;
    }
}

impl WrittenWords {
    ghost use Rattle.st_sweep.specs.Marks.{AreMarks, marks_with};

    /// The empty set. The only error is a failed allocation.
    pub fn new(alloc: Global) -> Result<WrittenWords, NoMemory>
        ensures { IfOk result (λ w. AreMarks [] w) }
    {
        let Ok(marks) = vec![in alloc; false; number_of_words()] else {
            return Err(NoMemory);
        };
        Ok(WrittenWords { marks })
    }

    /// Whether one of the words of two ranges has been written.
    #[tactic(auto, unfolding(crate::specs::HazardFree::one_is_written))]
    pub fn has_words(&self, words: Words) -> bool
        ensures { (earlier : List WordRuns) → AreMarks earlier self.now → result
            ≡ one_is_written earlier words }
    {
        has_mark(&self.marks, words.first, words.len)
            || has_mark(&self.marks, words.first2, words.len2)
    }

    /// Whether the index-side word, if there is one, has been written.
    #[tactic(auto, unfolding(crate::specs::HazardFree::side_is_written))]
    pub fn has_side(&self, side: Option<u32>) -> bool
        ensures { (earlier : List WordRuns) → AreMarks earlier self.now → result
            ≡ side_is_written earlier side }
    {
        match side {
            Some(w) => is_marked(&self.marks, w as usize),
            None => false,
        }
    }

    /// Marks the words of two ranges as written: ranges of at most 16 words each, which lie in
    /// storage.
    pub fn put(&mut self, words: Words)
        requires runs { IsRuns words }
        requires inside { AreInside words }
        ensures { (earlier : List WordRuns) → AreMarks earlier self.old →
            AreMarks (words_to_write words ∷ earlier) self.new }
    {
        mark(&mut self.marks, words.first, words.len);
        mark(&mut self.marks, words.first2, words.len2);
    }
}
