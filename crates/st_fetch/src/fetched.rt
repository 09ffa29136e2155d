//! The held words of a plan, in which ticks are computed ahead: the last four requested instruction
//! words, with the ticks of their answers. A held word that is wanted again needs no read.
//!
//! The bus of `st_rows` calls `tick_of` for each instruction word, and `request` for each word that
//! the bus reads; `answered` is for `Hold` (held.rt). A tick can lie in the future. The word 0, a
//! register, marks an unused place.
//!
//! Proved: `tick_of` is the definition of its name in specs/Planned.antt, `request` is `asked_for`
//! there. Pinned, by these definitions, docs/timetable.md, docs/CLAIMS.md and
//! vectors/timetable.txt: four words, first in, first out, and not renewed by a use. Free: the form
//! of the search, if proofs/fetched follows.
ghost use Rattle.std.specs.Prelude.{◌≡◌, replicate};
ghost use Rattle.st_fetch.specs.Planned.{no_word, tick_of as tick_by, asked_for, word_with_answer};

/// A requested instruction word.
#[derive(Clone, Copy, Debug, Default, PartialEq, Eq)]
pub struct AskedWord {
    /// Its word address.
    pub w: u32,
    /// The tick at which it is answered.
    pub tick: u64,
}

/// The last four requested instruction words, the newest first, for a plan: without contents, each
/// with the tick of its answer, which may be in the future. If fewer were requested, the rest of
/// the list is the word 0.
#[derive(Clone, Copy, Debug, Default, PartialEq, Eq)]
pub struct HeldWords {
    /// The words, the newest first.
    pub words: [AskedWord; 4],
}

impl AskedWord {
    // This word, with the tick of its answer if it is the word `w`.
    fn told(self, w: u32, tick: u64) -> AskedWord
        ensures { result ≡ word_with_answer w tick self }
    {
        if self.w == w {
            AskedWord { w, tick }
        } else {
            self
        }
    }
}

impl HeldWords {
    ghost use Rattle.std.specs.Prelude.{map};

    /// The list without held words.
    pub fn new() -> HeldWords
        ensures { result.words ≡ replicate 4 no_word }
    {
        HeldWords {
            words: [AskedWord { w: 0, tick: 0 }; 4],
        }
    }

    /// The tick at which the word `w`, which is not 0, is answered; None if and only if it is not
    /// held.
    pub fn tick_of(&self, w: u32) -> Option<u64>
        ensures { result ≡ tick_by self.now.words w }
    {
        let found = self.words.iter().find(|fetched| fetched.w == w)?;
        Some(found.tick)
    }

    /// Adds the word `w`, which is answered at `tick`, in place of the oldest request.
    pub fn request(&mut self, w: u32, tick: u64)
        ensures { self.new.words ≡ asked_for self.old.words w tick }
    {
        self.words[3] = self.words[2];
        self.words[2] = self.words[1];
        self.words[1] = self.words[0];
        self.words[0] = AskedWord { w, tick };
    }

    // The held words after the word `w` is answered at `tick`.
    pub(crate) fn answered(self, w: u32, tick: u64) -> HeldWords
        ensures value { result.words ≡ map (word_with_answer w tick) self.words }
    {
        let words = self.words;
        HeldWords {
            words: [
                words[0].told(w, tick),
                words[1].told(w, tick),
                words[2].told(w, tick),
                words[3].told(w, tick),
            ],
        }
    }
}
