//! The held instruction words with their contents: an instruction buffer that can be used by
//! itself. The machine of the programs has `HeldWords`, without contents.
//!
//! No program uses `Hold`; the tests in `st_calls` do. Addresses are word addresses; the caller
//! gives the tick of an answer. A word is requested, then answered, then can be patched by a store;
//! the fifth request drops the oldest.
//!
//! Proved: each call is its definition in specs/HeldWords.antt, over the list of at most four
//! words, the oldest first. The laws `RequestsHoldFour`, `AnswersAreKnown` and
//! `StoresChangeContentAlone` (specs/Laws.antt) are about `Hold`.
//!
//! Pinned, by these definitions and docs/CLAIMS.md, which offers `Hold`: four words, and the calls.
//! Free: the arrays and the search, as long as the view `oldest_first` gives that list and
//! proofs/held follows.
ghost use Rattle.std.specs.Prelude.{◌≡◌, ◌≤◌, [], length, false, true, if◌then◌else◌, ◌==◌, Some};
ghost use Rattle.st_fetch.specs.HeldWords.{is_held, words_after_request, words_after_answer, answer_of, found, words_after_store};
ghost use Rattle.st_fetch.specs.Planned.{with_its_content};

use crate::contents::Contents;
use crate::fetched::{AskedWord, HeldWords};
use std::marker::Model;

/// A held instruction word.
#[derive(Clone, Copy, Debug, Default, PartialEq, Eq)]
pub struct Held {
    /// Its word address.
    pub w: u32,
    /// Its contents and the tick of its answer, None until it is answered.
    pub answer: Option<(u64, u64)>,
}

/// The last requested instruction words, at most four. Contracts see their list, the oldest request
/// first.
#[derive(Drop)]
pub struct Hold {
    words: HeldWords,
    contents: Contents,
    len: usize,
}

impl Model for Hold {
    ghost use Rattle.std.specs.Prelude.{List, ◌≡◌, ◌≤◌, length};
    ghost use Rattle.st_fetch.specs.declared.held.Held.{Held};
    ghost use Rattle.st_fetch.specs.Planned.{oldest_first};

    ghost Value = { List Held };

    ghost view = { λ a. oldest_first a.len a.words.words a.contents.of };

    ghost invariant = { λ a. (a.len ≤ 4) × (length a.words.words ≡ 4)
        × (length a.contents.of ≡ 4) };
}

impl Hold {
    /// The list without held words.
    #[tactic(auto, unfolding(crate::specs::Planned::oldest_first))]
    pub fn new() -> Hold
        ensures { result ≡ [] }
    {
        Hold {
            words: HeldWords::new(),
            contents: Contents::new(),
            len: 0,
        }
    }

    /// Whether the word `w` is held.
    pub fn held(&self, w: u32) -> bool
        ensures value { result ≡ is_held self.now w }
        ensures few { length self.now ≤ 4 }
    {
        self.find(w).is_some()
    }

    /// Adds the word `w`, which is not held, without an answer. If four words are held, drops the
    /// oldest request.
    pub fn request(&mut self, w: u32)
        requires { is_held self.old w ≡ false }
        ensures { self.new ≡ words_after_request self.old w }
    {
        self.words.request(w, 0);
        self.contents = self.contents.requested();
        self.len = (self.len + 1).min(4);
    }

    /// Records that the held word `w` is answered at `tick` with the contents `word`.
    pub fn answer(&mut self, w: u32, word: u64, tick: u64)
        requires { is_held self.old w ≡ true }
        ensures { self.new ≡ words_after_answer self.old w word tick }
    {
        self.words = self.words.answered(w, tick);
        self.contents = self.contents.answered(self.words, w, word);
    }

    /// The contents of the word `w` and the tick of its answer; None if and only if it is not held
    /// or not answered yet.
    pub fn word(&self, w: u32) -> Option<(u64, u64)>
        ensures { result ≡ answer_of self.now w }
    {
        self.find(w)?.answer
    }

    // The held word `w`, None if it is not held. Place 0 has the newest request, and places from
    // `len` on do not count.
    fn find(&self, w: u32) -> Option<Held>
        ensures value { result ≡ found self.now w }
        ensures few { length self.now ≤ 4 }
    {
        let mut here = None;
        for place in 0..self.len {
            here = found_next(w, self.words.words[place], self.contents.of[place], here);
        }
        here
    }

    /// Stores `word` to the word `w`: if `w` is held and answered, its contents change. The tick of
    /// its answer and the other words do not change. If it is not held or not answered yet, nothing
    /// changes.
    pub fn patch(&mut self, w: u32, word: u64)
        ensures { self.new ≡ words_after_store self.old w word }
    {
        self.contents = self.contents.patched(self.words, w, word);
    }

    /// Removes all held words.
    #[tactic(auto, unfolding(crate::specs::Planned::oldest_first))]
    pub fn forget(&mut self)
        ensures { self.new ≡ [] }
    {
        self.len = 0;
    }
}

// The word combined with its contents if it is the word `w`, otherwise `before`.
fn found_next(
    w: u32,
    fetched: AskedWord,
    content: Option<u64>,
    before: Option<Held>,
) -> Option<Held>
    ensures { result ≡ (if fetched.w == w then Some (with_its_content (fetched, content))
        else before) }
{
    if fetched.w != w {
        return before;
    }
    Some(match content {
        Some(word) => Held {
            w,
            answer: Some((word, fetched.tick)),
        },
        None => Held { w, answer: None },
    })
}
