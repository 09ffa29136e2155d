//! The contents of the four held instruction words, stored separately from their plan (fetched.rt),
//! which has their addresses and ticks. Only held.rt uses contents and plan together; no program
//! needs contents, since the machines take words from the state. Place 0 belongs to the newest
//! request. docs/timetable.md describes the held words.
//!
//! Proved: each call is a map over the four places (`content_answered`, `content_patched` of
//! specs/Planned.antt); a store changes a word only if the word is answered.
//!
//! Pinned, by these definitions and `Hold` of held.rt, which docs/CLAIMS.md offers: the calls, and
//! four places, as many as `HeldWords` has. Free: the bodies.
ghost use Rattle.std.specs.Prelude.{◌≡◌, None, Some, if◌then◌else◌, ◌∷◌, replicate, take, map, zip};
ghost use Rattle.std.specs.Option.{option_map};
ghost use Rattle.st_fetch.specs.Planned.{content_answered, content_patched};

use crate::fetched::HeldWords;

/// The contents of held words, by the place of the word; None until the word is answered.
#[derive(Clone, Copy, Debug, Default, PartialEq, Eq)]
pub struct Contents {
    /// The contents, in the order of the words.
    pub of: [Option<u64>; 4],
}

impl Contents {
    /// The contents before any word is answered.
    pub fn new() -> Contents
        ensures { result.of ≡ replicate 4 None }
    {
        Contents { of: [None; 4] }
    }

    /// The contents after a request: the newest word has none yet.
    pub fn requested(self) -> Contents
        ensures { result.of ≡ None ∷ take 3 self.of }
    {
        let of = self.of;
        Contents {
            of: [None, of[0], of[1], of[2]],
        }
    }

    /// The contents after the word `w` of these held words is answered with `word`.
    pub fn answered(self, held: HeldWords, w: u32, word: u64) -> Contents
        ensures { result.of ≡ map (content_answered w word) (zip held.words self.of) }
    {
        let (words, of) = (held.words, self.of);
        Contents {
            of: [
                answered(words[0].w == w, word, of[0]),
                answered(words[1].w == w, word, of[1]),
                answered(words[2].w == w, word, of[2]),
                answered(words[3].w == w, word, of[3]),
            ],
        }
    }

    /// The contents after `word` is stored in the word `w` of these held words; they change only if
    /// the word is answered.
    pub fn patched(self, held: HeldWords, w: u32, word: u64) -> Contents
        ensures { result.of ≡ map (content_patched w word) (zip held.words self.of) }
    {
        let (words, of) = (held.words, self.of);
        Contents {
            of: [
                patched(words[0].w == w, word, of[0]),
                patched(words[1].w == w, word, of[1]),
                patched(words[2].w == w, word, of[2]),
                patched(words[3].w == w, word, of[3]),
            ],
        }
    }
}

// The contents of a held word after an answer; `here` is true if the answer is for this word.
fn answered(here: bool, word: u64, content: Option<u64>) -> Option<u64>
    ensures { result ≡ (if here then Some word else content) }
{
    if here { Some(word) } else { content }
}

// The contents of a held word after a store; `here` is true if the store is to this word.
fn patched(here: bool, word: u64, content: Option<u64>) -> Option<u64>
    ensures { result ≡ (if here then option_map (λ _. word) content else content) }
{
    match content {
        Some(_) if here => Some(word),
        _ => content,
    }
}
