//! A recorded step, and the words that were put after it: those of a card that the reader brought
//! before the next step. Addresses are word addresses. back.rt keeps recorded steps in its ring,
//! and undoing.rt undoes each, the puts from the last to the first, then the step. docs/machine.md
//! ("Steps back") has the rules.
//!
//! Proved: `noted` adds a put at the end (`step_with_word` of specs/Undone.antt). Pinned: at most
//! eight puts, as many as a card has words, by `IsStepSound` of specs/Steps.antt. `st_plain` holds
//! a `KeptStep`, and only `st_back` reads its fields. Free: larger arrays, if `IsStepSound` and
//! proofs/undoing follow.
ghost use Rattle.std.specs.Prelude.{◌≡◌, ◌≤◌};
ghost use Rattle.st_back.specs.Undone.{step_with_word as noted_of};

use st_exec::Trail;

/// A step that can be undone.
#[derive(Clone, Copy, Debug)]
pub struct KeptStep {
    /// The trail of the state before the step.
    pub trail: Trail,
    /// The word addresses of the words that were put since, in order.
    pub places: [u32; 8],
    /// The previous contents of each of these words.
    pub contents: [u64; 8],
    /// The number of words that were put since, at most 8.
    pub puts: u8,
}

// The step with one more put: to the word address `w`, whose contents were `content`.
pub(crate) fn noted(mut kept: KeptStep, w: u32, content: u64) -> KeptStep
    requires { kept.puts ≤ 7 }
    ensures { result ≡ noted_of kept w content }
{
    let n = kept.puts as usize;
    kept.places[n] = w;
    kept.contents[n] = content;
    kept.puts += 1;
    kept
}
