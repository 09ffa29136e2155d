//! The initial state of the tests of this crate: an image of zeros, with the instruction counter at
//! word 32. overlapped.rt, plain.rt and snapshots.rt store their programs in it.
//!
//! Proved, by the clause of `opened`: no instruction is complete, which the calls of the tests
//! require. The clauses of `zeros` (all of WORDS zeros) are those that `State::new` requires of an
//! image. Not proved: that the only error is a failed allocation.
//!
//! Pinned, by these three files, which store their instructions there: half-word address 64, the
//! left half of word 32, the first that may be fetched (docs/machine.md), and that all words are
//! zeros. Free: the bodies.
ghost use Rattle.std.specs.Prelude.{◌≡◌, ℕ, length, slice_index, IfOk};

use st_bits::WORDS;
use st_state::State;
use std::alloc::{AllocError, Global};
use std::test::Fail;

// A list of `n` zero words.
fn zeros(alloc: Global, n: usize) -> Result<Vec<u64>, AllocError>
    ensures size { IfOk result (λ v. length v.items ≡ n) }
    ensures zeros { IfOk result (λ v. (w : ℕ) → slice_index v.items w ≡ 0) }
{
    vec![in alloc; 0; n]
}

/// The state at the start of a blank image; the instruction counter is at the left half of word 32.
pub fn opened(alloc: Global) -> Result<State, Fail>
    ensures { IfOk result (λ s. s.done ≡ 0) }
{
    let image = zeros(alloc, WORDS as usize)?;
    let Ok(state) = State::new(alloc, &image, 64) else {
        return Err(Fail::from(AllocError));
    };
    Ok(state)
}
