//! The leftmost pending indicator, and updates of the indicators: bits of word 11 that are set by
//! results and faults, and that can interrupt. Indicator n is bit n of a word, and bit 0 is the
//! leftmost. `State` calls both functions, and `st_exec` calls `turned`. docs/machine.md has the
//! rules.
//!
//! Proved: the results are `first_from` and `indicator_word` of specs/Interrupts.antt, for all
//! words.
//!
//! Pinned, by these definitions and docs/machine.md: the leftmost indicator counts, and an
//! indicator that is in both words is on. Free: the bodies (`leading_zeros` replaces the search
//! from 0 to 63 that the definition describes), if proofs/indicators follows.
ghost use Rattle.std.specs.Prelude.{◌≡◌};
ghost use Rattle.st_bits.specs.Indicators.{IsIndicatorIfAny};
ghost use Rattle.st_state.specs.Interrupts.{first_from, is_pending, indicator_word as turned_of};

/// The leftmost indicator that is on and whose mask bit is one, None if there is none.
pub fn leftmost(indicators: u64, mask: u64) -> Option<u8>
    ensures value { result ≡ first_from (is_pending indicators mask) 0 64 }
    ensures bound { IsIndicatorIfAny result }
{
    let pending = indicators & mask;
    if pending == 0 {
        None
    } else {
        Some(pending.leading_zeros() as u8)
    }
}

/// The indicators after an update: those of `on` are turned on, the others of `off` are turned off.
pub fn turned(indicators: u64, on: u64, off: u64) -> u64
    ensures { result ≡ turned_of 64 on off indicators }
{
    (indicators & !off) | on
}
