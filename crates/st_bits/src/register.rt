//! The register words, which are the words 0 to 31 of storage: their addresses and their fixed
//! bits. docs/machine.md has the rules. `st_state` calls `fix_register` at each write to a
//! register; the crates of the machine and `st_expr` use the addresses. Reads need no call: a
//! register holds only what such a write has left.
//!
//! Proved: the result of `fix_register` is `register_word` of specs/Registers.antt, which defines
//! which bits keep what is written and which are fixed. Pinned: the addresses, by the law
//! `RegistersInFigures` in specs/Laws.antt of `st_laws`, and the fixed bits, by `register_word`,
//! docs/machine.md, vectors/moves.txt and vectors/interrupts.txt. Free: the body of `fix_register`.
ghost use Rattle.std.specs.Prelude.{◌≡◌, ◌<◌};
ghost use Rattle.st_bits.specs.Registers.{register_word};

use crate::parts::kept;

/// The address of the register that always reads zero.
pub const ZERO: u32 = 0;
/// The address of the register with the interruption address.
pub const INTERRUPT_ADDRESS: u32 = 2;
/// The address of the register with the upper bound, the lower bound and the boundary control.
pub const BOUNDS: u32 = 3;
/// The address of the register with the left zeros count and the all ones count.
pub const COUNTS: u32 = 7;
/// The address of the left half of the accumulator.
pub const LEFT_HALF: u32 = 8;
/// The address of the right half of the accumulator.
pub const RIGHT_HALF: u32 = 9;
/// The address of the sign byte of the accumulator.
pub const SIGN_BYTE: u32 = 10;
/// The address of the indicator register.
pub const INDICATORS: u32 = 11;
/// The address of the mask register.
pub const MASK: u32 = 12;
/// The address of the remainder register.
pub const REMAINDER: u32 = 13;
/// The address of the factor register.
pub const FACTOR: u32 = 14;
/// The address of the transit register.
pub const TRANSIT: u32 = 15;
/// The address of the first index word.
pub const FIRST_INDEX_WORD: u32 = 16;
/// The address of the first word that is not a register.
pub const FIRST_STORAGE_WORD: u32 = 32;

// The bits of the mask register that are always one, 0 to 19; a figure of `register_word`.
const ALWAYS_MASKED: u64 = 0xFFFF_F000_0000_0000;

/// The contents of register word `w`, 0 to 31, after `value` is written to it.
#[tactic(auto, unfolding(crate::specs::Registers::register_word))]
pub fn fix_register(w: u8, value: u64) -> u64
    requires { w < 32 }
    ensures { result ≡ register_word w value }
{
    match u32::from(w) {
        ZERO | 1 | 4 | 5 | 6 => 0,
        INTERRUPT_ADDRESS => kept(value, 0, 18),
        BOUNDS => kept(value, 0, 18) + kept(value, 32, 18) + kept(value, 57, 1),
        COUNTS => kept(value, 17, 7) + kept(value, 44, 7),
        SIGN_BYTE => kept(value, 0, 8),
        MASK => ALWAYS_MASKED + kept(value, 20, 28),
        _ => value,
    }
}
