//! Effective addresses: the address part of an instruction plus the value of its index word, as a
//! bit address of 24 bits. A half-word instruction has a half-word address of 19 bits, which counts
//! 32 bits each; a full word has a bit address. In a progressive form (p of 2 or more) the field
//! begins at the old value of index word I. Index word number 0 means none. fetching.rt (for EX)
//! and preparation.rt call `effective_address`. docs/index-words.md and docs/instructions.md have
//! the rules.
//!
//! Proved: the result is `effective` of specs/SpeculativeChanges.antt (`value`), and below 2^24
//! (`bound`).
//!
//! Pinned, by `effective`, docs/index-words.md, docs/instructions.md and vectors/index.txt: the
//! result. Free: the bodies. A new instruction format needs a case here and in `effective`; the
//! compiler names the match here.
ghost use Rattle.std.specs.Prelude.{◌≡◌, ◌<◌, ◌^◌};
ghost use Rattle.st_prep.specs.SpeculativeChanges.{index_operand as index_part_of, half_word_address as half_address_of, full_word_address as bit_address_of, field_address as field_address_of, effective as effective_of};
ghost use Rattle.st_prep.specs.Ranges.{HasFields};

use st_format::Instr;
use st_index::effective;

// Index word `i`, or zero if `i` is 0.
fn index_part(x: &[u64; 16], i: u8) -> u64
    requires { i < 16 }
    ensures { result ≡ index_part_of x.now i }
{
    if i == 0 { 0 } else { x[i as usize] }
}

// The effective address of a half-word instruction.
fn half_address(x: &[u64; 16], address: u32, i: u8) -> u32
    requires address { address < 2 ^ 19 }
    requires index { i < 16 }
    ensures value { result ≡ half_address_of x.now address i }
    ensures bound { result < 2 ^ 24 }
{
    effective(32 * address, index_part(x, i))
}

// The effective address of a full-word instruction.
fn bit_address(x: &[u64; 16], address: u32, i: u8) -> u32
    requires address { address < 2 ^ 24 }
    requires index { i < 16 }
    ensures value { result ≡ bit_address_of x.now address i }
    ensures bound { result < 2 ^ 24 }
{
    effective(address, index_part(x, i))
}

// The bit address of the field of an operation with the progressive form `p`.
#[inline(always)]
fn field_address(x: &[u64; 16], p: u8, address: u32, i: u8) -> u32
    requires address { address < 2 ^ 24 }
    requires index { i < 16 }
    ensures value { result ≡ field_address_of x.now p address i }
    ensures bound { result < 2 ^ 24 }
{
    if p < 2 {
        bit_address(x, address, i)
    } else {
        effective(0, x[i as usize])
    }
}

/// The effective address of an instruction.
#[inline(always)]
pub fn effective_address(instr: &Instr, x: &[u64; 16]) -> u32
    requires { HasFields instr.now }
    ensures value { result ≡ effective_of x.now instr.now }
    ensures bound { result < 2 ^ 24 }
{
    match *instr {
        Instr::Half { address, i, .. }
        | Instr::Branch { address, i, .. }
        | Instr::Floating { address, i, .. } => half_address(x, address, i),
        Instr::Vfl { p, address, i, .. } | Instr::Connect { p, address, i, .. } => {
            field_address(x, p, address, i)
        }
        Instr::Move { address, i, .. }
        | Instr::BitBranch { address, i, .. }
        | Instr::IndBranch { address, i, .. }
        | Instr::StoreCounter { address, i, .. }
        | Instr::Transfer { address, i, .. } => bit_address(x, address, i),
        Instr::Invalid { .. } => 0,
    }
}
