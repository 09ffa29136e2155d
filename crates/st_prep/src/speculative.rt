//! Speculative changes: the change of one index word and of indicators that an instruction makes
//! when it is prepared, before its operands are read and before it is known to complete. `x` are
//! the sixteen index words, `e` is the effective address (a bit address), and `read` is the content
//! of the index-side word: the word of storage that the change takes, for example that of LX.
//! preparation.rt calls `side` and `change`; levels of `st_ring` keep the old word to undo the
//! change. docs/machine.md and docs/index-words.md have the rules.
//!
//! Proved: the results are `side` and `change` of specs/SpeculativeChanges.antt, case by case. Law:
//! `IndexSideWordsChangeIndexWordsAlone` (specs/Laws.antt).
//!
//! Pinned, by these definitions, docs/index-words.md and vectors/index.txt: the change of each
//! operation. Free: the bodies. A new operation on index words needs its arm here and in
//! specs/SpeculativeChanges.antt.
ghost use Rattle.std.specs.Prelude.{◌≡◌, ◌<◌, ◌^◌, slice_index};
ghost use Rattle.st_prep.specs.SpeculativeChanges.{refill_word as refill_word_of, half_side as half_side_of, progressive_side as progressive_side_of, side as side_of};
ghost use Rattle.st_prep.specs.SpeculativeChanges.{without_change, change_of_comparison as compared_of, change_of_index as changed_of, half_change as half_change_of, progressive_change as progressive_change_of, change as change_of};
ghost use Rattle.st_prep.specs.Ranges.{HasFields};

use crate::entries::IndexChange;
use st_bits::{
    HalfOp, Ind, count_of, part, refill_of, value_of, with_count, with_part, with_refill,
    with_value,
};
use st_format::Instr;
use st_index::{add_value, compare, count_down, index_result, progress, sum_values};

/// The changes before the operands are read.
#[derive(Clone, Copy, Debug, PartialEq, Eq)]
pub struct SpeculativeChange {
    /// The index word that changes, if there is one.
    pub index: Option<IndexChange>,
    /// The indicators that are turned on and off.
    pub ind: Ind,
}

/// The fields of a half-word instruction that determine its change of index word `j`.
#[derive(Clone, Copy, Debug, PartialEq, Eq)]
pub struct Half {
    /// The operation.
    pub op: HalfOp,
    /// The address part, a half-word address below 2^19; LVS takes a list of index words from it.
    pub address: u32,
    /// The number of the index word, 0 to 15.
    pub j: u8,
}

// The refill address of an index word, if its count has become zero.
fn refill_word(y: u64) -> Option<u32>
    ensures { result ≡ refill_word_of y }
{
    if count_of(y) == 0 {
        Some(refill_of(y))
    } else {
        None
    }
}

// The index-side word of a half-word instruction with the effective address `e`; `x` is index word
// J.
#[inline(always)]
fn half_side(op: HalfOp, x: u64, e: u32) -> Option<u32>
    requires { e < 2 ^ 24 }
    ensures { result ≡ half_side_of op x e }
{
    match op {
        HalfOp::Lx
        | HalfOp::Lv
        | HalfOp::Lc
        | HalfOp::Lr
        | HalfOp::VPlus
        | HalfOp::VPlusC
        | HalfOp::Kv
        | HalfOp::Kc => Some(e / 64),
        HalfOp::VPlusICR => refill_word(count_down(add_value(x, e as i32))),
        HalfOp::Cbr => refill_word(count_down(x)),
        HalfOp::R => Some(refill_of(x)),
        _ => None,
    }
}

// The index-side word of a progressive form; `x` is its index word.
#[inline(always)]
fn progressive_side(p: u8, x: u64, address: u32) -> Option<u32>
    requires form { p < 8 }
    requires address { address < 2 ^ 24 }
    ensures { result ≡ progressive_side_of p x address }
{
    if p < 2 {
        return None;
    }
    let change = progress(p, x, address);
    if change.refill {
        Some(refill_of(change.word))
    } else {
        None
    }
}

/// The index-side word of an instruction with the effective address `e`.
#[inline(always)]
pub fn side(instr: &Instr, x: &[u64; 16], e: u32) -> Option<u32>
    requires shape { HasFields instr.now }
    requires address { e < 2 ^ 24 }
    ensures { result ≡ side_of x.now instr.now e }
{
    match *instr {
        Instr::Half { op, j, .. } => half_side(op, x[j as usize], e),
        Instr::Vfl { p, address, i, .. } | Instr::Connect { p, address, i, .. } => {
            progressive_side(p, x[i as usize], address)
        }
        _ => None,
    }
}

/// No change of an index word or of an indicator.
fn no_change() -> SpeculativeChange
    ensures { result ≡ without_change }
{
    SpeculativeChange {
        index: None,
        ind: Ind { on: 0, off: 0 },
    }
}

// The indicators of a comparison of two numbers.
fn compared(a: i32, b: i32) -> SpeculativeChange
    ensures { result ≡ compared_of a b }
{
    SpeculativeChange {
        index: None,
        ind: compare(a, b),
    }
}

// Index word `number`, which was `kept`, becomes `y`, then the word of a refill if there is one.
// The indicators are those of `y`.
fn changed(number: u8, kept: u64, y: u64, refill: Option<u64>) -> SpeculativeChange
    ensures { result ≡ changed_of number kept y refill }
{
    SpeculativeChange {
        index: Some(IndexChange {
            number,
            kept,
            word: refill.unwrap_or(y),
        }),
        ind: index_result(y),
    }
}

// The change of index word J by a half-word instruction with the effective address `e` and the
// index-side word `read`.
#[inline(always)]
#[tactic(auto, unfolding(crate::specs::SpeculativeChanges::half_change))]
fn half_change(half: Half, words: &[u64; 16], e: u32, read: Option<u64>) -> SpeculativeChange
    requires address { half.address < 2 ^ 19 }
    requires number { half.j < 16 }
    requires effective { e < 2 ^ 24 }
    ensures { result
        ≡ half_change_of half.op words.now half.address half.j
        (slice_index words.now half.j) e read }
{
    let j = half.j;
    let x = words[j as usize];
    let word = read.unwrap_or(0);
    let w = e / 64;
    match half.op {
        HalfOp::Lx | HalfOp::R => changed(j, x, word, None),
        HalfOp::Lv => changed(j, x, with_part(x, 0, 25, part(word, 0, 25)), None),
        HalfOp::Lc => changed(j, x, with_count(x, count_of(word)), None),
        HalfOp::Lr => changed(j, x, with_refill(x, refill_of(word)), None),
        HalfOp::VPlus => changed(j, x, add_value(x, value_of(word)), None),
        HalfOp::VPlusC => changed(j, x, count_down(add_value(x, value_of(word))), None),
        HalfOp::Kv => compared(value_of(x), value_of(word)),
        HalfOp::Lvs => {
            let list = (half.address / 8) as u16;
            changed(j, x, with_value(x, sum_values(list, words)), None)
        }
        HalfOp::Lvi => changed(j, x, with_value(x, e as i32), None),
        HalfOp::Lci => changed(j, x, with_count(x, w), None),
        HalfOp::Lri => changed(j, x, with_refill(x, w), None),
        HalfOp::VPlusI => changed(j, x, add_value(x, e as i32), None),
        HalfOp::VMinusI => changed(j, x, add_value(x, -(e as i32)), None),
        HalfOp::VPlusIC => changed(j, x, count_down(add_value(x, e as i32)), None),
        HalfOp::VPlusICR => changed(j, x, count_down(add_value(x, e as i32)), read),
        HalfOp::Kvi => compared(value_of(x), e as i32),
        HalfOp::Kc => compared(count_of(x) as i32, count_of(word) as i32),
        HalfOp::Kci => compared(count_of(x) as i32, w as i32),
        HalfOp::Cb => changed(j, x, count_down(x), None),
        HalfOp::Cbr => changed(j, x, count_down(x), read),
        HalfOp::Sx | HalfOp::Sv | HalfOp::Sc | HalfOp::Sr | HalfOp::Sva | HalfOp::Ex => no_change(),
    }
}

// The change of index word `i`, which is `x`, by a progressive form with index-side word `read`.
#[inline(always)]
fn progressive_change(p: u8, i: u8, x: u64, address: u32, read: Option<u64>) -> SpeculativeChange
    requires form { p < 8 }
    requires address { address < 2 ^ 24 }
    ensures { result ≡ progressive_change_of p i x address read }
{
    if p < 2 {
        no_change()
    } else {
        changed(i, x, progress(p, x, address).word, read)
    }
}

/// The speculative change by an instruction with the effective address `e` and the index-side word
/// `read`.
#[inline(always)]
pub fn change(instr: &Instr, x: &[u64; 16], e: u32, read: Option<u64>) -> SpeculativeChange
    requires shape { HasFields instr.now }
    requires address { e < 2 ^ 24 }
    ensures { result ≡ change_of x.now instr.now e read }
{
    match *instr {
        Instr::Half { op, address, j, .. } => { half_change(Half { op, address, j }, x, e, read) }
        Instr::Vfl { p, address, i, .. } | Instr::Connect { p, address, i, .. } => {
            progressive_change(p, i, x[i as usize], address, read)
        }
        _ => no_change(),
    }
}
