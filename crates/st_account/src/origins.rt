//! The cards that the half-words of a program come from: a table with the number of the first card
//! whose bits begin in each half-word, made from the listing. docs/ledger.md has the line `LAID`.
//!
//! program.rt calls `first_cards`, the only call from outside, before the run; `st_lines` reads the
//! table. Locations in a listing are bit addresses, indexes half-word addresses; 0 means no card.
//! The only error is a failed allocation.
//!
//! Proved: entry h is `first_card` of specs/FirstCards.antt (clause of `first_cards`). The law
//! `RowsComeFromTheCards` (specs/CardLaws.antt of `st_causes`) says that each row comes from a card
//! of the job or from none. Pinned: that the first of several cards counts, by this definition,
//! docs/ledger.md and vectors/ledger/lines.txt. Free: the length of the table, if it covers the
//! last half-word of a card; the bodies, if proofs/origins follows.
ghost use Rattle.std.specs.Prelude.{◌≡◌, ℕ, ◌<◌, ◌≤◌, ◌^◌, ◌∷◌, List, length, slice_index, All, IfOk, IfSome};
ghost use Rattle.std.specs.Option.{option_or};
ghost use Rattle.st_asm.specs.declared.valuing.Listed.{Listed as ListedOf};
ghost use Rattle.st_lines.specs.Origins.{card_by};
ghost use Rattle.st_account.specs.FirstCards.{beginning as beginning_of, first_card};

use st_asm::Listed;
use st_bits::NoMemory;
use std::alloc::Global;

// The address of the half-word in which the bits of a card begin, if it assembles to any.
fn beginning(row: &Listed) -> Option<u32>
    ensures value { result ≡ beginning_of row.now }
    ensures inside { IfSome result (λ h. h < 2 ^ 27) }
{
    if row.length == 0 {
        return None;
    }
    match row.location {
        Some(a) => Some(a / 32),
        None => None,
    }
}

// The least number that is at least `n` and greater than the address of the half-word in which the
// bits of a card begin.
fn reach(n: u32, row: &Listed) -> u32
    ensures least { n ≤ result }
    ensures within { IfSome (beginning_of row.now) (λ h. h < result) }
{
    match beginning(row) {
        Some(h) => n.max(h + 1),
        None => n,
    }
}

// The number of half-words up to and including the last one in which the bits of a card begin.
fn extent(rows: &[Listed]) -> u32
    ensures { All (λ row. IfSome (beginning_of row) (λ h. h < result)) rows.now }
{
    let mut n = 0;
    for row in rows {
        n = reach(n, row);
    }
    n
}

// Enters a card at the half-word in which its bits begin, if it assembles to any, unless an earlier
// card is entered there.
fn enter_row(cards: &mut Vec<u32>, row: &Listed)
    requires within { IfSome (beginning_of row.now) (λ h. h < length cards.old.items) }
    requires number { 1 ≤ row.now.card }
    ensures size { length cards.new.items ≡ length cards.old.items }
    ensures cards { (h : ℕ) (rows : List ListedOf) →
        option_or (card_by (slice_index cards.new.items h)) (first_card rows h)
        ≡ option_or (card_by (slice_index cards.old.items h)) (first_card (row.now ∷ rows) h) }
{
    if let Some(h) = beginning(row) {
        if cards[h as usize] == 0 {
            cards[h as usize] = row.card;
        }
    }
}

/// For each half-word address the number of the first card whose bits begin there, or 0, up to the
/// last such half-word; `rows` are the rows of a listing.
pub(crate) fn first_cards(alloc: Global, rows: &[Listed]) -> Result<Vec<u32>, NoMemory>
    requires { All (λ row. 1 ≤ row.card) rows.now }
    ensures { IfOk result (λ cards. (h : ℕ) → card_by (slice_index cards.items h)
        ≡ first_card rows.now h) }
{
    let Ok(mut cards) = vec![in alloc; 0u32; extent(rows) as usize] else {
        return Err(NoMemory);
    };
    for row in rows {
        enter_row(&mut cards, row);
    }
    Ok(cards)
}
