//! The lines before the report of a job: for a generated deck its seed and number of cards, then,
//! if `/LIST` requests it, a line for each card and each symbol. docs/report.md has the columns
//! ("The listing"), docs/deck.md generated decks.
//!
//! Only execution.rt calls `write_front`. Cards are numbered from 1, locations are bit addresses;
//! `st_report` formats the lines. The only error is a failed write.
//!
//! Proved: the lines are `front_lines` of specs/Listing.antt, all on Ok, the first ones otherwise
//! (`WritesLines` of `st_io`). `HasCards`, a `requires`, asks for one row of the listing for each
//! card of the job, each card with its text in the job and without a fault.
//!
//! Pinned, by `front_lines` and docs/report.md: the order. Free: the loops, if proofs/listing
//! follows.
ghost use Rattle.std.specs.Prelude.{◌≡◌, [], ◌∷◌, All, None, length};
ghost use Rattle.st_asm.specs.Assembly.{assembly_parts};
ghost use Rattle.st_asm.specs.Sound.{IsRow, IsSymbol};
ghost use Rattle.st_card.specs.Cards.{IsCardOf};
ghost use Rattle.st_io.specs.Lines.{WritesLines};
ghost use Rattle.st_top.specs.Listing.{HasCards, listing_row_line, rows_lines, symbols_lines, listing, made_lines, front_lines};

use crate::job::Job;
use st_asm::{Assembled, Listed, Symbol};
use st_card::Card;
use st_io::{Failed, Sink};
use st_report::{line_listed, line_soak, line_symbol};
use st_telling::put;

// Writes the line of a card, given its row.
fn write_row<K: Sink>(out: &mut K, job: &[u8], row: Listed, card: Card) -> Result<(), Failed>
    requires row { IsRow row }
    requires text { IsCardOf job.now card }
    requires good { card.fault ≡ None }
    ensures { WritesLines (K.output out.old) (K.output out.new)
        (listing_row_line job.now row card ∷ []) result }
{
    let text = card.text(job);
    put(
        out,
        &line_listed(row.card, row.location, row.bits, row.length, text),
    )
}

// Writes the lines of cards, given the row of each.
fn write_rows<K: Sink>(
    out: &mut K,
    job: &[u8],
    rows: &[Listed],
    cards: &[Card],
) -> Result<(), Failed>
    requires rows { All IsRow rows.now }
    requires texts { All (IsCardOf job.now) cards.now }
    requires good { All (λ card. card.fault ≡ None) cards.now }
    requires same { length rows.now ≡ length cards.now }
    ensures { WritesLines (K.output out.old) (K.output out.new)
        (rows_lines job.now rows.now cards.now) result }
{
    for k in 0..rows.len() {
        write_row(out, job, rows[k], cards[k])?;
    }
    Ok(())
}

// Writes the lines of symbols.
fn write_symbols<K: Sink>(out: &mut K, symbols: &[Symbol]) -> Result<(), Failed>
    requires { All IsSymbol symbols.now }
    ensures { WritesLines (K.output out.old) (K.output out.new) (symbols_lines symbols.now) result }
{
    for k in 0..symbols.len() {
        put(out, &line_symbol(symbols[k].name, symbols[k].value))?;
    }
    Ok(())
}

// Writes the line of a generated deck, its seed and its number of cards, if the job is one.
fn write_made<K: Sink>(out: &mut K, made: Option<(u64, u32)>) -> Result<(), Failed>
    ensures { WritesLines (K.output out.old) (K.output out.new) (made_lines made) result }
{
    match made {
        Some((number, cards)) => put(out, &line_soak(number, cards)),
        None => Ok(()),
    }
}

/// Writes the lines before the report of an assembled job. The only error is a failed write.
pub fn write_front<K: Sink>(out: &mut K, job: &Job, program: &Assembled) -> Result<(), Failed>
    requires cards { HasCards job.now.text.now program.now.listing.items job.now.cards.now }
    requires symbols { All IsSymbol program.now.symbols.items }
    ensures { WritesLines (K.output out.old) (K.output out.new)
        (front_lines job.now.made job.now.text.now (assembly_parts program.now)) result }
{
    write_made(out, job.made)?;
    write_listing(out, job, program)
}

// Writes the listing of an assembled job, if it is requested.
fn write_listing<K: Sink>(out: &mut K, job: &Job, program: &Assembled) -> Result<(), Failed>
    requires cards { HasCards job.now.text.now program.now.listing.items job.now.cards.now }
    requires symbols { All IsSymbol program.now.symbols.items }
    ensures { WritesLines (K.output out.old) (K.output out.new)
        (listing job.now.text.now (assembly_parts program.now)) result }
{
    if !program.controls.is_listed() {
        return Ok(());
    }
    write_rows(out, job.text, program.listing.as_slice(), job.cards)?;
    write_symbols(out, program.symbols.as_slice())
}
