//! The program: it reads a job and writes its ledger, or, with the words `sums` or `rows`, a part
//! of it. docs/ledger.md has the words and the answers.
//!
//! `crates/ledger` calls `ledger`. The words are the number of levels (1 to 8; 4 if it is missing),
//! and `sums`, or `rows` with the numbers of two rows; the job is read whole, split, assembled and
//! run. Refusals are one line, as in `stretch`.
//!
//! Proved: for each status the bytes that were read and the lines that were written (`IsAnswer` in
//! specs/Answers.antt), and when `Usage` comes, by the clauses of `ledger`. All memory is allocated
//! before the first line. Pinned: the words and statuses, by `IsAnswer`, docs/ledger.md and
//! vectors/ledger. Free: the bodies, if proofs/program follows. A new word is a case of `Part`; the
//! compiler names the function here that then needs one, and specs/Answers.antt says what the word
//! means (`asked_by`, `lines_of_part`).
ghost use Rattle.std.specs.Prelude.{◌≡◌, ◌↔◌, ◌+◌, ◌≤◌, ◌<◌, ◌^◌, ◌∷◌, [], List, ℕ, IfOk, IfSome, None, Ok, All, map, length};
ghost use Rattle.std.specs.String.{string_bytes};
ghost use Rattle.st_bits.specs.declared.limits.TheConstants.{MOST_INSTRUCTIONS};
ghost use Rattle.st_bits.specs.Storage.{words_of_storage};
ghost use Rattle.st_asm.specs.Assembly.{assembly_parts};
ghost use Rattle.st_asm.specs.Sound.{IsAssemblySound};
ghost use Rattle.st_card.specs.Cards.{cards_of};
ghost use Rattle.st_card.specs.Faults.{name_of};
ghost use Rattle.st_exch.specs.Reader.{reader_cards};
ghost use Rattle.st_io.specs.Lines.{WritesLines};
ghost use Rattle.st_io.specs.Output.{OutputState};
ghost use Rattle.st_lines.specs.Origins.{origin_at};
ghost use Rattle.st_report.specs.Line.{fault_line};
ghost use Rattle.st_run.specs.Reached.{IsCard};
ghost use Rattle.st_state.specs.Machine.{opening_state};
ghost use Rattle.st_account.specs.FirstCards.{origin_of};
ghost use Rattle.st_account.specs.Answers.{levels_by, levels_of_word as levels_of, is_sums as is_sums_of, is_rows as is_rows_of, row_of_word as row_of, rows_between, asked_of as asked_with, asked_by, lines_of_part, lines_by, ledger_lines_of, status_of, Writes, Did, IsAnswer};
ghost use Rattle.st_account.specs.LedgerSums.{ledger_sums};
ghost use Rattle.st_account.specs.Running.{CanRun};
ghost use Rattle.st_account.specs.Settling.{at_hand};

use crate::job::Job;
use crate::origins::first_cards;
use crate::running::{Ready, write_ledger, write_ledger_rows, write_ledger_sums};
use crate::status::Status;
use st_asm::{AsmError, Assembled, assemble_cards};
use st_bits::NoMemory;
use st_bits::limits::{LONGEST_JOB, MOST_INSTRUCTIONS};
use st_card::{Controls, Fault, split};
use st_io::{Failed, ReadError, Sink, Source, read_all};
use st_lines::Origins;
use st_report::{line_fault, put};
use st_run::{delays_asked, reader_of_job};
use st_state::State;
use st_tally::Tables;
use st_text::number_up_to;
use std::alloc::Global;

// The default number of levels.
const LEVELS: u8 = 4;

// The number of levels of a digit, 1 to 8; `None` for any other byte.
fn levels_by(c: u8) -> Option<u8>
    ensures value { result ≡ levels_by c }
    ensures range { IfSome result (λ n. (1 ≤ n) × (n ≤ 8)) }
{
    if b'1' <= c && c <= b'8' {
        Some(c - b'0')
    } else {
        None
    }
}

/// A part of a ledger.
#[derive(Clone, Copy, Debug, PartialEq, Eq)]
pub(crate) enum Part {
    /// All of it.
    All,
    /// The totals alone.
    Sums,
    /// Its rows from one on, which comes after `skipped` rows, in a run of at most `most` rows.
    Rows { skipped: u32, most: u32 },
}

/// What the words of the command line request.
#[derive(Clone, Copy, Debug, PartialEq, Eq)]
pub(crate) struct Asked {
    /// The number of levels of the machine, 1 to 8.
    pub levels: u8,
    /// The part of the ledger that is written.
    pub part: Part,
}

// The number of levels that a word requests; `None` if it requests none.
fn levels_of_word(word: &[u8]) -> Option<u8>
    ensures value { result ≡ levels_of word.now }
    ensures range { IfSome result (λ n. (1 ≤ n) × (n ≤ 8)) }
{
    match word {
        [c] => levels_by(*c),
        _ => None,
    }
}

// Whether a word is `sums`.
fn is_sums(word: &[u8]) -> bool
    ensures { result ≡ is_sums_of word.now }
{
    let sums: &[u8] = b"sums";
    word == sums
}

// Whether a word is `rows`.
fn is_rows(word: &[u8]) -> bool
    ensures { result ≡ is_rows_of word.now }
{
    let rows: &[u8] = b"rows";
    word == rows
}

// The number of a row that a word spells without a leading zero; `None` if it spells none.
fn row_of_word(word: &[u8]) -> Option<u64>
    ensures value { result ≡ row_of word.now }
    ensures within { IfSome result (λ n. n ≤ MOST_INSTRUCTIONS) }
{
    match word {
        [] => None,
        [c, ..] => {
            if *c == b'0' {
                None
            } else {
                number_up_to(word, MOST_INSTRUCTIONS)
            }
        }
    }
}

// The part of a ledger from one row on, in a run that ends with another row; `None` if that comes
// before the first one.
fn rows_between(from: Option<u64>, to: Option<u64>) -> Option<Part>
    requires from { IfSome from (λ n. n ≤ MOST_INSTRUCTIONS) }
    requires to { IfSome to (λ n. n ≤ MOST_INSTRUCTIONS) }
    ensures { result ≡ rows_between from to }
{
    match (from, to) {
        (Some(from), Some(to)) => {
            if from <= to {
                Some(Part::Rows {
                    skipped: from.saturating_sub(1) as u32,
                    most: to as u32,
                })
            } else {
                None
            }
        }
        _ => None,
    }
}

// The part of a ledger that two words request after `rows`.
fn part_of_rows(from: &[u8], to: &[u8]) -> Option<Part>
    ensures { result ≡ rows_between (row_of from.now) (row_of to.now) }
{
    rows_between(row_of_word(from), row_of_word(to))
}

// A part of the ledger on a machine with so many levels.
fn asked_of(part: Option<Part>, levels: Option<u8>) -> Option<Asked>
    requires range { IfSome levels (λ n. (1 ≤ n) × (n ≤ 8)) }
    ensures value { result ≡ asked_with part levels }
    ensures range { IfSome result (λ a. (1 ≤ a.levels) × (a.levels ≤ 8)) }
{
    match (part, levels) {
        (Some(part), Some(levels)) => Some(Asked { levels, part }),
        _ => None,
    }
}

// What the words of the command line request; `None` if they are invalid.
fn read_words(words: &[String]) -> Option<Asked>
    ensures value { result ≡ asked_by (map string_bytes words.now) }
    ensures range { IfSome result (λ a. (1 ≤ a.levels) × (a.levels ≤ 8)) }
{
    match words {
        [] => asked_of(Some(Part::All), Some(LEVELS)),
        [word] => {
            if is_sums(word.as_bytes()) {
                asked_of(Some(Part::Sums), Some(LEVELS))
            } else {
                asked_of(Some(Part::All), levels_of_word(word.as_bytes()))
            }
        }
        [first, second] => {
            if is_sums(second.as_bytes()) {
                asked_of(Some(Part::Sums), levels_of_word(first.as_bytes()))
            } else {
                None
            }
        }
        [first, second, third] => {
            if is_rows(first.as_bytes()) {
                asked_of(
                    part_of_rows(second.as_bytes(), third.as_bytes()),
                    Some(LEVELS),
                )
            } else {
                None
            }
        }
        [first, second, third, fourth] => {
            if is_rows(second.as_bytes()) {
                asked_of(
                    part_of_rows(third.as_bytes(), fourth.as_bytes()),
                    levels_of_word(first.as_bytes()),
                )
            } else {
                None
            }
        }
        _ => None,
    }
}

// Refuses a job at a card: writes its line and returns the status.
fn refuse<K: Sink>(out: &mut K, card: u32, fault: Fault) -> Status
    ensures { Writes result (K.output out.old) (K.output out.new)
        (fault_line card (name_of fault) ∷ []) Status.Refused }
{
    match put(out, &line_fault(card, &fault.name())) {
        Ok(()) => Status::Refused,
        Err(_) => Status::WriteFault,
    }
}

// Allocates as many words as storage has.
fn words(alloc: Global, image: &[u64]) -> Result<Vec<u64>, NoMemory>
    ensures { IfOk result (λ words. words.items ≡ image.now) }
{
    match Vec::from_slice(alloc, image) {
        Ok(words) => Ok(words),
        Err(_) => Err(NoMemory),
    }
}

// Allocates all memory of a run on a machine with `n` levels, and returns it with the requests.
fn prepare(
    alloc: Global,
    levels: u8,
    job: &Job<'_>,
    program: Assembled,
) -> Result<(Ready, Controls), NoMemory>
    requires sound { IsAssemblySound (length (cards_of job.now.text.now)) (assembly_parts program) }

    ensures state { IfOk result (λ r. r.0.state ≡ opening_state program.image.items
        program.start) }
    ensures words { IfOk result (λ r. length r.0.words.items ≡ words_of_storage) }
    ensures origins { IfOk result (λ r. origin_at r.0.origins
        ≡ origin_of (assembly_parts program)) }
    ensures reader { IfOk result (λ r. r.0.cards ≡ reader_cards job.now.text.now) }
    ensures cards { IfOk result (λ r. All IsCard r.0.cards) }
    ensures delays { IfOk result (λ r. r.0.delays.list ≡ program.controls.delays) }
    ensures levels { IfOk result (λ r. r.0.levels ≡ levels) }
    ensures asked { IfOk result (λ r. r.1 ≡ program.controls) }
{
    let Assembled {
        image,
        start,
        listing,
        controls,
        symbols: _,
    } = program;
    let state = State::new(alloc, image.as_slice(), start)?;
    let words = words(alloc, image.as_slice())?;
    let table = first_cards(alloc, listing.as_slice())?;
    let reader = reader_of_job(alloc, job.text, job.cards)?;
    let delays = delays_asked(alloc, &controls)?;
    let ready = Ready {
        state,
        words,
        origins: Origins {
            cards: table,
            image,
        },
        cards: reader,
        delays,
        levels,
    };
    Ok((ready, controls))
}

// The status after lines were written, or a write of them failed.
fn status_by(written: Result<(), Failed>) -> Status
    ensures { (before after : OutputState) (lines : List (List ℕ)) →
        WritesLines before after lines written → Writes result before after lines Status.Done }
{
    match written {
        Ok(()) => Status::Done,
        Err(_) => Status::WriteFault,
    }
}

// Writes the totals of a run that is ready, with tables for so many cards, or returns why it does
// not.
fn write_tallied<K: Sink>(
    alloc: Global,
    out: &mut K,
    cards: u32,
    ready: Ready,
    controls: &Controls,
) -> Status
    requires ready { CanRun ready controls.now controls.now.budget }
    requires delays { ready.delays.list ≡ controls.now.delays }

    ensures { Writes result (K.output out.old) (K.output out.new)
        (ledger_sums (origin_at ready.origins) ready.delays.list ready.levels
        controls.now.budget (cards + 1) (at_hand ready.state controls.now.signals ready.cards))
        Status.Done }
{
    let Ok(tables) = Tables::new(alloc, cards) else {
        return Status::NoMemory;
    };
    status_by(write_ledger_sums(out, ready, controls, tables))
}

// Writes a part of the ledger of a run that is ready, whose job has so many cards, or returns why
// it does not.
fn write_part<K: Sink>(
    alloc: Global,
    out: &mut K,
    part: Part,
    cards: u32,
    ready: Ready,
    controls: &Controls,
) -> Status
    requires ready { CanRun ready controls.now controls.now.budget }
    requires delays { ready.delays.list ≡ controls.now.delays }

    ensures { Writes result (K.output out.old) (K.output out.new)
        (lines_of_part part (origin_at ready.origins) ready.delays.list ready.levels
        controls.now.budget cards (at_hand ready.state controls.now.signals ready.cards))
        Status.Done }
{
    match part {
        Part::All => status_by(write_ledger(out, ready, controls)),
        Part::Sums => write_tallied(alloc, out, cards, ready, controls),
        Part::Rows { skipped, most } => {
            status_by(write_ledger_rows(out, ready, controls, most, skipped))
        }
    }
}

// Writes what is requested of the run of an assembled job, or returns why it does not.
fn run_program<K: Sink>(
    alloc: Global,
    asked: Asked,
    job: &Job<'_>,
    program: Assembled,
    out: &mut K,
) -> Status
    requires levels { (1 ≤ asked.levels) × (asked.levels ≤ 8) }
    requires sound { IsAssemblySound (length (cards_of job.now.text.now)) (assembly_parts program) }
    ensures { Writes result (K.output out.old) (K.output out.new)
        (lines_by asked job.now.text.now (Ok (assembly_parts program))) Status.Done }
{
    let Ok((ready, controls)) = prepare(alloc, asked.levels, job, program) else {
        return Status::NoMemory;
    };
    let cards = job.cards.len() as u32;
    write_part(alloc, out, asked.part, cards, ready, &controls)
}

// Writes what is requested of a job that has been read, or returns why it does not.
#[tactic(auto, unfolding(crate::specs::Answers::ledger_lines_of, crate::specs::Answers::status_of))]
fn run_job<K: Sink>(alloc: Global, asked: Asked, job: &[u8], out: &mut K) -> Status
    requires levels { (1 ≤ asked.levels) × (asked.levels ≤ 8) }
    requires short { length job.now < 2 ^ 32 }
    ensures { Writes result (K.output out.old) (K.output out.new) (ledger_lines_of asked job.now)
        (status_of job.now) }
{
    let Ok(cards) = split(alloc, job) else {
        return Status::NoMemory;
    };
    let job = Job {
        text: job,
        cards: cards.as_slice(),
    };
    match assemble_cards(alloc, job.text, job.cards) {
        Ok(program) => run_program(alloc, asked, &job, program, out),
        Err(AsmError::Refused { card, fault }) => refuse(out, card, fault),
        Err(AsmError::NoMemory) => Status::NoMemory,
    }
}

// Reads a job and writes what is requested of it, or returns why it does not.
fn run_asked<S: Source, K: Sink>(alloc: Global, asked: Asked, job: &mut S, out: &mut K) -> Status
    requires levels { (1 ≤ asked.levels) × (asked.levels ≤ 8) }
    ensures { Did asked result
        (S.input job.old) (S.input job.new) (K.output out.old) (K.output out.new) }
{
    match read_all(alloc, job, LONGEST_JOB) {
        Ok(text) => run_job(alloc, asked, text.as_slice(), out),
        Err(ReadError::TooLong) => Status::JobTooLong,
        Err(ReadError::Failed) => Status::ReadFault,
        Err(ReadError::NoMemory) => Status::NoMemory,
    }
}

/// Writes the ledger of a job of at most 2,000,000 bytes. `words` are the words of the command line
/// after the program's name: the number of levels, one digit from 1 to 8, or 4 without it, and
/// then, for a part of the ledger, `sums`, or `rows` with the numbers of two rows. Each line is
/// written with a call of its own, and all memory is allocated before the first one.
/// `docs/ledger.md` has the rules.
pub fn ledger<S: Source, K: Sink>(
    alloc: Global,
    words: &[String],
    job: &mut S,
    out: &mut K,
) -> Status
    // For each meaning of the words and each status: the bytes that were read, and exactly the
    // bytes that were written.
    ensures answer { IsAnswer (asked_by (map string_bytes words.now)) result
        (S.input job.old) (S.input job.new) (K.output out.old) (K.output out.new) }

    // The status is that of a bad command line if and only if the words are invalid.
    ensures usage { result ≡ Status.Usage ↔ asked_by (map string_bytes words.now) ≡ None }
{
    match read_words(words) {
        Some(asked) => run_asked(alloc, asked, job, out),
        None => Status::Usage,
    }
}
