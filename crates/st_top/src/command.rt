//! Parses the words of a command line: one command, and for `soak` a seed and a number of cards.
//! docs/running.md has the commands. Only program.rt calls `read_words`. `clap`, a library with
//! contracts, assigns the words to arguments.
//!
//! Proved: the command is `command_of` in specs/Command.antt, or None if there is none (clause
//! `ok`; `plain`, `some` and `few` give cases of None). `NoMemory` is the only error. Not proved:
//! that `NoMemory` comes only if memory ran out.
//!
//! Pinned, by `command_of` and docs/running.md: the words; a word is plain if it is not empty and
//! does not begin with `-`; numbers have at most 20 digits. Pinned, by the law `MadeCardsInFigures`
//! (specs/Laws.antt) and docs/deck.md: MOST_MADE_CARDS. A new command needs a case of `Command`, of
//! `command_named` and of `output_of` (specs/Output.antt), a word in `command_named_by`, and its
//! function in program.rt. Free: the parser.
ghost use Rattle.std.specs.Prelude.{◌≡◌, ◌<◌, ◌≤◌, IfOk, MatchOption, None, Ok, false, true, length, map, option_map};
ghost use Rattle.std.specs.List.{list_all};
ghost use Rattle.std.specs.String.{string_bytes};
ghost use Rattle.clap.specs.Words.{app_of, kind_of};
ghost use Rattle.st_top.specs.Command.{command_named, command_of, command_with, number_between};
ghost use Rattle.st_top.specs.CommandLine.{is_plain as is_plain_of, three_words, command_by as command_by_of};

use clap::error::ErrorKind;
use clap::{Arg, Command as Parser, Error};
use st_bits::NoMemory;
use st_text::{Reading, read_number};
use std::alloc::{AllocError, Global};

/// The command that the words of a command line request.
#[derive(Clone, Copy, Debug, PartialEq, Eq)]
pub enum Command {
    /// Read a job, run it and write its report.
    Run,
    /// Read a job, assemble it and write its object text.
    Assemble,
    /// Read an object text, run it and write its report.
    Load,
    /// Read an object text and write a deck that assembles to it.
    Disassemble,
    /// Assemble a deck, run it with an empty reader on machines of one to eight levels, and write
    /// the number of ticks of each run.
    Sweep,
    /// Make the deck of a seed with 1 to 4,000 drawn cards, run it and write its report.
    Soak {
        /// The seed.
        number: u64,
        /// The number of drawn cards.
        cards: u32,
    },
}

// The most words of a command line.
const MOST_WORDS: usize = 3;

// The most digits of a number, as many as 2^64 - 1 has. `number_between` pins it.
const MOST_DIGITS: usize = 20;

/// The most drawn cards of a generated deck. The law `most` of specs/Laws.antt and docs/deck.md
/// have this number too.
pub const MOST_MADE_CARDS: u64 = 4_000;

// Whether a word can be an argument: it is not empty and does not begin with `-`.
fn is_plain(word: &str) -> bool
    ensures { result ≡ is_plain_of word.now }
{
    match word.as_bytes() {
        [] => false,
        [first, ..] => *first != b'-',
    }
}

// Whether each word can be an argument. The label of the loop serves only its proof.
fn are_plain(words: &[String]) -> bool
    ensures { result ≡ list_all is_plain_of (map string_bytes words.now) }
{
    let mut rest = words;
    'words: while let [word, after @ ..] = rest {
        if !is_plain(word.as_str()) {
            return false;
        }
        rest = after;
    }
    true
}

// A parser for three optional words.
fn three<'a>(alloc: Global) -> Result<Parser<'a>, AllocError>
    ensures { IfOk result (λ parser. app_of parser ≡ three_words) }
{
    Parser::new(alloc, "stretch")
        .no_binary_name(true)
        .arg(Arg::new(alloc, "command"))?
        .arg(Arg::new(alloc, "number"))?
        .arg(Arg::new(alloc, "cards"))
}

// The command that a single word names.
fn command_named_by(word: &str) -> Option<Command>
    ensures { result ≡ command_named word.now }
{
    match word {
        "run" => Some(Command::Run),
        "assemble" => Some(Command::Assemble),
        "load" => Some(Command::Load),
        "disassemble" => Some(Command::Disassemble),
        "sweep" => Some(Command::Sweep),
        _ => None,
    }
}

// The number that a word of 1 to 20 decimal digits spells, if it is from `least` to `most`.
#[tactic(auto, unfolding(crate::specs::Command::number_between))]
fn number_by(word: &str, least: u64, most: u64) -> Option<u64>
    ensures value { result ≡ number_between least most word.now }
    ensures few { MatchOption result (Unit {0}) (λ n. n ≤ most) }
{
    let digits = word.as_bytes();
    if MOST_DIGITS < digits.len() {
        return None;
    }
    match read_number(digits, most) {
        Reading::Good(number) if least <= number => Some(number),
        _ => None,
    }
}

// The command that a word, a seed and a number of cards give.
fn command_with_by(word: &str, number: &str, cards: &str) -> Option<Command>
    ensures { result ≡ command_with word.now number.now cards.now }
{
    if word != "soak" {
        return None;
    }
    let number = number_by(number, 0, u64::MAX)?;
    let cards = number_by(cards, 1, MOST_MADE_CARDS)?;
    Some(Command::Soak {
        number,
        cards: cards as u32,
    })
}

// The command that three optional arguments give.
fn command_by(command: Option<&str>, number: Option<&str>, cards: Option<&str>) -> Option<Command>
    ensures { result ≡ command_by_of (option_map (λ s. s.now) command.entry)
        (option_map (λ s. s.now) number.entry) (option_map (λ s. s.now) cards.entry) }
{
    match (number, cards) {
        (None, None) => command_named_by(command?),
        (Some(number), Some(cards)) => command_with_by(command?, number, cards),
        _ => None,
    }
}

// Whether memory ran out.
fn is_memory(error: &Error) -> bool
    ensures { kind_of error.now ≡ ErrorKind.OutOfMemory → result ≡ true }
{
    matches!(error.kind(), ErrorKind::OutOfMemory)
}

// The command that one to three plain words give.
fn read_arguments(alloc: Global, words: &[String]) -> Result<Option<Command>, NoMemory>
    requires some { 1 ≤ length words.now }
    requires few { length words.now ≤ 3 }
    requires plain { list_all is_plain_of (map string_bytes words.now) ≡ true }
    ensures { IfOk result (λ command. command ≡ command_of (map string_bytes words.now)) }
{
    let Ok(parser) = three(alloc) else {
        return Err(NoMemory);
    };
    match parser.try_get_matches_from(words) {
        Ok(matches) => Ok(command_by(
            matches.get_str("command"),
            matches.get_str("number"),
            matches.get_str("cards"),
        )),
        Err(error) if is_memory(&error) => Err(NoMemory),
        Err(_) => Ok(None),
    }
}

/// The command that the words give; `None` if they are invalid. The only error is `NoMemory`; no
/// clause says that memory ran out then. It does not occur if a word is empty or begins with `-`,
/// if there are no words, or if there are more than three.
pub fn read_words(alloc: Global, words: &[String]) -> Result<Option<Command>, NoMemory>
    ensures ok { IfOk result (λ command. command ≡ command_of (map string_bytes words.now)) }
    ensures plain { list_all is_plain_of (map string_bytes words.now) ≡ false → result ≡ Ok None }
    ensures some { length words.now ≡ 0 → result ≡ Ok None }
    ensures few { 3 < length words.now → result ≡ Ok None }
{
    if !are_plain(words) || words.is_empty() || MOST_WORDS < words.len() {
        return Ok(None);
    }
    read_arguments(alloc, words)
}
