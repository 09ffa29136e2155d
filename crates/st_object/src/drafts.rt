//! The program that the lines of an object text have described so far, and which line may come
//! next. docs/object-text.md has the order of lines. reading.rt adds each line by `add`, and takes
//! the finished draft; no other module makes drafts.
//!
//! Proved: by `Settles` (specs/Answers.antt) the new draft is exactly `with_item` of
//! specs/Draft.antt, or the line is refused, or memory ran out. By the law `LinesAreKept`
//! (specs/Laws.antt) a line that may come next is added after those already read.
//!
//! Pinned, by `with_item`, docs/object-text.md and vectors/objects.txt: which line may come next,
//! and the limits of a start (a half-word address below 2^19) and of a word (not zero, above the
//! registers, in rising order). Free: that words are kept from word 0 on with zeros between, if the
//! view of `Draft` stays; the bodies, if proofs/drafts follows `none_stands` and `are_met`. A line
//! that is no request needs a case of `stands` and `put`.

ghost use Rattle.std.specs.Prelude.{◌≡◌, ◌≤◌, ◌-◌, ◌++◌, [], ◌∷◌, length, vec_len, replicate, take, drop, true, Some, OnOk};
ghost use Rattle.st_object.specs.Draft as spec;
ghost use Rattle.st_object.specs.Order.{order, is_met, are_met, none_stands};
ghost use Rattle.st_object.specs.Answers.{Settles, Appends};

use crate::items::{Item, Kind};
use crate::order::{KINDS, KindRow, kind_at, kind_of, row};
use st_bits::WORDS;
use st_bits::register::FIRST_STORAGE_WORD;
use st_card::{Addition, Controls};
use std::alloc::{AllocError, Global};
use std::marker::Model;

// The number of half-words at which a program may start, 2^19: one more than the greatest start.
const STARTS: u64 = 1 << 19;

// The contents of the lines read so far.
#[derive(Drop)]
pub(crate) struct Draft {
    // Whether the first line has been read.
    pub(crate) begun: bool,
    // The start, a half-word address.
    pub(crate) start: Option<u32>,
    // The words from word 0 up to the last that has been read.
    pub(crate) words: Vec<u64>,
    // The requests.
    pub(crate) controls: Controls,
    // Whether the last line has been read.
    pub(crate) ended: bool,
}

impl Model for Draft {
    ghost use Rattle.st_object.specs.Draft.{Draft};

    // Contracts see all fields, the words as a list.
    ghost Value = { Draft };

    ghost view = { λ d. record {
      begun = d.begun;
      start = d.start;
      words = d.words.items;
      asked = d.controls;
      ended = d.ended;
    } };
}

// The kinds of lines that have been read.
impl Draft {
    // Whether a line of a kind has been read.
    fn stands(&self, kind: Kind) -> bool
        ensures { result ≡ spec.has_line self.now kind }
    {
        match kind {
            Kind::Object => self.begun,
            Kind::Start => self.start.is_some(),
            Kind::Word => !self.words.is_empty(),
            Kind::Ask(keyword) => self.controls.count(keyword) != 0,
            Kind::Fin => self.ended,
        }
    }

    // Whether a line of a kind has been read, if it is required.
    fn is_met(&self, kind: Kind) -> bool
        ensures { result ≡ is_met (spec.has_line self.now) kind }
    {
        let needed = row(kind).required;
        !needed || self.stands(kind)
    }

    // Whether every required line of the kinds before a position has been read.
    fn are_met(&self, end: usize) -> bool
        requires { end ≤ length order }
        ensures { result ≡ are_met (spec.has_line self.now) (take end order) }
    {
        // Proofs name the loops by their labels.
        'kinds: for place in 0..end {
            if !self.is_met(kind_at(place)) {
                return false;
            }
        }
        true
    }

    // Whether no line of the kinds from a position on has been read.
    fn none_stands(&self, start: usize) -> bool
        ensures { result ≡ none_stands (spec.has_line self.now) (drop start order) }
    {
        'kinds: for place in start..KINDS {
            if self.stands(kind_at(place)) {
                return false;
            }
        }
        true
    }

    // Whether every required line has been read.
    pub(crate) fn is_whole(&self) -> bool
        ensures { result ≡ spec.is_whole self.now }
    {
        self.are_met(KINDS)
    }

    // Whether a line of a kind may come next.
    fn has_place(&self, kind: Kind) -> bool
        ensures { result ≡ spec.has_place self.now kind }
    {
        let KindRow { place, repeats, .. } = row(kind);
        self.are_met(place) && (repeats || !self.stands(kind)) && self.none_stands(place + 1)
    }
}

impl Draft {
    // The draft before the first line.
    pub(crate) fn new(alloc: Global) -> Draft
        ensures { result ≡ spec.draft_at_start }
    {
        Draft {
            begun: false,
            start: None,
            words: Vec::new(alloc),
            controls: Controls::new(alloc),
            ended: false,
        }
    }

    // Adds the contents of a line, if that line may come next.
    pub(crate) fn add(&mut self, item: Item) -> Addition
        ensures { Settles self.new (spec.with_item self.old item) result }
    {
        if self.has_place(kind_of(item)) {
            self.put(item)
        } else {
            Addition::Refused
        }
    }

    // Adds the contents of a line without checking its order.
    pub(crate) fn put(&mut self, item: Item) -> Addition
        ensures { Settles self.new (spec.draft_with_value self.old item) result }
    {
        match item {
            Item::Object => {
                self.begun = true;
                Addition::Added
            }
            Item::Start(half) => self.put_start(half),
            Item::Word(address, word) => self.put_word(address, word),
            Item::Ask(control) => self.controls.add_control(control),
            Item::Fin => {
                self.ended = true;
                Addition::Added
            }
        }
    }

    // Adds the start, if it is a half-word address of the first 2^18 words.
    fn put_start(&mut self, half: u64) -> Addition
        ensures { Settles self.new (spec.with_start self.old half) result }
    {
        if half < STARTS {
            self.start = Some(half as u32);
            Addition::Added
        } else {
            Addition::Refused
        }
    }

    // Adds a word, if it is allowed at its address.
    fn put_word(&mut self, address: u64, word: u64) -> Addition
        ensures { Settles self.new (spec.draft_with_word self.old address word) result }
    {
        if may_hold(self.words.len() as u64, address, word) {
            push_word(&mut self.words, address as usize, word)
        } else {
            Addition::Refused
        }
    }
}

// Whether a word is not zero and its address is in storage, above the registers and at least
// `next`.
fn may_hold(next: u64, address: u64, word: u64) -> bool
    ensures { result ≡ spec.may_hold next address word }
{
    u64::from(FIRST_STORAGE_WORD) <= address
        && next <= address
        && address < u64::from(WORDS)
        && word != 0
}

// Appends zeros until the list has this length.
pub(crate) fn fill_up(words: &mut Vec<u64>, length: usize) -> Result<(), AllocError>
    requires { vec_len words.old ≤ length }
    ensures { let zeros = replicate (length - vec_len words.old) 0 in
        OnOk result (words.new.items ≡ words.old.items ++ zeros) }
{
    words.resize(length, 0)
}

// Appends zeros and then a word, so that the word is at its address.
fn push_word(words: &mut Vec<u64>, address: usize, word: u64) -> Addition
    requires { length words.old.items ≤ address }
    ensures { let zeros = replicate (address - length words.old.items) 0 in
        Appends words.old.items words.new.items (zeros ++ word ∷ []) result }
{
    if fill_up(words, address).is_err() || words.push(word).is_err() {
        Addition::NoMemory
    } else {
        Addition::Added
    }
}
