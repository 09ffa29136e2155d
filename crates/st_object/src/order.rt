//! The order of the lines in an object text: the position of each kind, whether it repeats, and
//! whether it is required. docs/object-text.md has this table. drafts.rt decides by `row` and
//! `kind_at` which line may come next. No other crate sees them.
//!
//! Proved: `row` is the table `row_of_kind` of specs/Order.antt, `kind_at` gives the kinds of
//! `order` there by position, and `kind_of` is `kind_of_line` there.
//!
//! Pinned, by `row_of_kind`, docs/object-text.md and vectors/objects.txt: the table; requests come
//! between words and FIN, in the order of `st_card`. Free: the form of the match. A new request is
//! a row of the table in `st_card`, and nothing here.

ghost use Rattle.std.specs.Prelude.{◌≡◌, ◌<◌, length, get_or};
ghost use Rattle.st_object.specs.declared.items.Kind.TheVariants as kinds;
ghost use Rattle.st_object.specs.Order as spec;

use crate::items::{Item, Kind};
use st_card::{is_required, keyword_of, place};

// The number of kinds of lines.
pub(crate) const KINDS: usize = 4 + st_card::ORDER.len();

// The kind of line at a position in an object text; the last kind at a position behind it.
pub(crate) fn kind_at(place: usize) -> Kind
    ensures { result ≡ get_or spec.order place kinds.Fin }
{
    match place {
        0 => Kind::Object,
        1 => Kind::Start,
        2 => Kind::Word,
        _ => match st_card::ORDER.get(place - 3) {
            Some(keyword) => Kind::Ask(*keyword),
            None => Kind::Fin,
        },
    }
}

// The position of a kind of line in an object text.
#[derive(Clone, Copy)]
pub(crate) struct KindRow {
    // The kind's position in the order of kinds.
    pub place: usize,
    // Whether the line may occur more than once.
    pub repeats: bool,
    // Whether the line is required.
    pub required: bool,
}

// Makes a row of the table of the kinds of lines.
fn kind_row(place: usize, repeats: bool, required: bool) -> KindRow
    ensures { result ≡ record { place = place; repeats = repeats; required = required } }
{
    KindRow {
        place,
        repeats,
        required,
    }
}

// A kind's position in the order, whether it may occur more than once, and whether it is required. A
// request that may be made once only is refused by its limits, in `st_card`.
pub(crate) fn row(kind: Kind) -> KindRow
    ensures row { result ≡ spec.row_of_kind kind }
    ensures within { result.place < length spec.order }
{
    match kind {
        Kind::Object => kind_row(0, false, true),
        Kind::Start => kind_row(1, false, true),
        Kind::Word => kind_row(2, true, false),
        Kind::Ask(keyword) => kind_row(3 + place(keyword), true, is_required(keyword)),
        Kind::Fin => kind_row(KINDS - 1, false, true),
    }
}

// The kind of a line.
pub(crate) fn kind_of(item: Item) -> Kind
    ensures { result ≡ spec.kind_of_line item }
{
    match item {
        Item::Object => Kind::Object,
        Item::Start(_) => Kind::Start,
        Item::Word(_, _) => Kind::Word,
        Item::Ask(control) => Kind::Ask(keyword_of(control)),
        Item::Fin => Kind::Fin,
    }
}
