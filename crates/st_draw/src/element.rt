//! The elements of an SVG chart: box, bar (a box with a title), line, text, and the text of a card.
//! docs/chart.md describes the chart. drawing.rt and frame.rt draw by these calls only. Each text
//! is escaped here, by escape.rt, so no caller has to escape.
//!
//! Proved: the bytes of each element are `element_text` of specs/Element.antt, unless memory runs
//! out. That each element is closed is the law `ElementsAreClosed` (specs/Laws.antt).
//!
//! Pinned, by this definition, docs/chart.md and the files .svg of vectors/pictures: the bytes; a
//! card of more than CARD_LIMIT characters is cut to 39 and an ellipsis. A new kind of element
//! needs a case of `element_text`, one of `IsClosed` in specs/WellFormed.antt, and a function here.
//! Free: the bodies.
#![tactic(auto, unfolding( //
crate::specs::Element::box_title, //
crate::specs::Element::card_content, //
crate::specs::Element::content, //
crate::specs::Element::element_text, //
crate::specs::Element::shown_card, //
crate::specs::Element::title_end //
))]

ghost use Rattle.std.specs.Prelude.{◌≡◌, ◌++◌, IfOk};
ghost use Rattle.st_draw.specs.Element.{content, title_end, box_title, shown_card, card_content, element_text, Box, Bar, Line, Text, Card};

use crate::attributes::{Area, push_corner, push_ends, push_front, push_size};
use crate::escape::push_escaped;
use st_entries::CARD_LIMIT;
use std::alloc::AllocError;

/// The position of a text: the x of its left end, right end or middle, and the y of its base line.
#[derive(Clone, Copy)]
pub struct Point {
    /// The x, in units of the drawing.
    pub x: u128,
    /// The y, in units of the drawing, downwards.
    pub y: u128,
}

// The end tags of a title and of its box.
fn end_of_title() -> &'static [u8]
    ensures { result.now ≡ title_end }
{
    b"</title></rect>\n"
}

// Appends a box's title, which a viewer shows under the pointer, and the end of the box.
fn push_title(out: &mut Vec<u8>, text: &[u8]) -> Result<(), AllocError>
    ensures { IfOk result (λ _. out.new.items ≡ out.old.items ++ box_title text.now) }
{
    out.extend_from_slice(b"><title>")?;
    push_escaped(out, text)?;
    out.extend_from_slice(end_of_title())
}

// Appends the shown part of a card's text: a text that is too long ends in an ellipsis.
fn push_shown_card(out: &mut Vec<u8>, text: &[u8]) -> Result<(), AllocError>
    ensures { IfOk result (λ _. out.new.items ≡ out.old.items ++ shown_card text.now) }
{
    if text.len() <= CARD_LIMIT {
        return push_escaped(out, text);
    }
    push_escaped(out, st_text::front(text, 39))?;
    out.extend_from_slice("…".as_bytes())
}

/// Appends a box.
pub fn push_box(out: &mut Vec<u8>, class: &[u8], area: Area) -> Result<(), AllocError>
    ensures { IfOk result (λ _. out.new.items ≡ out.old.items
        ++ element_text (Box class.now area.x area.y area.across area.down)) }
{
    push_front(out, b"<rect", class)?;
    push_corner(out, area.x, area.y)?;
    push_size(out, area.across, area.down)?;
    out.extend_from_slice(b"/>\n")
}

/// Appends a box with a title, which a viewer shows under the pointer.
pub fn push_bar(out: &mut Vec<u8>, class: &[u8], area: Area, title: &[u8]) -> Result<(), AllocError>
    ensures { IfOk result (λ _. out.new.items ≡ out.old.items
        ++ element_text (Bar class.now area.x area.y area.across area.down title.now)) }
{
    push_front(out, b"<rect", class)?;
    push_corner(out, area.x, area.y)?;
    push_size(out, area.across, area.down)?;
    push_title(out, title)
}

/// Appends a line.
pub fn push_line(out: &mut Vec<u8>, class: &[u8], area: Area) -> Result<(), AllocError>
    ensures { IfOk result (λ _. out.new.items ≡ out.old.items
        ++ element_text (Line class.now area.x area.y area.across area.down)) }
{
    push_front(out, b"<line", class)?;
    push_ends(out, area)?;
    out.extend_from_slice(b"/>\n")
}

/// Appends a text; its class determines whether its left end, right end or middle is at x.
pub fn push_text(
    out: &mut Vec<u8>,
    class: &[u8],
    spot: Point,
    text: &[u8],
) -> Result<(), AllocError>
    ensures { IfOk result (λ _. out.new.items ≡ out.old.items
        ++ element_text (Text class.now spot.x spot.y text.now)) }
{
    push_front(out, b"<text", class)?;
    push_corner(out, spot.x, spot.y)?;
    out.extend_from_slice(b">")?;
    push_escaped(out, text)?;
    out.extend_from_slice(b"</text>\n")
}

/// Appends the text of a card.
pub fn push_card(out: &mut Vec<u8>, spot: Point, text: &[u8]) -> Result<(), AllocError>
    ensures { IfOk result (λ _. out.new.items ≡ out.old.items
        ++ element_text (Card spot.x spot.y text.now)) }
{
    push_front(out, b"<text", b"c")?;
    push_corner(out, spot.x, spot.y)?;
    out.extend_from_slice(b">")?;
    push_shown_card(out, text)?;
    out.extend_from_slice(b"</text>\n")
}
