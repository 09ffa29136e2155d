//! The attributes of an SVG element: its class, its position and its size, in units of the drawing,
//! which is 640 wide. docs/chart.md describes the chart. element.rt composes elements of these
//! attributes; drawing.rt and frame.rt pass positions as an `Area`.
//!
//! Proved: each call appends exactly the text of a definition in specs/Element.antt (`attribute`,
//! `element_front`, `corner`, `size`, `ends`), or memory runs out.
//!
//! Pinned, by these definitions, the standard SVG and the files .svg of vectors/pictures: names and
//! order of the attributes. Free: the bodies. The calls and `Area` are private to this crate.
ghost use Rattle.std.specs.Prelude.{◌≡◌, ◌++◌, IfOk};
ghost use Rattle.st_draw.specs.Element.{attribute, element_front, corner, size, ends};

use st_entries::push_decimal;
use std::alloc::AllocError;

/// The position and size of an element, or the ends of a line. All numbers are in units of the
/// drawing.
#[derive(Clone, Copy)]
pub struct Area {
    /// The left edge, or the x of a line's first end.
    pub x: u128,
    /// The upper edge, or the y of a line's first end.
    pub y: u128,
    /// The width, or the x of a line's second end.
    pub across: u128,
    /// The height, or the y of a line's second end.
    pub down: u128,
}

// Appends a number as an attribute with this name.
fn push_attribute(out: &mut Vec<u8>, name: &[u8], n: u128) -> Result<(), AllocError>
    ensures { IfOk result (λ _. out.new.items ≡ out.old.items ++ attribute name.now n) }
{
    out.extend_from_slice(name)?;
    out.extend_from_slice(b"=\"")?;
    push_decimal(out, n)?;
    out.extend_from_slice(b"\"")
}

/// Appends the beginning of an element, with its class.
pub fn push_front(out: &mut Vec<u8>, name: &[u8], class: &[u8]) -> Result<(), AllocError>
    ensures { IfOk result (λ _. out.new.items ≡ out.old.items ++ element_front name.now class.now) }
{
    out.extend_from_slice(name)?;
    out.extend_from_slice(b" class=\"")?;
    out.extend_from_slice(class)?;
    out.extend_from_slice(b"\"")
}

/// Appends the position of an element.
pub fn push_corner(out: &mut Vec<u8>, x: u128, y: u128) -> Result<(), AllocError>
    ensures { IfOk result (λ _. out.new.items ≡ out.old.items ++ corner x y) }
{
    push_attribute(out, b" x", x)?;
    push_attribute(out, b" y", y)
}

/// Appends the size of a box.
pub fn push_size(out: &mut Vec<u8>, width: u128, height: u128) -> Result<(), AllocError>
    ensures { IfOk result (λ _. out.new.items ≡ out.old.items ++ size width height) }
{
    push_attribute(out, b" width", width)?;
    push_attribute(out, b" height", height)
}

/// Appends the two ends of a line.
pub fn push_ends(out: &mut Vec<u8>, area: Area) -> Result<(), AllocError>
    ensures { IfOk result (λ _. out.new.items ≡ out.old.items
        ++ ends area.x area.y area.across area.down) }
{
    push_attribute(out, b" x1", area.x)?;
    push_attribute(out, b" y1", area.y)?;
    push_attribute(out, b" x2", area.across)?;
    push_attribute(out, b" y2", area.down)
}
