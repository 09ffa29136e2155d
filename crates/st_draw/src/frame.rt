//! The parts around the rows of an SVG chart: its background, the note at the axis, and the keys of
//! the legend. docs/chart.md describes the chart. Only drawing.rt calls these functions. Positions
//! are in units of the drawing, downwards; the `requires` bound them, so that sums do not overflow.
//!
//! Proved: each call appends exactly elements of specs/Drawing.antt (`ground`, `box_key`,
//! `line_key`), or memory runs out.
//!
//! Pinned, by these definitions, docs/chart.md and the files .svg of vectors/pictures: figures and
//! texts; the letters are classes of the styles in opening.rt: `p` the background, `c` and `m`
//! texts that begin, or have their middle, at x. The `across` and `down` of an `Area` are the size
//! of a box, or the end point of a line. Free: the split into functions.
ghost use Rattle.std.specs.Prelude.{◌≡◌, ◌+◌, ◌^◌, ◌<◌, ◌++◌, IfOk, codes};
ghost use Rattle.st_draw.specs.Element.{elements_text, element_text, Text};
ghost use Rattle.st_draw.specs.Drawing as spec;
ghost use Rattle.st_draw.specs.Drawing.{IsSheet};

use crate::attributes::Area;
use crate::element::{Point, push_box, push_line, push_text};
use crate::sheet::Sheet;
use st_entries::DrawnEntry;
use std::alloc::AllocError;

/// Appends the background of the chart and the note beside the axis: the meaning of its numbers, or
/// that there is no entry.
pub fn push_ground(
    out: &mut Vec<u8>,
    sheet: &Sheet,
    entries: &[DrawnEntry],
) -> Result<(), AllocError>
    requires { IsSheet sheet.now }
    ensures { IfOk result (λ _. out.new.items ≡ out.old.items
        ++ elements_text (spec.ground sheet.now entries.now)) }
{
    let area = Area {
        x: 0,
        y: 0,
        across: 640,
        down: sheet.bottom + 60,
    };
    push_box(out, b"p", area)?;
    if entries.is_empty() {
        return push_text(out, b"c", Point { x: 12, y: 20 }, b"no rows");
    }
    let x = u128::from(sheet.room.left.saturating_sub(48));
    push_text(out, b"m", Point { x, y: 22 }, b"ticks")
}

// Appends the meaning of an element of the legend at (x, y).
fn push_meaning(out: &mut Vec<u8>, x: u16, y: u128, meaning: &[u8]) -> Result<(), AllocError>
    requires { y < 2 ^ 71 }
    ensures { IfOk result (λ _. out.new.items ≡ out.old.items
        ++ element_text (Text (codes "c") (x + 26) (y + 9) meaning.now)) }
{
    let spot = Point {
        x: u128::from(x) + 26,
        y: y + 9,
    };
    push_text(out, b"c", spot, meaning)
}

/// Appends a box of the legend, of a class of styles, at (x, y), with its meaning to the right.
pub fn push_box_key(
    out: &mut Vec<u8>,
    class: &[u8],
    x: u16,
    y: u128,
    meaning: &[u8],
) -> Result<(), AllocError>
    requires { y < 2 ^ 71 }
    ensures { IfOk result (λ _. out.new.items ≡ out.old.items
        ++ elements_text (spec.box_key class.now x y meaning.now)) }
{
    let area = Area {
        x: u128::from(x),
        y,
        across: 20,
        down: 10,
    };
    push_box(out, class, area)?;
    push_meaning(out, x, y, meaning)
}

/// Appends a line of the legend, of a class of styles, at (x, y), with its meaning to the right.
pub fn push_line_key(
    out: &mut Vec<u8>,
    class: &[u8],
    x: u16,
    y: u128,
    meaning: &[u8],
) -> Result<(), AllocError>
    requires { y < 2 ^ 71 }
    ensures { IfOk result (λ _. out.new.items ≡ out.old.items
        ++ elements_text (spec.line_key class.now x y meaning.now)) }
{
    let area = Area {
        x: u128::from(x),
        y: y + 5,
        across: u128::from(x) + 20,
        down: y + 5,
    };
    push_line(out, class, area)?;
    push_meaning(out, x, y, meaning)
}
