//! The fixed texts with which each SVG chart begins: the opening tag up to the height, and the
//! styles. docs/chart.md describes the chart. Only drawing.rt writes these texts, with the height
//! between.
//!
//! Proved: the texts are `preamble` and `styles` of specs/Drawing.antt, byte by byte.
//!
//! Pinned, by these definitions and the files .svg of vectors/pictures: each byte. Another colour
//! needs a change of the definition, of the text here, of the length in its type, and of
//! vectors/pictures. The classes are named in drawing.rt and frame.rt: w and t wait for operands
//! and for the turn, e executes, d is dropped, i an interrupt, s a snapshot, g a mark, p the
//! background, n and m texts. Free: nothing.
ghost use Rattle.std.specs.Prelude.{◌≡◌};
ghost use Rattle.st_draw.specs.Drawing as spec;

// The text before the height of a chart.
const PREAMBLE: &[u8; 78] =
    b"<svg xmlns=\"http://www.w3.org/2000/svg\" xml:space=\"preserve\" viewBox=\"0 0 640 ";

// The styles of the elements' classes, and the hatching of dropped entries.
const STYLES: &[u8; 489] =
    b"\">\n<defs><pattern id=\"h\" width=\"5\" height=\"5\" patternUnits=\"userSpaceOnUse\" patternTransform=\"rotate(45)\">\
    <rect width=\"5\" height=\"5\" fill=\"#fff\"/><rect width=\"2\" height=\"5\" fill=\"#8a3b12\"/></pattern></defs>\n\
    <style>text{font:11px monospace;fill:#111;white-space:pre}.n{text-anchor:end}.m{text-anchor:middle;fill:#555}\
    .p{fill:#fff}.g{stroke:#ddd}.w{fill:#b5d0eb}.t{fill:#6f9ccb}.e{fill:#17365a}\
    .d{fill:url(#h);stroke:#8a3b12}\
    .i{stroke:#b3261e}.s{stroke:#2e7d32;stroke-dasharray:2 3}</style>\n";

/// The text before the height of a chart.
pub fn preamble() -> &'static [u8]
    ensures { result.now ≡ spec.preamble }
{
    PREAMBLE
}

/// The styles of the elements' classes, and the hatching of dropped entries.
pub fn styles() -> &'static [u8]
    ensures { result.now ≡ spec.styles }
{
    STYLES
}
