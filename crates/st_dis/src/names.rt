//! The mnemonics and modifiers of instructions, which texts.rt and pieces.rt put into statements.
//! docs/strap.md and docs/instructions.md list them. No other module uses this one.
//!
//! Proved: each call returns exactly the definition of its name in specs/Names.antt; mnemonics of
//! operations come from the tables in specs/Operations.antt of `st_format`. `short` bounds the
//! length in bytes, so that a statement fits its line.
//!
//! Pinned, by specs/Names.antt, these tables, docs/strap.md and vectors/decks.txt: the texts. A new
//! operation needs a row in a table of specs/Operations.antt and a case in a function here, which
//! the compiler names. Free: the form of the matches; `short`, as long as pieces.rt and texts.rt
//! are proved with it.

ghost use Rattle.std.specs.Prelude.{◌≡◌, ◌≤◌, length};
ghost use Rattle.st_text.specs.Numerals.{flag};
ghost use Rattle.st_format.specs.Operations.{half_row, branch_row, vfl_row, conn_row};
ghost use Rattle.st_dis.specs.Names as spec;

use st_bits::{BranchOp, ConnKind, HalfOp, VflOp};

// The mnemonic of an operation of the half-word format.
pub(crate) fn half_name(op: HalfOp) -> &'static str
    ensures name { result.now ≡ (half_row op).word }
    ensures short { length result.now ≤ 5 }
{
    match op {
        HalfOp::Lx => "LX",
        HalfOp::Lv => "LV",
        HalfOp::Lc => "LC",
        HalfOp::Lr => "LR",
        HalfOp::Sx => "SX",
        HalfOp::Sv => "SV",
        HalfOp::Sc => "SC",
        HalfOp::Sr => "SR",
        HalfOp::Sva => "SVA",
        HalfOp::VPlus => "V+",
        HalfOp::VPlusC => "V+C",
        HalfOp::Kv => "KV",
        HalfOp::Lvs => "LVS",
        HalfOp::Lvi => "LVI",
        HalfOp::Lci => "LCI",
        HalfOp::Lri => "LRI",
        HalfOp::VPlusI => "V+I",
        HalfOp::VMinusI => "V-I",
        HalfOp::VPlusIC => "V+IC",
        HalfOp::VPlusICR => "V+ICR",
        HalfOp::Kvi => "KVI",
        HalfOp::Kc => "KC",
        HalfOp::Kci => "KCI",
        HalfOp::Cb => "CB",
        HalfOp::Cbr => "CBR",
        HalfOp::R => "R",
        HalfOp::Ex => "EX",
    }
}

// The mnemonic of a branch.
pub(crate) fn branch_name(op: BranchOp) -> &'static str
    ensures name { result.now ≡ (branch_row op).word }
    ensures short { length result.now ≤ 3 }
{
    match op {
        BranchOp::B => "B",
        BranchOp::Br => "BR",
        BranchOp::Be => "BE",
        BranchOp::Bd => "BD",
        BranchOp::Bew => "BEW",
        BranchOp::Nop => "NOP",
    }
}

// The mnemonic of an operation on a field.
pub(crate) fn field_name(op: VflOp) -> &'static str
    ensures name { result.now ≡ (vfl_row op).word }
    ensures short { length result.now ≤ 4 }
{
    match op {
        VflOp::L => "L",
        VflOp::Lwf => "LWF",
        VflOp::Ltrs => "LTRS",
        VflOp::Lft => "LFT",
        VflOp::St => "ST",
        VflOp::Add => "+",
        VflOp::AddMg => "+MG",
        VflOp::MAdd => "M+",
        VflOp::MAddMg => "M+MG",
        VflOp::MAdd1 => "M+1",
        VflOp::K => "K",
        VflOp::Kf => "KF",
        VflOp::Ke => "KE",
        VflOp::Kfe => "KFE",
        VflOp::Kr => "KR",
        VflOp::Kfr => "KFR",
        VflOp::Mul => "*",
        VflOp::MulAdd => "*+",
        VflOp::Div => "/",
        VflOp::Lcv => "LCV",
    }
}

// The last letter of a negated operation's mnemonic; empty if it is not negated.
pub(crate) fn negation(negated: bool) -> &'static str
    ensures name { result.now ≡ spec.negation negated }
    ensures short { length result.now ≤ 1 }
{
    if negated { "N" } else { "" }
}

// The mnemonic of a kind of connective.
pub(crate) fn kind_name(kind: ConnKind) -> &'static str
    ensures name { result.now ≡ (conn_row kind).word }
    ensures short { length result.now ≤ 2 }
{
    match kind {
        ConnKind::C => "C",
        ConnKind::Cm => "CM",
        ConnKind::Ct => "CT",
    }
}

// The digit 1 or 0.
pub(crate) fn digit(one: bool) -> &'static str
    ensures name { result.now ≡ flag one }
    ensures short { length result.now ≤ 1 }
{
    if one { "1" } else { "0" }
}

// The mnemonic of a move of words.
pub(crate) fn move_name(swap: bool) -> &'static str
    ensures name { result.now ≡ spec.move_name swap }
    ensures short { length result.now ≤ 4 }
{
    if swap { "SWAP" } else { "T" }
}

// The part of a bit branch's mnemonic that gives the change of the bit: 1 clears it, 2 sets it, 3
// inverts it, and 0 leaves it.
pub(crate) fn change_name(change: u8) -> &'static str
    ensures name { result.now ≡ spec.change_name change }
    ensures short { length result.now ≤ 1 }
{
    match change {
        1 => "Z",
        2 => "S",
        3 => "V",
        _ => "",
    }
}

// The part of an indicator branch's mnemonic that says whether the indicator is turned off.
pub(crate) fn turning(off: bool) -> &'static str
    ensures name { result.now ≡ spec.turning off }
    ensures short { length result.now ≤ 1 }
{
    if off { "Z" } else { "" }
}

// The mnemonic of an order to the reader or to the printer.
pub(crate) fn order_name(write: bool) -> &'static str
    ensures name { result.now ≡ spec.order_name write }
    ensures short { length result.now ≤ 2 }
{
    if write { "WR" } else { "RD" }
}

// The mode of a field in a data description: decimal or binary, without a sign byte or with one.
pub(crate) fn mode_name(decimal: bool, unsigned: bool) -> &'static str
    ensures name { result.now ≡ spec.mode_name decimal unsigned }
    ensures short { length result.now ≤ 2 }
{
    match (decimal, unsigned) {
        (true, true) => "DU",
        (true, false) => "D",
        (false, true) => "BU",
        (false, false) => "B",
    }
}

// The text of a progressive form by its number, that of the P field of an instruction, 0 to 7; 0 is
// none.
pub(crate) fn form_name(p: u8) -> &'static str
    ensures name { result.now ≡ spec.form_name p }
    ensures short { length result.now ≤ 7 }
{
    match p {
        1 => "(IM)",
        2 => "(V+I)",
        3 => "(V+IC)",
        4 => "(V+ICR)",
        5 => "(V-I)",
        6 => "(V-IC)",
        7 => "(V-ICR)",
        _ => "",
    }
}
