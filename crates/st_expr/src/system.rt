//! The system symbols: words that begin with `$` and have fixed values, bit addresses of registers,
//! index words and indicators. Only terms.rt calls this module. docs/strap.md and docs/machine.md
//! list the symbols.
//!
//! Proved: a look-up is one in `system_symbols` of specs/System.antt, for each word. The law
//! `SymbolsAgree` (specs/Laws.antt of `st_laws`) says that the symbols have the addresses of the
//! machine.
//!
//! Pinned, by `system_symbols`, docs/strap.md, docs/machine.md and vectors/mnemonics.txt: the
//! symbols. A new symbol is a row in this list and in `system_symbols`. Free: the form of the
//! search, and the order of rows, if both lists keep one order.

ghost use Rattle.std.specs.Prelude.{◌≡◌};
ghost use Rattle.st_text.specs.Tables.{row_of};
ghost use Rattle.st_expr.specs.System.{system_symbols};

use st_bits::{indicators, register};
use st_text::row_of;

// The bit address of the first indicator.
const IND: u32 = 64 * register::INDICATORS;

// The bit address of the first index word.
const X0: u32 = 64 * register::FIRST_INDEX_WORD;

// The system symbols with their values, bit addresses: parts of register words, index words and
// indicators.
const SYSTEM: [(&[u8], u32); 83] = [
    (b"$Z", 64 * register::ZERO),
    (b"$IA", 64 * register::INTERRUPT_ADDRESS),
    (b"$UB", 64 * register::BOUNDS),
    (b"$LB", 64 * register::BOUNDS + 32),
    (b"$BC", 64 * register::BOUNDS + 57),
    (b"$LZC", 64 * register::COUNTS + 17),
    (b"$AOC", 64 * register::COUNTS + 44),
    (b"$L", 64 * register::LEFT_HALF),
    (b"$R", 64 * register::RIGHT_HALF),
    (b"$SB", 64 * register::SIGN_BYTE),
    (b"$IND", 64 * register::INDICATORS),
    (b"$MASK", 64 * register::MASK),
    (b"$RM", 64 * register::REMAINDER),
    (b"$FT", 64 * register::FACTOR),
    (b"$TR", 64 * register::TRANSIT),
    (b"$X0", X0),
    (b"$X1", X0 + 64 * 1),
    (b"$X2", X0 + 64 * 2),
    (b"$X3", X0 + 64 * 3),
    (b"$X4", X0 + 64 * 4),
    (b"$X5", X0 + 64 * 5),
    (b"$X6", X0 + 64 * 6),
    (b"$X7", X0 + 64 * 7),
    (b"$X8", X0 + 64 * 8),
    (b"$X9", X0 + 64 * 9),
    (b"$X10", X0 + 64 * 10),
    (b"$X11", X0 + 64 * 11),
    (b"$X12", X0 + 64 * 12),
    (b"$X13", X0 + 64 * 13),
    (b"$X14", X0 + 64 * 14),
    (b"$X15", X0 + 64 * 15),
    (b"$MK", IND + indicators::MACHINE_CHECK as u32),
    (b"$IK", IND + indicators::INSTRUCTION_CHECK as u32),
    (b"$IJ", IND + indicators::INSTRUCTION_REJECT as u32),
    (b"$EK", IND + indicators::EXCHANGE_CONTROL_CHECK as u32),
    (b"$TS", IND + indicators::TIME_SIGNAL as u32),
    (b"$CPUS", IND + indicators::PROCESSOR_SIGNAL as u32),
    (b"$EKJ", IND + indicators::EXCHANGE_CHECK_REJECT as u32),
    (b"$UNRJ", IND + indicators::UNIT_NOT_READY_REJECT as u32),
    (b"$CBJ", IND + indicators::CHANNEL_BUSY_REJECT as u32),
    (b"$EPGK", IND + indicators::EXCHANGE_PROGRAM_CHECK as u32),
    (b"$UK", IND + indicators::UNIT_CHECK as u32),
    (b"$EE", IND + indicators::END_EXCEPTION as u32),
    (b"$EOP", IND + indicators::END_OF_OPERATION as u32),
    (b"$CS", IND + indicators::CHANNEL_SIGNAL as u32),
    (b"$OP", IND + indicators::OPERATION_INVALID as u32),
    (b"$AD", IND + indicators::ADDRESS_INVALID as u32),
    (b"$USA", IND + indicators::UNENDED_SEQUENCE as u32),
    (b"$EXE", IND + indicators::EXECUTE_EXCEPTION as u32),
    (b"$DS", IND + indicators::DATA_STORE as u32),
    (b"$DF", IND + indicators::DATA_FETCH as u32),
    (b"$IF", IND + indicators::INSTRUCTION_FETCH as u32),
    (b"$LC", IND + indicators::LOST_CARRY as u32),
    (b"$PF", IND + indicators::PARTIAL_FIELD as u32),
    (b"$ZD", IND + indicators::ZERO_DIVISOR as u32),
    (b"$TF", IND + indicators::FLAG_T as u32),
    (b"$UF", IND + indicators::FLAG_U as u32),
    (b"$VF", IND + indicators::FLAG_V as u32),
    (b"$XF", IND + indicators::INDEX_FLAG as u32),
    (b"$BTR", IND + indicators::BINARY_TRANSIT as u32),
    (b"$DTR", IND + indicators::DECIMAL_TRANSIT as u32),
    (b"$PG0", IND + indicators::FIRST_PROGRAM_INDICATOR as u32),
    (
        b"$PG1",
        IND + indicators::FIRST_PROGRAM_INDICATOR as u32 + 1,
    ),
    (
        b"$PG2",
        IND + indicators::FIRST_PROGRAM_INDICATOR as u32 + 2,
    ),
    (
        b"$PG3",
        IND + indicators::FIRST_PROGRAM_INDICATOR as u32 + 3,
    ),
    (
        b"$PG4",
        IND + indicators::FIRST_PROGRAM_INDICATOR as u32 + 4,
    ),
    (
        b"$PG5",
        IND + indicators::FIRST_PROGRAM_INDICATOR as u32 + 5,
    ),
    (
        b"$PG6",
        IND + indicators::FIRST_PROGRAM_INDICATOR as u32 + 6,
    ),
    (b"$XCZ", IND + indicators::INDEX_COUNT_ZERO as u32),
    (b"$XVLZ", IND + indicators::INDEX_VALUE_LESS as u32),
    (b"$XVZ", IND + indicators::INDEX_VALUE_ZERO as u32),
    (b"$XVGZ", IND + indicators::INDEX_VALUE_GREATER as u32),
    (b"$XL", IND + indicators::INDEX_LOW as u32),
    (b"$XE", IND + indicators::INDEX_EQUAL as u32),
    (b"$XH", IND + indicators::INDEX_HIGH as u32),
    (b"$MOP", IND + indicators::TO_MEMORY_OPERATION as u32),
    (b"$RLZ", IND + indicators::RESULT_LESS as u32),
    (b"$RZ", IND + indicators::RESULT_ZERO as u32),
    (b"$RGZ", IND + indicators::RESULT_GREATER as u32),
    (b"$RN", IND + indicators::RESULT_NEGATIVE as u32),
    (b"$AL", IND + indicators::ACCUMULATOR_LOW as u32),
    (b"$AE", IND + indicators::ACCUMULATOR_EQUAL as u32),
    (b"$AH", IND + indicators::ACCUMULATOR_HIGH as u32),
];

// The value of a system symbol, a bit address; `None` if the word is not a system symbol.
#[tactic(auto, unfolding(crate::specs::System::system_symbols))]
pub(crate) fn system_value(word: &[u8]) -> Option<u32>
    ensures { result ≡ row_of word.now system_symbols }
{
    row_of(&SYSTEM, word)
}
