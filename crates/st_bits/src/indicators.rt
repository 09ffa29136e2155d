//! The numbers of the indicators: indicator n is bit n of the indicator register (register word
//! 11), bit 0 leftmost. An indicator is a condition code or the cause of an interrupt.
//! docs/machine.md and docs/interrupts.md have the rules. The crates that turn indicators on
//! (`st_prep`, `st_exec`, `st_state`, `st_index`, `st_field`, `st_bin`, `st_dec`) and `st_expr`,
//! for their symbols, use the names. Numbers that are missing here have no name; PG1 to PG6 are the
//! six after FIRST_PROGRAM_INDICATOR.
//!
//! Proved: nothing here, since there is no function; the definitions of these crates in their specs
//! name the constants. Pinned: each number, by the law `IndicatorsInFigures` in specs/Laws.antt of
//! `st_laws`, with its symbol, and by docs/machine.md. A new name needs its figure in that law.
//! Free: a name, if the code and definitions that use it change.

/// MK, machine check.
pub const MACHINE_CHECK: u8 = 0;
/// IK, instruction check.
pub const INSTRUCTION_CHECK: u8 = 1;
/// IJ, instruction reject.
pub const INSTRUCTION_REJECT: u8 = 2;
/// EK, exchange control check.
pub const EXCHANGE_CONTROL_CHECK: u8 = 3;
/// TS, time signal.
pub const TIME_SIGNAL: u8 = 4;
/// CPUS, processor signal.
pub const PROCESSOR_SIGNAL: u8 = 5;
/// EKJ, exchange check reject.
pub const EXCHANGE_CHECK_REJECT: u8 = 6;
/// UNRJ, unit not ready reject.
pub const UNIT_NOT_READY_REJECT: u8 = 7;
/// CBJ, channel busy reject: an order for a device that has one.
pub const CHANNEL_BUSY_REJECT: u8 = 8;
/// EPGK, exchange program check.
pub const EXCHANGE_PROGRAM_CHECK: u8 = 9;
/// UK, unit check.
pub const UNIT_CHECK: u8 = 10;
/// EE, end exception: the reader has no card.
pub const END_EXCEPTION: u8 = 11;
/// EOP, end of operation: a transfer took effect.
pub const END_OF_OPERATION: u8 = 12;
/// CS, channel signal: the last of those, from MK on, that a signal from outside can turn on.
pub const CHANNEL_SIGNAL: u8 = 13;
/// OP, operation code invalid.
pub const OPERATION_INVALID: u8 = 15;
/// AD, address invalid.
pub const ADDRESS_INVALID: u8 = 16;
/// USA, unended sequence of addresses.
pub const UNENDED_SEQUENCE: u8 = 17;
/// EXE, execute exception.
pub const EXECUTE_EXCEPTION: u8 = 18;
/// DS, data store: a protected word is written.
pub const DATA_STORE: u8 = 19;
/// DF, data fetch: a protected word is read as data.
pub const DATA_FETCH: u8 = 20;
/// IF, instruction fetch: an instruction is fetched from a protected word.
pub const INSTRUCTION_FETCH: u8 = 21;
/// LC, lost carry.
pub const LOST_CARRY: u8 = 22;
/// PF, partial field.
pub const PARTIAL_FIELD: u8 = 23;
/// ZD, zero divisor.
pub const ZERO_DIVISOR: u8 = 24;
/// TF, flag T of a field.
pub const FLAG_T: u8 = 35;
/// UF, flag U of a field.
pub const FLAG_U: u8 = 36;
/// VF, flag V of a field.
pub const FLAG_V: u8 = 37;
/// XF, flag of an index word.
pub const INDEX_FLAG: u8 = 38;
/// BTR, binary transit: a binary number went to the transit register.
pub const BINARY_TRANSIT: u8 = 39;
/// DTR, decimal transit: a decimal number went to the transit register.
pub const DECIMAL_TRANSIT: u8 = 40;
/// PG0, the first of the seven program indicators.
pub const FIRST_PROGRAM_INDICATOR: u8 = 41;
/// XCZ, index count zero.
pub const INDEX_COUNT_ZERO: u8 = 48;
/// XVLZ, index value less than zero.
pub const INDEX_VALUE_LESS: u8 = 49;
/// XVZ, index value zero.
pub const INDEX_VALUE_ZERO: u8 = 50;
/// XVGZ, index value greater than zero.
pub const INDEX_VALUE_GREATER: u8 = 51;
/// XL, index low.
pub const INDEX_LOW: u8 = 52;
/// XE, index equal.
pub const INDEX_EQUAL: u8 = 53;
/// XH, index high.
pub const INDEX_HIGH: u8 = 54;
/// MOP, to-memory operation: the last operation on a field wrote its field.
pub const TO_MEMORY_OPERATION: u8 = 55;
/// RLZ, result less than zero.
pub const RESULT_LESS: u8 = 56;
/// RZ, result zero.
pub const RESULT_ZERO: u8 = 57;
/// RGZ, result greater than zero.
pub const RESULT_GREATER: u8 = 58;
/// RN, result negative: its sign is minus.
pub const RESULT_NEGATIVE: u8 = 59;
/// AL, accumulator low.
pub const ACCUMULATOR_LOW: u8 = 60;
/// AE, accumulator equal.
pub const ACCUMULATOR_EQUAL: u8 = 61;
/// AH, accumulator high.
pub const ACCUMULATOR_HIGH: u8 = 62;
