//! Jobs and their reports, worked out by hand or by an independent model of the machine, by the
//! rules of docs/machine.md, docs/strap.md and docs/report.md. The tests of failures.rt and
//! delays.rt use them; each report is the constant after its job.
//!
//! Proved: nothing of these constants. Pinned: each report, by its job and these pages; a job can
//! be changed only with its report, which must not be taken from the output of the program. Free:
//! further jobs.

/// A job of a load and a wait.
pub const LOAD: &str = "         LVI,$X1,100.0
         BEW
         END,32.0
";

/// The report of `LOAD`.
pub const LOADED: &str = "END WAIT
DONE 2
IC 33.0
EN 1
REG 11 0000000000009000
REG 12 FFFFF00000000000
REG 17 0019000000000000
";

/// A job of a load and a wait, with names and a listing.
pub const LISTED: &str = " A       LVI,$X1,B
         BEW
 B       SYN,100.0
         END,A
/LIST
";

/// The report of `LISTED`: five lines of cards, two of symbols, and the end.
pub const LISTING: &str = "    1      32.0 00190300          A       LVI,$X1,B
    2     32.32 00000970                  BEW
    3     100.0                   B       SYN,100.0
    4                                     END,A
    5                            /LIST
SYM A 32.0
SYM B 100.0
END WAIT
DONE 2
IC 33.0
EN 1
REG 11 0000000000009000
REG 12 FFFFF00000000000
REG 17 0019000000000000
";

/// A counting loop with a trace.
pub const TRACED: &str = "         LCI,$X1,2
         CB,$X1,32.32
         BEW
         END,32.0
/TRACE
";

/// The report of `TRACED`: four lines of trace, and the end.
pub const TRACE: &str = "TRC 1 32.0
TRC 2 32.32
TRC 3 32.32
TRC 4 33.0
END WAIT
DONE 4
IC 33.32
EN 1
REG 11 000000000000A000
REG 12 FFFFF00000000000
";

/// The sum of a table, with an interrupt routine.
pub const TABLE_SUM: &str = "* SUM OF A TABLE
 START   LVI,$X2,TABLE
         SX,$X2,$IA
         LX,$X1,CTL
         BE,LOOP
 LOOP    +(DU,32,8)(V+IC),0.32($X1)
         BI0,$XCZ,LOOP
         ST(DU,32),SUM
         BEW
 ROUT    M+1(BU,64),TALLY
 BACK    BE,0.0
 CTL     XW,DATA,3,0
 DATA    DD(DU,32,8),1234
         DD(DU,32,8),5678
         DD(DU,32,8),90
 SUM     DD(DU,32),0
 TALLY   DD(BU,64),0
 TABLE   SYN,200
         SLC,TABLE+13
         SIC,BACK,ROUT
         END,START
/SIGNAL 6 13
/DUMP 41 42
";

/// The report of `TABLE_SUM`: eleven lines of the interrupt, and thirteen of the end.
pub const TABLE_SUMMED: &str = "INT 13 AFTER 6
IC 34.0
EN 1
REG 02 0032000000000000
REG 09 0000000000001234
REG 11 0004000000001020
REG 12 FFFFF00000000000
REG 17 000A200000080000
REG 18 0032000000000000
DUMP 41 42
MEM 41 0000090000000000
END WAIT
DONE 15
IC 37.32
EN 1
REG 02 0032000000000000
REG 09 0000000000007002
REG 11 0000000000009120
REG 12 FFFFF00000000000
REG 17 000A600000000000
REG 18 0032000000000000
DUMP 41 42
MEM 41 0000090000007002
MEM 42 0000000000000001
";

/// A job that prints a line.
pub const PRINTS: &str = "         WR,50.0,1
         BI0Z,$EOP,33.0
         BEW
         SLC,50.0
         DD(BU,16),18505
         END,32.0
";

/// The report of `PRINTS`: the printed line, and the end.
pub const PRINTED: &str = "PRT HI
END WAIT
DONE 4
IC 34.32
EN 1
REG 12 FFFFF00000000000
";

/// A job with four consecutive speculative index changes.
pub const CALM: &str = "         *(BU,64),100.0
         V+I,$X1,1.0
         V+I,$X1,1.0
         V+I,$X1,1.0
         V+I,$X1,1.0
         BEW
         END,32.0
";

/// The output of `CALM` on machines of one to eight levels: the ticks of each.
pub const CALM_LINES: &str = "LEVELS 1 TICKS 27
LEVELS 2 TICKS 25
LEVELS 3 TICKS 23
LEVELS 4 TICKS 23
LEVELS 5 TICKS 23
LEVELS 6 TICKS 23
LEVELS 7 TICKS 23
LEVELS 8 TICKS 23
CALM 1
";

/// A division that waits for slow storage, and eleven index changes that run ahead of it.
pub const SLOW_DIVISION: &str = "         /(BU,64),100.0
         V+I,$X1,1.0
         V+I,$X1,1.0
         V+I,$X1,1.0
         V+I,$X1,1.0
         V+I,$X1,1.0
         V+I,$X1,1.0
         V+I,$X1,1.0
         V+I,$X1,1.0
         V+I,$X1,1.0
         V+I,$X1,1.0
         V+I,$X1,1.0
         BEW
         END,32.0
/DELAYS 9
";

/// A loop that adds one half-word to the address of its own next instruction, five times.
pub const CHANGING: &str = " START   LX,$X1,CTL
         BE,LOOP
 LOOP    M+1(BU,19),NEXT
 NEXT    LVI,$X2,0.0
         CB,$X1,LOOP
         BEW
 CTL     XW,0.0,5,0
         END,START
/TRACE
/DUMP 34 34
";

/// The report of `CHANGING`: eighteen lines of trace, and the end. The last value is five
/// half-words.
pub const CHANGED: &str = "TRC 1 32.0
TRC 2 32.32
TRC 3 33.0
TRC 4 34.0
TRC 5 34.32
TRC 6 33.0
TRC 7 34.0
TRC 8 34.32
TRC 9 33.0
TRC 10 34.0
TRC 11 34.32
TRC 12 33.0
TRC 13 34.0
TRC 14 34.32
TRC 15 33.0
TRC 16 34.0
TRC 17 34.32
TRC 18 35.0
END WAIT
DONE 18
IC 35.32
EN 1
REG 11 000000000000A120
REG 12 FFFFF00000000000
REG 18 0000A00000000000
DUMP 34 34
MEM 34 0000A500000843B0
";
