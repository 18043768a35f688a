//! Small files that are accepted, and what is told of them.

/// A file, or entries of the cell `u1`; the lines of its rows, and of its summary.
pub type Accepted<'a> = (&'a [u8], &'a [u8]);

/// What is told of a file without rows.
const NO_ROWS: &[u8] = b"wires 0 paths 0 sum 0.000 largest -\n";

pub const FILES: [Accepted<'static>; 14] = [
    (b"/*/ ( */(DelayFile)\x0b\x0c\r\n", NO_ROWS),
    (
        b"(DELAYFILE (DESIGN)(DESIGN \"a\\\"b\")(DIVIDER /)(VOLTAGE 1.0:1.1:1.2)(TEMPERATURE -40::125)(TIMESCALE 1ps))",
        NO_ROWS,
    ),
    (b"(DELAYFILE (x)(x y \"z\" (a (b) \"c\") ()))", NO_ROWS),
    (b"(DELAYFILE (x a//b c/*d \"//\" \"/*\"))", NO_ROWS),
    (
        b"(DELAYFILE (x \\( \\) \\\" \\\\ \\\n \xe9 \"\x01\"))",
        NO_ROWS,
    ),
    (
        b"(DELAYFILE (CELL (CELLTYPE \"\") (INSTANCE)) (cell (celltype \"b\") (instance *)))",
        NO_ROWS,
    ),
    (
        b"(DELAYFILE (CELL (CELLTYPE \"INV\") (INSTANCE u1) (TIMINGCHECK (SETUPHOLD (posedge D) (posedge CK) (1:2:3) (::4)))))",
        NO_ROWS,
    ),
    (
        b"(DELAYFILE (CELL (CELLTYPE \"INV\") (INSTANCE *) (DELAY (ABSOLUTE (IOPATH A Z (1))))))",
        NO_ROWS,
    ),
    (
        b"(DELAYFILE (CELL (CELLTYPE \"INV\") (INSTANCE \\*) (DELAY (ABSOLUTE (INTERCONNECT a b (1))))))",
        b"wire \\*/a \\*/b 1000.000\nwires 1 paths 0 sum 1000.000 largest 1000.000\n",
    ),
    (
        b"(DELAYFILE (CELL (CELLTYPE \"INV\") (INSTANCE u1.u2/u3) (DELAY (ABSOLUTE (IOPATH a/b a.b (1))))))",
        b"path u1/u2\\/u3 a\\/b a/b 1000.000 1000.000\nwires 0 paths 1 sum 2000.000 largest 1000.000\n",
    ),
    (
        b"(DELAYFILE (DIVIDER .)(DIVIDER /)(CELL (CELLTYPE \"INV\") (INSTANCE) (DELAY (ABSOLUTE (INTERCONNECT u1/Z u2.A (1))))))",
        b"wire u1/Z u2\\.A 1000.000\nwires 1 paths 0 sum 1000.000 largest 1000.000\n",
    ),
    (
        b"(DELAYFILE (TIMESCALE 100.0 us)(CELL (CELLTYPE \"INV\") (INSTANCE) (DELAY (ABSOLUTE (IOPATH A Z (1))))))",
        b"path - A Z 100000000.000 100000000.000\nwires 0 paths 1 sum 200000000.000 largest 100000000.000\n",
    ),
    (
        b"(DELAYFILE (TIMESCALE 10ms)(TIMESCALE 1. 0fs)(CELL (CELLTYPE \"INV\") (INSTANCE u1) (DELAY (ABSOLUTE (IOPATH A Z (1))))))",
        b"path u1 A Z 0.001 0.001\nwires 0 paths 1 sum 0.002 largest 0.001\n",
    ),
    (
        b"(DELAYFILE (TIMESCALE 1ps)(CELL (CELLTYPE \"top\") (INSTANCE) \
          (DELAY (ABSOLUTE (INTERCONNECT a u1.A (0.000)) (INTERCONNECT u1.Z z (0.250::0.750)))))\
          (CELL (CELLTYPE \"INV\") (INSTANCE u1) (DELAY (ABSOLUTE (IOPATH A Z (1.5:2.5:3.5) \
          (1.25:2.25:3.25))))))",
        b"wire a u1/A 0.000\nwire u1/Z z 0.250:-:0.750\npath u1 A Z 1.500:2.500:3.500 1.250:2.250:3.250\nwires 2 paths 1 sum 4.750 largest 3.500\n",
    ),
];

/// Entries of the cell `u1`, in a file with no timescale.
pub const ENTRIES: [Accepted<'static>; 16] = [
    (
        b"(IOPATH A Z () (1))",
        b"path u1 A Z - 1000.000\nwires 0 paths 1 sum 1000.000 largest 1000.000\n",
    ),
    (
        b"(IOPATH A Z (1) (2) (3) (4) (5) (6))",
        b"path u1 A Z 1000.000 2000.000\nwires 0 paths 1 sum 3000.000 largest 2000.000\n",
    ),
    (
        b"(IOPATH A Z (1::3)(::2))",
        b"path u1 A Z 1000.000:-:3000.000 -:-:2000.000\nwires 0 paths 1 sum 0.000 largest 3000.000\n",
    ),
    (
        b"(IOPATH A Z (:1:)(2:2:2))",
        b"path u1 A Z -:1000.000:- 2000.000\nwires 0 paths 1 sum 3000.000 largest 2000.000\n",
    ),
    (
        b"(IOPATH A Z (1e-3:+2.5E-2:.5))",
        b"path u1 A Z 1.000:25.000:500.000 1.000:25.000:500.000\nwires 0 paths 1 sum 50.000 largest 500.000\n",
    ),
    (
        b"(IOPATH A Z (0.0000004:0.0000005:0.0000006))",
        b"path u1 A Z 0.000:0.001:0.001 0.000:0.001:0.001\nwires 0 paths 1 sum 0.002 largest 0.001\n",
    ),
    (
        b"(IOPATH A Z (-0.0000005:-0.0000006:-0.0000004))",
        b"path u1 A Z 0.000:-0.001:0.000 0.000:-0.001:0.000\nwires 0 paths 1 sum -0.002 largest 0.000\n",
    ),
    (
        b"(IOPATH A Z (999999999999999999999999999999e-12))",
        b"path u1 A Z 1000000000000000000000.000 1000000000000000000000.000\n\
          wires 0 paths 1 sum 2000000000000000000000.000 largest 1000000000000000000000.000\n",
    ),
    (
        b"(IOPATH A Z (1e21))",
        b"path u1 A Z 1000000000000000000000000.000 1000000000000000000000000.000\n\
          wires 0 paths 1 sum 2000000000000000000000000.000 largest 1000000000000000000000000.000\n",
    ),
    (
        b"(IOPATH A Z (1e-99:0e99:1))",
        b"path u1 A Z 0.000:0.000:1000.000 0.000:0.000:1000.000\nwires 0 paths 1 sum 0.000 largest 1000.000\n",
    ),
    (
        b"(iopath \\a\\b a.b (1))",
        b"path u1 ab a/b 1000.000 1000.000\nwires 0 paths 1 sum 2000.000 largest 1000.000\n",
    ),
    (
        b"(IOPATH * \xe9 (1))",
        b"path u1 \\* \\\xe9 1000.000 1000.000\nwires 0 paths 1 sum 2000.000 largest 1000.000\n",
    ),
    (
        b"(INTERCONNECT a b (1) (2))",
        b"wire u1/a u1/b 1000.000 2000.000\nwires 1 paths 0 sum 1000.000 largest 2000.000\n",
    ),
    (
        b"(COND A==B (IOPATH A Z (1)))(CONDELSE (IOPATH A Z (1)))(PORT a (1))(IOPATH A Z (2))",
        b"path u1 A Z 2000.000 2000.000\nwires 0 paths 1 sum 4000.000 largest 2000.000\n",
    ),
    (b"(IOPATH A (posedge Z) 1 2)", NO_ROWS),
    (b"(IOPATH A Z (1) (retain \"x\" (y)) z)", NO_ROWS),
];
