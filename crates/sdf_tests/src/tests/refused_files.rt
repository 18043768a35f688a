//! Small files that are refused, by the place of the grammar where no text goes on.
use sdf_reader::SdfCause;

/// A file, or entries of the cell `u1`; the number of its dead token, and the cause.
pub type Refusal<'a> = (&'a [u8], u64, SdfCause);

pub const FILES: [Refusal<'static>; 18] = [
    (b"  \n", 1, SdfCause::EndInside),
    (b"DELAYFILE", 1, SdfCause::Unexpected),
    (b"(\"DELAYFILE\")", 2, SdfCause::Unexpected),
    (b"(DELAYFILE))", 4, SdfCause::Unexpected),
    (b"(DELAYFILE)\\", 4, SdfCause::BadByte),
    (b"/* (DELAYFILE)", 1, SdfCause::OpenComment),
    (b"(DELAYFILE) \"x", 4, SdfCause::OpenText),
    (b"(DELAYFILE () )", 4, SdfCause::Unexpected),
    (b"(DELAYFILE (DESIGN x))", 5, SdfCause::Unexpected),
    (b"(DELAYFILE (DIVIDER :))", 5, SdfCause::Unexpected),
    (b"(DELAYFILE (DIVIDER //", 5, SdfCause::EndInside),
    (b"(DELAYFILE (TIMESCALE 1))", 6, SdfCause::Unexpected),
    (b"(DELAYFILE (TIMESCALE 1NS))", 5, SdfCause::Unexpected),
    (b"(DELAYFILE (TIMESCALE 1 n s))", 6, SdfCause::Unexpected),
    (b"(DELAYFILE (VOLTAGE (1 (2) 3)", 12, SdfCause::EndInside),
    (b"(DELAYFILE (CELL (INSTANCE u1)))", 6, SdfCause::Unexpected),
    (
        b"(DELAYFILE (CELL (CELLTYPE \"INV\") (INSTANCE a b)))",
        12,
        SdfCause::Unexpected,
    ),
    (
        b"(DELAYFILE (CELL (CELLTYPE \"INV\") (INSTANCE)) (DESIGN))",
        14,
        SdfCause::Unexpected,
    ),
];

/// Entries of the cell `u1`: the first token of them is the 17th.
pub const ENTRIES: [Refusal<'static>; 18] = [
    (b"IOPATH", 17, SdfCause::Unexpected),
    (b"(IOPATH)", 19, SdfCause::Unexpected),
    (b"(IOPATH A \"Z\" (1))", 20, SdfCause::Unexpected),
    (b"(IOPATH A Z)", 21, SdfCause::Unexpected),
    (b"(INTERCONNECT a (b) (1))", 20, SdfCause::Unexpected),
    (b"(IOPATH A Z (1 2))", 23, SdfCause::Unexpected),
    (b"(IOPATH A Z (x))", 22, SdfCause::BadNumber),
    (b"(IOPATH A Z (1:2))", 22, SdfCause::BadNumber),
    (b"(IOPATH A Z (::))", 22, SdfCause::BadNumber),
    (b"(IOPATH A Z (1:2:3:4))", 22, SdfCause::BadNumber),
    (b"(IOPATH A Z (1) (2) (3) (x))", 31, SdfCause::BadNumber),
    (b"(IOPATH A Z (1e100))", 22, SdfCause::BadNumber),
    (b"(IOPATH A Z (:-1e22:))", 22, SdfCause::BadNumber),
    (b"(INTERCONNECT a b (RETAIN (1)))", 22, SdfCause::BadNumber),
    (b"(IOPATH A Z (1\x02))", 23, SdfCause::BadByte),
    (b"(IOPATH A Z (1) /* x)", 24, SdfCause::OpenComment),
    (b"(IOPATH A Z (1) \"x\\\")", 24, SdfCause::OpenText),
    (b"(IOPATH A Z (1))))))", 29, SdfCause::Unexpected),
];
