//! Small netlists, and the first name that stands in a header without a direction, or has a direction and stands in no header.

/// A file, and the name, or nothing.
pub type Unpaired<'a> = (&'a [u8], &'a [u8]);

pub const UNPAIRED: [Unpaired<'static>; 20] = [
    (b"", b""),
    (b"module m (a); input a; endmodule", b""),
    (b"module m (a); endmodule", b"a"),
    (b"module m (a, b); input a; endmodule", b"b"),
    (b"module m (a); input a, b; endmodule", b"b"),
    (b"module m; output b; endmodule", b"b"),
    (b"module m (input a, output b); endmodule", b""),
    (b"module m (input a); output b; endmodule", b"b"),
    (b"module m (a); wire a; endmodule", b"a"),
    (b"module m (a); wire a; input a; endmodule", b""),
    (b"module m (a); input wire a; endmodule", b""),
    (b"module m (a, b); output b; input a; endmodule", b""),
    (
        b"module m (a); input a; endmodule module n; input a; endmodule",
        b"a",
    ),
    (
        b"module m; input a; endmodule module n (b); endmodule",
        b"a",
    ),
    (
        b"module m (b); endmodule module n (a, b); input b; endmodule",
        b"b",
    ),
    (b"module m (\\a ); input a; endmodule", b""),
    (b"module m (a); I a (.a(a)); endmodule", b"a"),
    (b"module m (a, a); endmodule", b"a"),
    (
        b"module m (c, a); input [1:0] a, b; output c, d; endmodule",
        b"b",
    ),
    (b"module a (a); I u (.a(a)); input a; endmodule", b""),
];
