//! Small netlists, and the first fault of each.

/// A file, the word of its fault, or `none`, and the name at fault, if it has one.
pub type Fault<'a> = (&'a [u8], &'a [u8], &'a [u8]);

pub const FAULTS: [Fault<'static>; 19] = [
    (
        b"module m (a, b); input a; output b; wire [3:0] w; I u (.A(a), .Z(w[0])); J v (.A({w[3:1], 1'b0}), .Z(b)); endmodule",
        b"none",
        b"",
    ),
    (
        b"module m (a); endmodule module m; endmodule",
        b"direction",
        b"a",
    ),
    (
        b"module m (a); input a; endmodule module m (b); endmodule",
        b"repeated",
        b"m",
    ),
    (b"module m (a, a); endmodule", b"direction", b"a"),
    (
        b"module m (b, a, b); input a; endmodule",
        b"direction",
        b"b",
    ),
    (
        b"module m; input [1048576:0] a; endmodule",
        b"direction",
        b"a",
    ),
    (
        b"module m (a); input a; input [70000:0] a; endmodule",
        b"repeated",
        b"a",
    ),
    (
        b"module m; wire w, w; I u (.A(w[0])); endmodule",
        b"repeated",
        b"w",
    ),
    (
        b"module m; I u (.A(w[0])); wire w, w; endmodule",
        b"range",
        b"w",
    ),
    (
        b"module m (c); I u (.A(w[0])); wire w, w; endmodule",
        b"direction",
        b"c",
    ),
    (
        b"module m; I u (.A({40000'h0, 40000'h0, x[1]}), .A(y)); endmodule",
        b"range",
        b"A",
    ),
    (
        b"module m; I u (.A(x)), u (.A(y[0])); endmodule",
        b"repeated",
        b"u",
    ),
    (
        b"module m (a); input [1:0] a; wire [2:0] a; wire b, b; endmodule",
        b"range",
        b"a",
    ),
    (
        b"module m (a); input a; wire [2:0] a, b; output b; endmodule",
        b"range",
        b"a",
    ),
    // selects of a name that is not declared are of the grammar, and at fault; bounds past the largest, too
    (
        b"module m; I u (.A(a[3]), .B(a[2:0]), .C(1'h0), .D(4'bx01z)); endmodule",
        b"range",
        b"a",
    ),
    (
        b"module m; I u (.A({a[0], 1'b0, {b, {c}}, d[1:2]}), .QN()); endmodule",
        b"range",
        b"a",
    ),
    (
        b"module m; I u (.A(a[1048575]), .B(a[1048576]), .C(a[99999999999999999999:007])); endmodule",
        b"range",
        b"a",
    ),
    (b"module m; assign a = b; endmodule", b"word", b""),
    (b"module m (a); input a endmodule", b"syntax", b""),
];
