//! Small netlists, and the first name, constant or port whose range is bad.

/// A file, and the name, or nothing.
pub type BadRange<'a> = (&'a [u8], &'a [u8]);

pub const BAD_RANGES: [BadRange<'static>; 49] = [
    (b"", b""),
    (b"module m; wire [1048575:983040] a; endmodule", b""),
    (b"module m; wire [1048576:1048576] a; endmodule", b"a"),
    (b"module m; wire [65535:0] a; endmodule", b""),
    (b"module m; wire [0:65536] a; endmodule", b"a"),
    (
        b"module m (input [99999999999999999999:0] a); endmodule",
        b"a",
    ),
    (b"module m (a); input [3:0] a; wire [3:0] a; endmodule", b""),
    (
        b"module m (a); input [3:0] a; wire [0:3] a; endmodule",
        b"a",
    ),
    (b"module m (a); wire [3:0] a; input a; endmodule", b"a"),
    (b"module m (a); wire a; output [0:0] a; endmodule", b"a"),
    (
        b"module m; wire [3:0] a; I u (.A(a[3]), .B(a[0])); endmodule",
        b"",
    ),
    (b"module m; wire [3:0] a; I u (.A(a[4])); endmodule", b"a"),
    (b"module m; wire [3:1] b; I u (.A(b[0])); endmodule", b"b"),
    (
        b"module m; wire [1:3] b; I u (.A(b[1]), .B(b[4])); endmodule",
        b"b",
    ),
    (b"module m; wire c; I u (.A(c[0])); endmodule", b"c"),
    (b"module m; I u (.A(d[0])); endmodule", b"d"),
    (
        b"module m; wire [7:0] a; I u (.A(a[5:2]), .B(a[2:2])); endmodule",
        b"",
    ),
    (b"module m; wire [7:0] a; I u (.A(a[2:5])); endmodule", b"a"),
    (b"module m; wire [0:7] a; I u (.A(a[2:5])); endmodule", b""),
    (b"module m; wire [0:7] a; I u (.A(a[5:2])); endmodule", b"a"),
    (b"module m; wire [7:0] a; I u (.A(a[8:2])); endmodule", b"a"),
    (
        b"module m; wire [4:4] a; I u (.A(a[4:4]), .B(a[4])); endmodule",
        b"",
    ),
    (b"module m; I u (.A(a[0])); wire [1:0] a; endmodule", b""),
    (
        b"module m; wire [1:0] a; endmodule module n; I u (.A(a[0])); endmodule",
        b"a",
    ),
    (b"module m; I u (.A(0'b0)); endmodule", b"0'b0"),
    (b"module m; I u (.A(1'h0), .B(4'bx01z)); endmodule", b""),
    (b"module m; I u (.A(65536'h0)); endmodule", b""),
    (b"module m; I u (.A(65537'h0)); endmodule", b"A"),
    (
        b"module m; wire [32767:0] a; I u (.A({a, a})); endmodule",
        b"",
    ),
    (
        b"module m; wire [32767:0] a; I u (.A({a, 1'b0, a})); endmodule",
        b"A",
    ),
    (
        b"module m; wire [32767:0] a; I u (.A({a, {a[32766:0], b}}), .B({a, a[0], a})); endmodule",
        b"B",
    ),
    (b"module m; I u (.A({65536'h0, 0'b0})); endmodule", b"0'b0"),
    (
        b"module m; I u (.A({a, {b, c[1]}})); wire [1:0] d; endmodule",
        b"c",
    ),
    (
        b"module m (a); input wire [1:0] a; wire [1:0] a; endmodule",
        b"",
    ),
    (b"module m; I u (.A(007'd3)); endmodule", b""),
    (b"module m; I u (.A(000'd3)); endmodule", b"000'd3"),
    (
        b"module m; wire [3:0] w; INV u1 (.A(w[3000000:2000000])); endmodule",
        b"A",
    ),
    (
        b"module m; INV u1 (.A(w)); wire [3000000:2000000] w; endmodule",
        b"A",
    ),
    (
        b"module m; wire [3:0] w; INV u1 (.A(w[2000000:1000000])); endmodule",
        b"A",
    ),
    (
        b"module m; wire [3:0] w; INV u1 (.A(w[2065535:2000000])); endmodule",
        b"w",
    ),
    (
        b"module m; wire [3:0] w; INV u1 (.A(w[2065536:2000000])); endmodule",
        b"A",
    ),
    (
        b"module m; wire [3:0] w; INV u1 (.A(w[2000000:2065536])); endmodule",
        b"A",
    ),
    (
        b"module m; wire [3:0] w; INV u1 (.A({w[2065535:2000000], w[0]})); endmodule",
        b"A",
    ),
    (
        b"module m; wire [3:0] w; INV u1 (.A(w[99999999999999999999:99999999999999934464])); endmodule",
        b"w",
    ),
    (
        b"module m; wire [3:0] w; INV u1 (.A(w[99999999999999999999:99999999999999934463])); endmodule",
        b"A",
    ),
    (
        b"module m; wire [3:0] w; INV u1 (.A(w[100000000000000000005:0099999999999999999999])); endmodule",
        b"w",
    ),
    (
        b"module m; wire [3:0] w; INV u1 (.A(w[0003000000:3000000])); endmodule",
        b"w",
    ),
    (
        b"module m; INV u1 (.A(w)); wire [0:18446744073709551616] w; endmodule",
        b"A",
    ),
    (
        b"module m; INV u1 (.A(w)); wire [18446744073709551617:18446744073709551616] w; endmodule",
        b"w",
    ),
];
