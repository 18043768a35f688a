//! Small netlists, and the first name that stands twice where names must differ.

/// A file, and the name, or nothing.
pub type Repeated<'a> = (&'a [u8], &'a [u8]);

pub const REPEATED: [Repeated<'static>; 20] = [
    (b"", b""),
    (b"module m; endmodule module n; endmodule", b""),
    (
        b"module m; endmodule module n; endmodule module m; endmodule",
        b"m",
    ),
    (b"module \\m ; endmodule module m; endmodule", b"m"),
    (b"module m (a, b, a); input a, b; endmodule", b"a"),
    (b"module m (input a, output b, input a); endmodule", b"a"),
    (b"module m (a, b); input a; output b, a; endmodule", b"a"),
    (b"module m (input a); input a; endmodule", b"a"),
    (b"module m; wire a, b; wire b; endmodule", b"b"),
    (b"module m (a); input a; wire a; endmodule", b""),
    (b"module m; I u (), v (); J u (); endmodule", b"u"),
    (
        b"module m; I u (); endmodule module n; I u (); endmodule",
        b"",
    ),
    (b"module m; wire u; I u (.u(u)); endmodule", b""),
    (b"module m; I u (.A(a), .B(b), .A(c)); endmodule", b"A"),
    (
        b"module m; I u (.A(a)), v (.A(b)); J w (.A(c)); endmodule",
        b"",
    ),
    (b"module m; I u (.A({a, a, a})); endmodule", b""),
    (
        b"module m (a); input a; endmodule module n (a); input a; wire a, c, c; endmodule",
        b"c",
    ),
    (b"module m; I m (.m(m)); endmodule", b""),
    (b"module m; I u (.A(a), .\\A (b)); endmodule", b"A"),
    (
        b"module m; I u (.B(a), .A(a), .A(b)); I u (.B(a), .B(b)); endmodule",
        b"A",
    ),
];
