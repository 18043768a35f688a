//! Small netlists that the grammar has, and their modules, told as those of `parsed`.
use super::parsed::Parsed;

pub const ACCEPTED: [Parsed<'static>; 10] = [
    (
        b" \x09\x0b\x0d\n// x\n/* * / */(* (* *)`timescale 1ns/1ps\n",
        b"",
    ),
    (b"module m; endmodule", b"module m\n"),
    (
        b"module m (); endmodule module n; endmodule",
        b"module m\nmodule n\n",
    ),
    (
        b"module m (input [3:0] a, b, output wire z, input c); endmodule",
        b"module m\nin a [3:0]\nin b [3:0]\nout z\nin c\n",
    ),
    (
        b"module m (a); input wire [0:1] a; wire [0:1] a; wire b, c; endmodule",
        b"module m\nin a [0:1]\ninner b\ninner c\n",
    ),
    (
        b"module m; I u (), v (.A(), .B(b)); endmodule",
        b"module m\ninner b\ninstance I u\ninstance I v\nport A\nport B b.0\n",
    ),
    (
        b"module m; I \\assign (.\\a[0] (\\b ), .\\module (c)); endmodule",
        b"module m\ninner b\ninner c\ninstance I assign\nport a[0] b.0\nport module c.0\n",
    ),
    (
        b"module m; I u (.A(8'SD?_9), .B(2'so17), .C(16'HfF)); endmodule",
        b"module m\ninstance I u\nport A tied tied tied tied tied tied tied tied\nport B tied tied\nport C tied tied tied tied tied tied tied tied tied tied tied tied tied tied tied tied\n",
    ),
    (
        b"module m; edge cell (.macromodule(_x$1)); (* keep = \"(\" *) I(**)u/**/(//\n); endmodule",
        b"module m\ninner _x$1\ninstance edge cell\nport macromodule _x$1.0\ninstance I u\n",
    ),
    (
        b"module m; I u (.A({{{{{{{{{{{{{{{{a}}}}}}}}}}}}}}}})); endmodule",
        b"module m\ninner a\ninstance I u\nport A a.0\n",
    ),
];
