//! Small netlists, and their modules.

/// A file, and its modules: of each its names in order, with their ways and ranges; then its instances, with their connections,
/// and of each connection its bits from the left, as the name and the place in its range from the left.
pub type Parsed<'a> = (&'a [u8], &'a [u8]);

pub const PARSED: [Parsed<'static>; 12] = [
    (b"", b""),
    (
        b"module top (a, z); input a; output z; INV u1 (.A(a), .Z(z)); endmodule",
        b"module top\nin a\nout z\ninstance INV u1\nport A a.0\nport Z z.0\n",
    ),
    (
        b"module top (ck, q); input ck; output q; wire d;\nDFF u1 (.CK(ck), .D(d), .Q(q)); INV u2 (.A(q), .Z(d)); endmodule",
        b"module top\nin ck\nout q\ninner d\ninstance DFF u1\nport CK ck.0\nport D d.0\nport Q q.0\ninstance INV u2\nport A q.0\nport Z d.0\n",
    ),
    // the order of names: the header, then wires, then what is only joined; the order of declarations does not count
    (
        b"module m (z, a); I u (.A(q), .B(w), .C(p), .D(q)); wire w; output z; wire v; input a; endmodule",
        b"module m\nout z\nin a\ninner w\ninner v\ninner q\ninner p\ninstance I u\nport A q.0\nport B w.0\nport C p.0\nport D q.0\n",
    ),
    // a port that `wire` declares too stands once
    (
        b"module m (a, z); wire [3:0] z; input a; output [3:0] z; wire w; endmodule",
        b"module m\nin a\nout z [3:0]\ninner w\n",
    ),
    // bits from the left, in either direction of a range
    (
        b"module m (input [3:0] a, input [0:3] b); I u (.A(a), .B(b), .C(a[1]), .D(b[1]), .E(a[2:1]), .F(b[1:2])); endmodule",
        b"module m\nin a [3:0]\nin b [0:3]\ninstance I u\nport A a.0 a.1 a.2 a.3\nport B b.0 b.1 b.2 b.3\nport C a.2\nport D b.1\nport E a.1 a.2\nport F b.1 b.2\n",
    ),
    // a range that does not end at 0
    (
        b"module m; wire [7:4] a; I u (.A({a[4], a[7:6], b})); endmodule",
        b"module m\ninner a [7:4]\ninner b\ninstance I u\nport A a.3 a.0 a.1 b.0\n",
    ),
    // a constant gives as many tied bits as its width says, whatever its digits
    (
        b"module m; I u (.A(1'h0), .B(4'bx01z), .C({2'd3, c, 3'o7}), .D()); endmodule",
        b"module m\ninner c\ninstance I u\nport A tied\nport B tied tied tied tied\nport C tied tied c.0 tied tied tied\nport D\n",
    ),
    // nested braces, and an open port
    (
        b"module m; wire [1:0] a; I u (.A({{a, {b}}, 1'b1, {a[0], {{c}}}}), .QN()); endmodule",
        b"module m\ninner a [1:0]\ninner b\ninner c\ninstance I u\nport A a.0 a.1 b.0 tied a.1 c.0\nport QN\n",
    ),
    // names of one module are no names of another; instances may be named as names are
    (
        b"module n (x); input x; J x (.A(x)), y (); endmodule module m; wire x; n y (.x(y)); endmodule",
        b"module n\nin x\ninstance J x\nport A x.0\ninstance J y\nmodule m\ninner x\ninner y\ninstance n y\nport x y.0\n",
    ),
    // wires between instances, and connections on both sides of them
    (
        b"module m; I u (.A(a)); wire [1:0] w; I v (.B(w[0])); wire x; endmodule module k; endmodule",
        b"module m\ninner w [1:0]\ninner x\ninner a\ninstance I u\nport A a.0\ninstance I v\nport B w.1\nmodule k\n",
    ),
    // escaped names
    (
        b"module \\m+ (\\a[0] ); input \\a[0] ; I \\u/1 (.\\P.Q (\\a[0] )); endmodule",
        b"module m+\nin a[0]\ninstance I u/1\nport P.Q a[0].0\n",
    ),
];
