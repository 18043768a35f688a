//! Small files.
use super::telling::told;
use std::test::Fail;

/// A file, the name of its top, and the cells in the order of their first use.
type Used<'a> = (&'a [u8], &'a [u8], &'a [u8]);

const TWO_LEVELS: &[u8] = b"module s (i, o); input i; output o; INV g (.A(i), .Z(o)); endmodule
module top (a, z); input a; output z; wire m; s u (.i(a), .o(m)); s v (.i(m), .o(z)); endmodule";

/// A module that contains itself stands beside one that does not lead to it.
const BESIDE: &[u8] = b"module top; INV g (); endmodule module r; r x (); NOR g (); endmodule";

const ORDER: &[u8] = b"module low; B g (); A h (); endmodule
module mid; C g (); low l (); E h (); endmodule
module top; D g (); mid m (); low l (); F h (); D i (); mid n (); endmodule";

const ROUND: &[u8] = b"module a; b x (); endmodule module b; INV g (); c x (); endmodule
module c; INV g (); c x (); endmodule module top; a x (); endmodule";

const FILES: [Used<'static>; 12] = [
    (TWO_LEVELS, b"top", b"INV "),
    (TWO_LEVELS, b"s", b"INV "),
    (TWO_LEVELS, b"u", b"no top"),
    (TWO_LEVELS, b"INV", b"no top"),
    (TWO_LEVELS, b"", b"no top"),
    (b"", b"top", b"no top"),
    (b"module top; endmodule", b"top", b""),
    (BESIDE, b"top", b"INV "),
    (BESIDE, b"r", b"recursive r"),
    (ORDER, b"top", b"D C B A E F "),
    (ORDER, b"mid", b"C B A E "),
    (ROUND, b"top", b"recursive c"),
];

#[test]
fn tells_the_cells_of_small_files(rt: HostRuntime) -> Result<(), Fail> {
    for row in FILES.as_slice() {
        assert!(rt; row.0.len() < 1 << 20);
        let text = told(rt.alloc(), row.0, row.1)?;
        assert_eq!(rt; text.bytes(), row.2);
    }
    Ok(())
}
