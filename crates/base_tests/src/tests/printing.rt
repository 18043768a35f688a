//! Times, and how they are printed in picoseconds.
use delay_units::{Atto, Femto, Text32, write_atto, write_femto};

/// Femtoseconds, and what is printed of them.
const FEMTOSECONDS: [(i128, &[u8]); 6] = [
    (0, b"0.000"),
    (999, b"0.999"),
    (1000, b"1.000"),
    (-1, b"-0.001"),
    (-1500, b"-1.500"),
    (-Femto::MOST_PRINTED, b"-1000000000000000000000000.000"),
];

/// Attoseconds, and what is printed of them.
const ATTOSECONDS: [(i64, &[u8]); 4] = [
    (-1, b"-0.000001"),
    (1_000_000, b"1.000000"),
    (i64::MAX, b"9223372036854.775807"),
    (i64::MIN, b"-9223372036854.775808"),
];

#[test]
fn times_are_printed_in_picoseconds(rt: HostRuntime) {
    for (time, expected) in FEMTOSECONDS {
        assert!(rt; -Femto::MOST_PRINTED <= time && time <= Femto::MOST_PRINTED);
        let mut text = Text32::new();
        write_femto(Femto(time), &mut text);
        assert_eq!(rt; text.as_bytes(), expected);
    }
    for (time, expected) in ATTOSECONDS {
        let mut text = Text32::new();
        write_atto(Atto(time), &mut text);
        assert_eq!(rt; text.as_bytes(), expected);
    }
}
