//! The slew behind a wire, of the slew before it and of the wire's Elmore sum.
use delay_units::Atto;
use wire_slews::{root, wire_slew};

/// The Elmore sums of nets are below this.
const ELMORE_END: u128 = 56_000_000_000_000_000_000_000_000_000_000_000_000;

/// The largest number whose root is asked for.
const MOST_SQUARE: u128 = 10_000_000_000_000_000_000_000_000;

/// A slew in attoseconds, an Elmore sum in 10^-27 s, and the slew behind the wire.
const SLEWS: [(i64, u128, Option<i64>); 12] = [
    // 20 ps and the wire's own 15 ps.
    (20_000_000, 6_827_492_035_000_000, Some(25_000_000)),
    (12_345_678, 9_876_543_210_987_654, Some(24_965_018)),
    (20_000_000, 0, Some(20_000_000)),
    // The wire's own slew is rounded half up: to nothing, and to an attosecond.
    (0, 227_583_067, Some(0)),
    (0, 227_583_068, Some(1)),
    // Up to a microsecond, and past it.
    (1_000_000_000_000, 0, Some(1_000_000_000_000)),
    (
        1_000_000_000_000,
        643_500_000_000_000,
        Some(1_000_000_000_000),
    ),
    (1_000_000_000_000, 643_707_290_000_000, None),
    (1_000_000_000_000, 6_827_492_035_000_000, None),
    (
        600_000_000_000,
        364_132_908_511_606_736_914,
        Some(1_000_000_000_000),
    ),
    (0, 1_000_000_000_000_000_000_000, None),
    (0, 50_000_000_000_000_000_000_000_000_000_000_000_000, None),
];

/// Numbers and their roots.
const ROOTS: [(u128, u128); 6] = [
    (0, 0),
    (3, 1),
    (4, 2),
    (15_241_578_750_190_520, 123_456_788),
    (15_241_578_750_190_521, 123_456_789),
    (10_000_000_000_000_000_000_000_000, 3_162_277_660_168),
];

#[test]
fn wires_change_slews(rt: HostRuntime) {
    for (before, elmore, behind) in SLEWS {
        assert!(rt; 0 <= before && before <= Atto::MOST && elmore < ELMORE_END);
        let found = wire_slew(Atto(before), elmore).map(|slew| slew.0);
        assert_eq!(rt; found, behind, "{before} {elmore}");
    }
}

#[test]
fn roots_are_rounded_down(rt: HostRuntime) {
    for (number, wanted) in ROOTS {
        assert!(rt; number <= MOST_SQUARE);
        assert_eq!(rt; root(number), wanted);
    }
}
