//! Readings in a unit at ties and at the bound, units at their seven digits, and halves rounded up.
use delay_units::{
    Amount, Farads, Ohms, SignedAmount, Unit, half_up, read_amount, read_decimal,
    read_leading_amount, read_signed_amount, scale, unit,
};
use std::test::Fail;

/// A literal, the exponent of a unit of mantissa 1, and the capacitance in grains, where it is within the bound.
const READINGS: [(&[u8], i32, Option<i128>); 11] = [
    (b"0.5", 0, Some(1)),
    (b"-0.5", 0, Some(0)),
    (b"-1.5", 0, Some(-1)),
    (b"0.4999", 0, Some(0)),
    (b"1", Farads::FEMTOFARAD_POWER, Some(1_000_000)),
    (
        b"-1000000",
        Farads::FEMTOFARAD_POWER,
        Some(-1_000_000_000_000),
    ),
    (
        b"1000000.0000001",
        Farads::FEMTOFARAD_POWER,
        Some(1_000_000_000_000),
    ),
    (b"1000000.000001", Farads::FEMTOFARAD_POWER, None),
    (b"-1000000.000001", Farads::FEMTOFARAD_POWER, None),
    (b"1e99", 99, None),
    (b"0e99", 99, Some(0)),
];

/// The grains of what a text reads as in a unit, where they are within the bound of a capacitance.
fn grains(unit: &Unit, text: &[u8]) -> Option<i128> {
    match read_signed_amount(unit, Farads::MOST as u128, text) {
        SignedAmount::Within(grains) => Some(grains),
        _ => None,
    }
}

#[test]
fn readings_round_half_up_and_keep_the_bound(rt: HostRuntime) -> Result<(), Fail> {
    for (text, exponent, expected) in READINGS {
        assert!(rt; -99 <= exponent && exponent <= 99);
        let one = Unit {
            mantissa: 1,
            exponent,
        };
        assert!(rt; grains(&one, text) == expected, "{text:?}");
    }
    let three_tenths = Unit {
        mantissa: 3,
        exponent: -1,
    };
    assert!(rt; grains(&three_tenths, b"2.5") == Some(1));
    let least = Unit {
        mantissa: 9_999_999,
        exponent: -99,
    };
    assert!(rt; grains(&least, b"123456789012345678901234567891e-99") == Some(0));
    Ok(())
}

#[test]
fn amounts_tell_each_case(rt: HostRuntime) -> Result<(), Fail> {
    let one = Unit {
        mantissa: 1,
        exponent: 0,
    };
    assert!(rt; matches!(read_amount(&one, 9, b"x"), Amount::Unread));
    assert!(rt; matches!(read_amount(&one, 9, b"-0.6"), Amount::Below));
    assert!(rt; matches!(read_amount(&one, 9, b"-0.5"), Amount::Within(0)));
    assert!(rt; matches!(read_amount(&one, 9, b"9.4"), Amount::Within(9)));
    assert!(rt; matches!(read_amount(&one, 9, b"9.5"), Amount::Past));
    assert!(rt; matches!(read_signed_amount(&one, 9, b"1e-100"), SignedAmount::Unread));
    assert!(rt; matches!(read_signed_amount(&one, 9, b"-9.6"), SignedAmount::Below));
    assert!(rt;
        matches!(
            read_signed_amount(&one, 9, b"-9.5"),
            SignedAmount::Within(-9)
        )
    );
    assert!(rt; matches!(read_signed_amount(&one, 9, b"10"), SignedAmount::Past));
    assert!(rt; scale(&read_decimal(b"-9.5")?, &one, 9) == Some(-9));
    assert!(rt; scale(&read_decimal(b"-9.6")?, &one, 9) == None);
    Ok(())
}

/// A text, the grains of the literal in front of it where they are from 0 to 9, and how many bytes are behind it.
const LEADING: [(&[u8], Option<u64>, usize); 19] = [
    (b"1.5:2.0:2.5", Some(2), 8),
    (b"7", Some(7), 0),
    (b"9.4e0:", Some(9), 1),
    (b"1e-1e", Some(0), 1),
    (b"0000000000000000003.2.1", Some(3), 2),
    (b"0.00000000000000007", Some(0), 0),
    (b"700000000000000000e-17", Some(7), 0),
    (b"7000000000000000000e-18.", Some(7), 1),
    (b"12345678901234567890.5e-19:", Some(1), 1),
    (b"5.000000000000000000000000000000000000", Some(5), 0),
    (b"00000000000000000.05e2", Some(5), 0),
    (b"000000000000000000.7e1", Some(7), 0),
    (b".5e-3", Some(0), 0),
    (b"0e5", Some(0), 0),
    (b"000.e99", Some(0), 0),
    (b"9.5:1", None, 2),
    (b"-1:1", None, 2),
    (b"1e100;", None, 1),
    (b"1234567890123456789012345678912 ", None, 1),
];

#[test]
fn the_literal_in_front_is_read(rt: HostRuntime) {
    let one = Unit {
        mantissa: 1,
        exponent: 0,
    };
    for (text, grains, behind) in LEADING {
        match read_leading_amount(&one, 9, text) {
            Some((Amount::Within(found), rest)) => {
                assert!(rt; Some(found) == grains && rest.len() == behind, "{text:?}");
            }
            Some((_, rest)) => assert!(rt; grains == None && rest.len() == behind, "{text:?}"),
            None => assert!(rt; false, "{text:?}"),
        }
    }
    assert!(rt; matches!(read_leading_amount(&one, 9, b":1"), None));
}

/// A literal and the unit that it names in ohms, kilohms or the like, by mantissa and exponent.
const UNITS: [(&[u8], i32, Option<(u32, i32)>); 7] = [
    (b"1", Ohms::KILOOHM_POWER, Some((1, 9))),
    (b"1234567", 0, Some((1_234_567, 0))),
    (b"12345678", 0, None),
    (b"0", 0, None),
    (b"-1", 0, None),
    (b"1e99", 1, None),
    (b"1e-99", 0, Some((1, -99))),
];

#[test]
fn units_have_seven_digits(rt: HostRuntime) -> Result<(), Fail> {
    for (text, power, parts) in UNITS {
        assert!(rt; -99 <= power && power <= 99);
        let found = unit(&read_decimal(text)?, power);
        assert!(rt;
            found.map(|unit| (unit.mantissa, unit.exponent)) == parts,
            "{text:?}"
        );
    }
    Ok(())
}

#[test]
fn ties_go_to_the_greater(rt: HostRuntime) {
    assert_eq!(rt; half_up(3, 2), 2);
    assert_eq!(rt; half_up(-3, 2), -1);
    assert_eq!(rt; half_up(-1, 2), 0);
}
