//! Texts, and the number that each is or where it stops to be one.
use delay_units::{NumberFault, behind_literal, is_literal, read_decimal, strip};
use std::test::Fail;

/// A literal, its digits, and the power of ten that they are of.
const LITERALS: [(&[u8], i128, i128); 11] = [
    (b"-0", 0, 0),
    (b"+0.000", 0, 0),
    (b"007", 7, 0),
    (b"5.", 5, 0),
    (b"-.5", -5, -1),
    (b"12.50e+3", 125, 2),
    (b"1E-99", 1, -99),
    (b"1e0000099", 1, 99),
    // Thirty digits, alone and between zeros.
    (
        b"123456789012345678901234567891",
        123_456_789_012_345_678_901_234_567_891,
        0,
    ),
    (
        b"000123456789012345678901234567891000",
        123_456_789_012_345_678_901_234_567_891,
        3,
    ),
    (
        b"0.00000123456789012345678901234567891",
        123_456_789_012_345_678_901_234_567_891,
        -35,
    ),
];

/// What is no number that is read, and why: for what is no literal, the length of the longest front that begins one.
const REFUSED: [(&[u8], NumberFault); 14] = [
    (
        b"1234567890123456789012345678912",
        NumberFault::TooManyDigits,
    ),
    (
        b"1234567890123456789012345678912e100",
        NumberFault::TooManyDigits,
    ),
    (b"1e100", NumberFault::ExponentTooLarge),
    (b"0e-100", NumberFault::ExponentTooLarge),
    (b"", NumberFault::NotANumber(0)),
    (b"x", NumberFault::NotANumber(0)),
    (b".", NumberFault::NotANumber(1)),
    (b"-.", NumberFault::NotANumber(2)),
    (b"--1", NumberFault::NotANumber(1)),
    (b"1e", NumberFault::NotANumber(2)),
    (b"1e+", NumberFault::NotANumber(3)),
    (b"1.2.3", NumberFault::NotANumber(3)),
    (b"1e5.", NumberFault::NotANumber(3)),
    (
        b"1234567890123456789012345678912x",
        NumberFault::NotANumber(31),
    ),
];

/// A text, and how many bytes the longest front of it has that is a literal, where one is.
const FRONTS: [(&[u8], Option<usize>); 14] = [
    (b"12", Some(2)),
    (b"1.5:2.0:2.5", Some(3)),
    (b"-.5x", Some(3)),
    (b"5.:", Some(2)),
    (b"1.2.3", Some(3)),
    (b"1e5.", Some(3)),
    (b"+2E-07:", Some(6)),
    // A mark with no digit behind it and its sign is no exponent.
    (b"1e+:2", Some(1)),
    (b"1e", Some(1)),
    (b"1234567890123456789012345678912:", Some(31)),
    (b"", None),
    (b".:1", None),
    (b"-+1", None),
    (b"x1", None),
];

#[test]
fn the_literal_in_front_is_the_longest(rt: HostRuntime) {
    for (text, count) in FRONTS {
        let found = behind_literal(text).map(|rest| text.len().saturating_sub(rest.len()));
        assert!(rt; found == count, "{text:?}");
        assert!(rt; is_literal(text) == (count == Some(text.len())), "{text:?}");
    }
    assert!(rt; strip(b":2", b':') == Some(b"2"));
    assert!(rt; strip(b"2:", b':') == None);
}

#[test]
fn literals_are_read(rt: HostRuntime) -> Result<(), Fail> {
    for (text, digits, exponent) in LITERALS {
        let number = read_decimal(text)?;
        assert_eq!(rt; number.digits, digits, "{text:?}");
        assert_eq!(rt; number.exponent, exponent, "{text:?}");
    }
    Ok(())
}

/// A fault as a word and a length, so that two can be compared.
fn said(fault: NumberFault) -> (&'static str, usize) {
    match fault {
        NumberFault::NotANumber(begun) => ("no number", begun),
        NumberFault::TooManyDigits => ("too many digits", 0),
        NumberFault::ExponentTooLarge => ("too large an exponent", 0),
    }
}

#[test]
fn other_texts_are_refused(rt: HostRuntime) -> Result<(), Fail> {
    for (text, fault) in REFUSED {
        let found = read_decimal(text).err().ok_or("a fault")?;
        assert_eq!(rt; said(found), said(fault), "{text:?}");
    }
    Ok(())
}
