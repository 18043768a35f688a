//! Words, with what they ask for or their first fault. The faults are worked from the tables of commands and keys.
use super::put_words;
use corner_set::{Beyond, Missing, Pick, WireSlew};
use edge_io::{OutOfMemory, Text};
use gdc_words::{
    Asked, Command, Key, Libraries, UsageFault, UsageKind, Words, WordsEnd, help_text, read_words,
    version_text,
};
use std::alloc::Global;
use std::process::Abort;
use std::test::Fail;

/// Words, one a line, with the kind and the place of their first fault.
const FAULTS: [(&[u8], UsageKind, usize); 56] = [
    (b"", UsageKind::NoCommand, 1),
    (b"\n", UsageKind::UnknownCommand, 1),
    (b"wire\n", UsageKind::UnknownCommand, 1),
    (b"help\n", UsageKind::UnknownCommand, 1),
    (b"Wires\n--spef\na\n", UsageKind::UnknownCommand, 1),
    (b"wires\n--spec\n", UsageKind::UnknownWord, 2),
    (b"wires\n--sdf\na\n", UsageKind::UnknownWord, 2),
    (b"wires\n--spef\na\n--nets\n3\n", UsageKind::UnknownWord, 4),
    (b"wires\n--spef\n--spef\n--spef\n", UsageKind::Repeated, 4),
    (b"wires\n--spef\na\n--triple\n", UsageKind::MissingValue, 4),
    (b"wires\n--spef\n\n", UsageKind::BadValue, 3),
    (
        b"wires\n--triple\nmid\n--spef\na\n--spef\nb\n",
        UsageKind::BadValue,
        3,
    ),
    (b"wires\n--triple\n--spef\na\n", UsageKind::BadValue, 3),
    (b"show\n--spef\na\n", UsageKind::UnknownWord, 2),
    (b"show\n--sdf\n", UsageKind::MissingValue, 2),
    (b"show\n--sdf\n\n", UsageKind::BadValue, 3),
    (b"lookup\n--slew\n1000000.000001\n", UsageKind::BadValue, 3),
    (b"lookup\n--slew\n-1\n", UsageKind::BadValue, 3),
    (b"lookup\n--slew\n1ps\n", UsageKind::BadValue, 3),
    (b"lookup\n--load\n1e100\n", UsageKind::BadValue, 3),
    (b"lookup\n--load\n--slew\n20\n", UsageKind::BadValue, 3),
    (b"lookup\n--lib\n\n", UsageKind::BadValue, 3),
    (b"lookup\n--cell\n\n", UsageKind::BadValue, 3),
    (b"lookup\n--triple\nmax\n", UsageKind::UnknownWord, 2),
    (b"lookup\n--outside\nEdge\n", UsageKind::BadValue, 3),
    (b"lookup\n--outside\n\n", UsageKind::BadValue, 3),
    (b"lookup\n--lib-min\na\n", UsageKind::UnknownWord, 2),
    (b"wires\n--outside\nedge\n", UsageKind::UnknownWord, 2),
    (
        b"wires\n--spef\na\n--lib-typ\nb\n",
        UsageKind::UnknownWord,
        4,
    ),
    (b"flat\n--top\n", UsageKind::MissingValue, 2),
    (b"flat\n--top\n\n", UsageKind::BadValue, 3),
    (
        b"flat\n--netlist\na\n--netlist\nb\n",
        UsageKind::Repeated,
        4,
    ),
    (b"flat\n--lib\na\n--lib-max\nb\n", UsageKind::UnknownWord, 4),
    (b"flat\n--outside\nedge\n", UsageKind::UnknownWord, 2),
    (b"wires\n--missing\nzero\n", UsageKind::UnknownWord, 2),
    (b"calc\n--slew\n1\n", UsageKind::UnknownWord, 2),
    (b"calc\n--lib-min\n\n", UsageKind::BadValue, 3),
    (
        b"calc\n--lib-max\na\n--lib-max\nb\n",
        UsageKind::Repeated,
        4,
    ),
    (b"flat\n--lib-min\na\n", UsageKind::UnknownWord, 2),
    (b"calc\n--input-slew\n-1\n", UsageKind::BadValue, 3),
    (b"calc\n--port-load\n1000000.1\n", UsageKind::BadValue, 3),
    (b"calc\n--missing\nnone\n", UsageKind::BadValue, 3),
    (b"calc\n--wire-slew\nzero\n", UsageKind::BadValue, 3),
    (b"calc\n--outside\nrss\n", UsageKind::BadValue, 3),
    (b"trial\n--size\n0\n", UsageKind::BadValue, 3),
    (b"trial\n--size\n600001\n", UsageKind::BadValue, 3),
    (b"trial\n--size\n4294967297\n", UsageKind::BadValue, 3),
    (b"trial\n--size\n1.0\n", UsageKind::BadValue, 3),
    (b"trial\n--size\n+1\n", UsageKind::BadValue, 3),
    (b"trial\n--size\n\n", UsageKind::BadValue, 3),
    (b"trial\n--shape\nstar\n", UsageKind::BadValue, 3),
    (b"trial\n--shape\n\n", UsageKind::BadValue, 3),
    (b"trial\n--spef\na\n", UsageKind::UnknownWord, 2),
    (b"calc\n--size\n1\n", UsageKind::UnknownWord, 2),
    (b"--help\nwires\n", UsageKind::UnknownWord, 2),
    (b"--version\n--help\n", UsageKind::UnknownWord, 2),
];

/// A kind of fault in words, so that two can be compared.
fn name_of(kind: UsageKind) -> &'static str {
    match kind {
        UsageKind::NoCommand => "no command",
        UsageKind::UnknownCommand => "unknown command",
        UsageKind::UnknownWord => "unknown word",
        UsageKind::Repeated => "repeated",
        UsageKind::MissingValue => "missing value",
        UsageKind::BadValue => "bad value",
        UsageKind::Mixed => "mixed",
        UsageKind::MissingKey => "missing key",
    }
}

fn words_of(alloc: Global, lines: &[u8]) -> Result<Words, OutOfMemory> {
    let mut words = Words::new(alloc);
    put_words(alloc, &mut words, lines)?;
    Ok(words)
}

/// The first fault of these words.
fn fault_of(alloc: Global, lines: &[u8]) -> Result<Option<UsageFault>, OutOfMemory> {
    let words = words_of(alloc, lines)?;
    match read_words(alloc, &words) {
        Ok(_) => Ok(None),
        Err(WordsEnd::Usage(fault)) => Ok(Some(fault)),
        Err(WordsEnd::OutOfMemory) => Err(OutOfMemory),
    }
}

fn read(alloc: Global, words: &Words) -> Result<Asked, OutOfMemory> {
    match read_words(alloc, words) {
        Ok(asked) => Ok(asked),
        Err(_) => Err(OutOfMemory),
    }
}

/// What words without a fault ask for.
fn asked_by(alloc: Global, lines: &[u8]) -> Result<Asked, OutOfMemory> {
    read(alloc, &words_of(alloc, lines)?)
}

/// Whether this is the value of a key.
fn has(asked: &Asked, key: &[u8], value: &[u8]) -> bool {
    match asked.value(key) {
        Some(text) => text.bytes() == value,
        None => false,
    }
}

/// The first fault of the words is one of a key, which it names.
fn try_key(
    rt: &impl Abort,
    alloc: Global,
    lines: &[u8],
    kind: UsageKind,
    key: &[u8],
) -> Result<(), Fail> {
    let fault = fault_of(alloc, lines)?.ok_or("a fault")?;
    assert_eq!(rt;
        (name_of(fault.kind), fault.place),
        (name_of(kind), 0),
        "{lines:?}"
    );
    assert!(rt;
        matches!(&fault.key, Some(named) if named.bytes() == key),
        "{lines:?}"
    );
    Ok(())
}

/// Words that lack a key, and the first that they lack.
const LACKING: [(&[u8], &[u8]); 17] = [
    (b"wires\n", b"--spef"),
    (b"wires\n--triple\nmin\n", b"--spef"),
    (b"show\n", b"--sdf"),
    (b"lookup\n--slew\n1000000\n", b"--lib"),
    (b"lookup\n--lib\na\n--slew\n1\n--load\n2\n", b"--cell"),
    (b"lookup\n--outside\nextend\n", b"--lib"),
    (b"calc\n--lib\na\n", b"--netlist"),
    (
        b"calc\n--netlist\nn\n--top\nt\n--spef\ns\n--lib\nl\n",
        b"--input-slew",
    ),
    (
        b"calc\n--netlist\nn\n--top\nt\n--spef\ns\n--input-slew\n1\n",
        b"--lib",
    ),
    (b"calc\n--lib-max\na\n", b"--netlist"),
    (
        b"calc\n--netlist\nn\n--top\nt\n--spef\ns\n--input-slew\n1\n--lib-min\na\n--lib-typ\nb\n",
        b"--lib-max",
    ),
    (
        b"calc\n--netlist\nn\n--top\nt\n--spef\ns\n--input-slew\n1\n--lib-max\na\n",
        b"--lib-min",
    ),
    (b"flat\n--lib\na\n", b"--netlist"),
    (b"flat\n--top\nt\n--netlist\nn.v\n", b"--lib"),
    (b"trial\n", b"--shape"),
    (b"trial\n--size\n1\n", b"--shape"),
    (b"trial\n--shape\nblock\n", b"--size"),
];

/// Words with keys that do not stand together, and the key that is named.
const MIXED: [(&[u8], &[u8]); 4] = [
    (b"calc\n--lib\na\n--lib-max\nb\n", b"--lib-max"),
    (
        b"calc\n--lib-max\na\n--lib-min\nb\n--lib\nc\n",
        b"--lib-min",
    ),
    (b"calc\n--triple\nmin\n--lib-typ\na\n", b"--lib-typ"),
    (
        b"calc\n--netlist\nn\n--top\nt\n--spef\ns\n--input-slew\n1\n--lib\na\n--lib-max\nb\n",
        b"--lib-max",
    ),
];

#[test]
fn the_first_fault_is_told(rt: HostRuntime) -> Result<(), Fail> {
    let alloc = rt.alloc();
    for (lines, kind, place) in FAULTS {
        let fault = fault_of(alloc, lines)?.ok_or("a fault")?;
        assert_eq!(rt;
            (name_of(fault.kind), fault.place),
            (name_of(kind), place),
            "{lines:?}"
        );
        assert!(rt; fault.key.is_none(), "{lines:?}");
    }
    for (lines, key) in LACKING {
        try_key(&rt, alloc, lines, UsageKind::MissingKey, key)?;
    }
    for (lines, key) in MIXED {
        try_key(&rt, alloc, lines, UsageKind::Mixed, key)?;
    }
    Ok(())
}

#[test]
fn words_ask_for_a_command_and_values(rt: HostRuntime) -> Result<(), Fail> {
    let alloc = rt.alloc();
    let asked = asked_by(alloc, b"wires\n--triple\nmax\n--spef\n--sdf\n")?;
    assert!(rt; matches!(asked.command(), Command::Wires));
    assert!(rt; matches!(asked.pick(), Pick::Max));
    assert!(rt; has(&asked, b"--spef", b"--sdf"));
    assert!(rt; asked.value(Key::Sdf.word()).is_none());
    let asked = asked_by(alloc, b"show\n--sdf\na.sdf\n")?;
    assert!(rt; matches!(asked.command(), Command::Show));
    assert!(rt; matches!(asked.pick(), Pick::Typ));
    assert!(rt; has(&asked, b"--sdf", b"a.sdf"));
    Ok(())
}

/// Values of decimal keys, with the grains that they read as.
const GRAINS: [(&[u8], u64); 8] = [
    (b"0", 0),
    (b"-0.0", 0),
    (b"20", 20_000_000),
    (b"+.5", 500_000),
    (b"2.0000005", 2_000_001),
    (b"-0.0000005", 0),
    (b"1e6", 1_000_000_000_000),
    (b"1000000.0000004", 1_000_000_000_000),
];

/// What the words of a look-up ask for, at this slew and at a load of 2 fF.
fn asked_at(alloc: Global, slew: &[u8]) -> Result<Asked, OutOfMemory> {
    let mut words = words_of(alloc, b"lookup\n--load\n2\n--lib\na.lib\n--cell\nINV\n")?;
    words.push(Text::from_bytes(alloc, b"--slew")?)?;
    words.push(Text::from_bytes(alloc, slew)?)?;
    read(alloc, &words)
}

#[test]
fn decimals_are_grains(rt: HostRuntime) -> Result<(), Fail> {
    let alloc = rt.alloc();
    for row in &GRAINS {
        let asked = asked_at(alloc, row.0)?;
        assert!(rt; matches!(asked.command(), Command::Lookup));
        assert_eq!(rt; asked.grains(b"--slew"), Some(row.1));
        assert_eq!(rt; asked.grains(b"--load"), Some(2_000_000));
        assert_eq!(rt; asked.grains(b"--cell"), None);
        assert_eq!(rt; asked.grains(b"--spef"), None);
    }
    Ok(())
}

/// The words of a look-up without `--outside`, and what these say that is done past the end of an axis, behind them.
const OUTSIDE: [(&[u8], &str); 4] = [
    (b"", "refuse"),
    (b"--outside\nrefuse\n", "refuse"),
    (b"--outside\nedge\n", "edge"),
    (b"--outside\nextend\n", "extend"),
];

#[test]
fn words_say_what_is_done_past_an_axis(rt: HostRuntime) -> Result<(), Fail> {
    let alloc = rt.alloc();
    for row in &OUTSIDE {
        let mut lines = Vec::new(alloc);
        lines.extend_from_slice(b"lookup\n--load\n2\n--lib\na.lib\n--cell\nINV\n--slew\n1\n")?;
        lines.extend_from_slice(row.0)?;
        let said = match asked_by(alloc, lines.as_slice())?.beyond() {
            Beyond::Refuse => "refuse",
            Beyond::Edge => "edge",
            Beyond::Extend => "extend",
        };
        assert_eq!(rt; said, row.1);
    }
    Ok(())
}

#[test]
fn flat_asks_for_its_files(rt: HostRuntime) -> Result<(), Fail> {
    let alloc = rt.alloc();
    let asked = asked_by(alloc, b"flat\n--top\ntop\n--lib\na.lib\n--netlist\nn.v\n")?;
    assert!(rt; matches!(asked.command(), Command::Flat));
    assert!(rt; has(&asked, b"--netlist", b"n.v"));
    assert!(rt; has(&asked, Key::Top.word(), b"top"));
    Ok(())
}

/// The needed words of a calculation.
const CALC: &[u8] =
    b"calc\n--netlist\nn.v\n--top\ntop\n--spef\ns.spef\n--input-slew\n20\n--lib\na.lib\n";

#[test]
fn calc_asks_for_its_settings(rt: HostRuntime) -> Result<(), Fail> {
    let alloc = rt.alloc();
    let asked = asked_by(alloc, CALC)?;
    assert!(rt; matches!(asked.command(), Command::Calc));
    assert_eq!(rt; asked.grains(b"--input-slew"), Some(20_000_000));
    assert_eq!(rt; asked.port_load(), 0);
    assert!(rt; matches!(asked.missing(), Missing::Refuse));
    assert!(rt; matches!(asked.wire_slew(), WireSlew::Same));
    assert!(rt; matches!(asked.libraries(), Libraries::One));
    let mut lines = Vec::new(alloc);
    lines.extend_from_slice(CALC)?;
    lines.extend_from_slice(b"--port-load\n1.5\n--missing\nzero\n--wire-slew\nrss\n")?;
    let asked = asked_by(alloc, lines.as_slice())?;
    assert_eq!(rt; asked.port_load(), 1_500_000);
    assert!(rt; matches!(asked.missing(), Missing::Zero));
    assert!(rt; matches!(asked.wire_slew(), WireSlew::Rss));
    Ok(())
}

#[test]
fn calc_asks_for_a_library_for_each_corner(rt: HostRuntime) -> Result<(), Fail> {
    let lines =
        b"calc\n--netlist\nn.v\n--top\ntop\n--spef\ns.spef\n--input-slew\n20\n--lib-max\nc.lib\n--lib-min\na.lib\n--lib-typ\nb.lib\n";
    let asked = asked_by(rt.alloc(), lines)?;
    assert!(rt; matches!(asked.libraries(), Libraries::EachCorner));
    assert!(rt; has(&asked, b"--lib-typ", b"b.lib"));
    assert!(rt; asked.value(b"--lib").is_none());
    Ok(())
}

#[test]
fn help_and_version_are_commands(rt: HostRuntime) -> Result<(), Fail> {
    let alloc = rt.alloc();
    assert!(rt; matches!(asked_by(alloc, b"--help\n")?.command(), Command::Help));
    assert!(rt; matches!(asked_by(alloc, b"--version\n")?.command(), Command::Version));
    assert!(rt; help_text().starts_with(b"gdc computes delays for chip sign-off"));
    assert_eq!(rt; version_text(), b"gdc 1\n".as_slice());
    Ok(())
}
