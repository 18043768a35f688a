//! Texts, and streams in memory and of the system.
use edge_io::{Failed, MemSink, StdErr, StdOut, Text, TextList, write_5, write_all};
use std::test::Fail;

#[test]
fn texts_grow_and_stand_in_lists(rt: HostRuntime) -> Result<(), Fail> {
    let mut first = Text::from_bytes(rt.alloc(), b"ab")?;
    first.push_all(b"cd")?;
    assert_eq!(rt; first.bytes(), b"abcd".as_slice());
    assert!(rt; Text::new(rt.alloc()).is_empty());
    let mut list = TextList::new(rt.alloc());
    list.push(first)?;
    list.push(Text::from_bytes(rt.alloc(), b"e")?)?;
    assert_eq!(rt; list.len(), 2);
    let lengths = list.as_slice().iter().map(|text| text.len());
    assert!(rt; lengths.eq([4, 1].iter().copied()));
    Ok(())
}

#[test]
fn writing_is_cut_at_a_fault(rt: HostRuntime) -> Result<(), Fail> {
    let mut bytes = Vec::new(rt.alloc());
    bytes.resize(100, b'x')?;
    let mut sink = MemSink::new(rt.alloc(), 64, 1000)?;
    sink.fail_at(2)?;
    assert!(rt; matches!(write_all(&mut sink, bytes.as_slice()), Err(Failed)));
    assert_eq!(rt; sink.written().len(), 64);
    assert!(rt; write_5(&mut sink, b"a", b"bc", b"", b"d", b"e").is_ok());
    assert_eq!(rt; sink.written().len(), 69);
    Ok(())
}

#[test]
fn the_streams_of_the_system_are_written(rt: HostRuntime) {
    assert!(rt; write_all(&mut StdOut::new(rt.stdout()), b"out\n").is_ok());
    assert!(rt; write_all(&mut StdErr::new(rt.stderr()), b"err\n").is_ok());
}
