//! Files in memory and of the system, with faults.
use edge_io::{FileShelf, MemShelf, ReadEnd, Shelf, Text, read_file};
use std::alloc::Global;
use std::test::Fail;

/// What reading a file of this name says, up to four bytes.
fn read<S: Shelf>(alloc: Global, shelf: &mut S, name: &[u8]) -> Result<Text, ReadEnd> {
    let Ok(name) = Text::from_bytes(alloc, name) else {
        return Err(ReadEnd::OutOfMemory);
    };
    read_file(alloc, shelf, &name, 4)
}

#[test]
fn files_are_read_up_to_the_limit(rt: HostRuntime) -> Result<(), Fail> {
    let alloc = rt.alloc();
    let mut shelf = MemShelf::new(alloc, 3);
    shelf.put(
        Text::from_bytes(alloc, b"four")?,
        Text::from_bytes(alloc, b"old")?,
    )?;
    shelf.put(
        Text::from_bytes(alloc, b"five")?,
        Text::from_bytes(alloc, b"12345")?,
    )?;
    shelf.put(
        Text::from_bytes(alloc, b"four")?,
        Text::from_bytes(alloc, b"1234")?,
    )?;

    // Calls 1 to 4: one `open`, a read of three bytes, one of one byte, one at the end.
    let four = read(alloc, &mut shelf, b"four").ok().ok_or("four bytes")?;
    assert_eq!(rt; four.bytes(), b"1234".as_slice());

    // Calls 5 to 7, and 8, which finds no such file.
    assert!(rt; matches!(read(alloc, &mut shelf, b"five"), Err(ReadEnd::TooLong)));
    assert!(rt; matches!(read(alloc, &mut shelf, b"six"), Err(ReadEnd::ReadFault)));

    // Calls 9, 10 and 11, of which the last fails.
    shelf.fail_at(11)?;
    assert!(rt; matches!(read(alloc, &mut shelf, b"four"), Err(ReadEnd::ReadFault)));
    Ok(())
}

#[test]
fn faults_of_the_system_are_read_faults(rt: HostRuntime) {
    let mut shelf = FileShelf::new(rt);
    // No UTF-8, and a directory.
    assert!(rt;
        matches!(
            read(rt.alloc(), &mut shelf, b"\xff"),
            Err(ReadEnd::ReadFault)
        )
    );
    assert!(rt; matches!(read(rt.alloc(), &mut shelf, b"."), Err(ReadEnd::ReadFault)));
}
