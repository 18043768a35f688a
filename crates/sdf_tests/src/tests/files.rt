//! Small files and what is answered to them. The expected answers are another reader's of the same grammar.
use super::{accepted_files, refused_files};
use edge_io::{MemSink, OutOfMemory, Text};
use sdf_reader::{SdfCause, SdfEnd, print_rows, print_summary, read};
use std::alloc::Global;
use std::process::Abort;
use std::test::Fail;

/// A file with these entries of the cell `u1`.
fn file_of(alloc: Global, entries: &[u8]) -> Result<Text, OutOfMemory> {
    let head = b"(DELAYFILE (CELL (CELLTYPE \"INV\") (INSTANCE u1) (DELAY (ABSOLUTE ";
    let mut file = Text::from_bytes(alloc, head)?;
    file.push_all(entries)?;
    file.push_all(b"))))")?;
    Ok(file)
}

/// These lines are told of a file.
pub fn tells(rt: &impl Abort, alloc: Global, file: &[u8], lines: &[u8]) -> Result<(), Fail> {
    assert!(rt; file.len() < 1 << 20);
    match read(alloc, file) {
        Ok(rows) => {
            let mut sink = MemSink::new(alloc, 100, 1000)?;
            assert!(rt; print_rows(&rows, &mut sink).is_ok());
            assert!(rt; print_summary(&rows, &mut sink).is_ok());
            assert!(rt; sink.written() == lines);
            Ok(())
        }
        Err(_) => Err(Fail::from("rows")),
    }
}

/// The place of a cause among the others.
fn place_of(cause: SdfCause) -> u8 {
    match cause {
        SdfCause::BadByte => 0,
        SdfCause::OpenText => 1,
        SdfCause::OpenComment => 2,
        SdfCause::Unexpected => 3,
        SdfCause::EndInside => 4,
        SdfCause::BadNumber => 5,
    }
}

/// A file is refused for its token of this number, and for this cause.
fn refuses(rt: &impl Abort, alloc: Global, file: &[u8], number: u64, why: SdfCause) {
    assert!(rt; file.len() < 1 << 20);
    match read(alloc, file) {
        Err(SdfEnd::Syntax { token, cause }) => {
            assert!(rt; token == number && place_of(cause) == place_of(why));
        }
        _ => assert!(rt; false),
    }
}

#[test]
fn tells_the_rows_of_the_accepted_files(rt: HostRuntime) -> Result<(), Fail> {
    for (file, lines) in accepted_files::FILES {
        tells(&rt, rt.alloc(), file, lines)?;
    }
    for (entries, lines) in accepted_files::ENTRIES {
        let file = file_of(rt.alloc(), entries)?;
        tells(&rt, rt.alloc(), file.bytes(), lines)?;
    }
    Ok(())
}

#[test]
fn refuses_the_refused_files(rt: HostRuntime) -> Result<(), Fail> {
    for (file, number, cause) in refused_files::FILES {
        refuses(&rt, rt.alloc(), file, number, cause);
    }
    for (entries, number, cause) in refused_files::ENTRIES {
        let file = file_of(rt.alloc(), entries)?;
        refuses(&rt, rt.alloc(), file.bytes(), number, cause);
    }
    Ok(())
}
