//! Names in SPEF and SDF with what they stand for, and a table of names.
use edge_io::Text;
use name_table::{Names, SpefMarks, canonical_sdf, escape_sdf, read_spef_node, written_name};
use std::test::Fail;

/// The marks of a file that names none.
const USUAL: SpefMarks = SpefMarks {
    divider: b'/',
    delimiter: b':',
    left: b'[',
    right: b']',
};

const ANGLES: SpefMarks = SpefMarks {
    divider: b'.',
    delimiter: b'|',
    left: b'<',
    right: b'>',
};

const BRACES: SpefMarks = SpefMarks {
    divider: b'.',
    delimiter: b':',
    left: b'{',
    right: b'}',
};

const ROUNDS: SpefMarks = SpefMarks {
    divider: b'/',
    delimiter: b':',
    left: b'(',
    right: b')',
};

const LEFT_DIVIDES: SpefMarks = SpefMarks {
    divider: b'|',
    delimiter: b':',
    left: b'|',
    right: b']',
};

const RIGHT_IS_LEFT: SpefMarks = SpefMarks {
    divider: b'/',
    delimiter: b':',
    left: b'|',
    right: b'|',
};

const DIVIDER_CUTS: SpefMarks = SpefMarks {
    divider: b'/',
    delimiter: b'/',
    left: b'[',
    right: b']',
};

/// Marks, whether to cut, a word; and its head, its tail and its spelling in SDF.
type Node<'a> = (
    SpefMarks,
    bool,
    &'a [u8],
    &'a [u8],
    Option<&'a [u8]>,
    &'a [u8],
);

const NODES: [Node<'static>; 19] = [
    // The last delimiter that no backslash takes.
    (
        USUAL,
        true,
        b"u1/g[3]:A",
        b"u1/g[3]",
        Some(b"A"),
        b"u1/g[3]/A",
    ),
    (
        USUAL,
        true,
        b"u1/g\\[3\\]:A",
        b"u1/g[3]",
        Some(b"A"),
        b"u1/g\\[3\\]/A",
    ),
    (
        USUAL,
        true,
        b"a\\:b:c:d",
        b"a:b:c",
        Some(b"d"),
        b"a\\:b\\:c/d",
    ),
    (
        USUAL,
        true,
        b"top/u\\.1/q[2]:Y",
        b"top/u.1/q[2]",
        Some(b"Y"),
        b"top/u\\.1/q[2]/Y",
    ),
    (USUAL, true, b"a\\\\:b", b"a\\", Some(b"b"), b"a\\\\/b"),
    (USUAL, true, b":a", b"", Some(b"a"), b"/a"),
    (USUAL, true, b"a:", b"a", Some(b""), b"a/"),
    // A head alone.
    (USUAL, true, b"n", b"n", None, b"n"),
    (USUAL, true, b"a\\/b", b"a/b", None, b"a\\/b"),
    (USUAL, true, b"\\a\\_1\\:x", b"a_1:x", None, b"a_1\\:x"),
    (USUAL, true, b"\xe9/x", b"\xe9/x", None, b"\\\xe9/x"),
    (USUAL, false, b"n:1", b"n:1", None, b"n\\:1"),
    // Marks of the file's own.
    (
        ANGLES,
        true,
        b"u.g<3>|Q/[x]",
        b"u/g[3]",
        Some(b"Q/[x]"),
        b"u/g[3]/Q\\/\\[x\\]",
    ),
    (
        BRACES,
        true,
        b"u.g{3}:A",
        b"u/g[3]",
        Some(b"A"),
        b"u/g[3]/A",
    ),
    (
        ROUNDS,
        true,
        b"g(3):A[0]",
        b"g[3]",
        Some(b"A[0]"),
        b"g[3]/A\\[0\\]",
    ),
    // Marks that are one byte: the divider counts, and then the left one.
    (
        LEFT_DIVIDES,
        true,
        b"a|3]:b",
        b"a/3]",
        Some(b"b"),
        b"a/3]/b",
    ),
    (
        RIGHT_IS_LEFT,
        true,
        b"a|3|:b",
        b"a[3[",
        Some(b"b"),
        b"a[3[/b",
    ),
    (DIVIDER_CUTS, true, b"a/b/c", b"a/b", Some(b"c"), b"a/b/c"),
    (DIVIDER_CUTS, false, b"a/b/c", b"a/b/c", None, b"a/b/c"),
];

fn is_tail(tail: &Option<Text>, wanted: Option<&[u8]>) -> bool {
    match (tail, wanted) {
        (Some(tail), Some(wanted)) => tail.bytes() == wanted,
        (None, None) => true,
        _ => false,
    }
}

#[test]
fn nodes_of_spef_are_read(rt: HostRuntime) -> Result<(), Fail> {
    for (marks, cut, word, head, tail, sdf) in NODES {
        let node = read_spef_node(rt.alloc(), word, cut, &marks)?;
        assert_eq!(rt; node.head.bytes(), head, "{word:?}");
        assert!(rt; is_tail(&node.tail, tail), "{word:?}");
        assert_eq!(rt; node.sdf.bytes(), sdf, "{word:?}");
    }
    Ok(())
}

/// Names that stand as they are written, whether to cut them, their parts and their spellings in SDF.
const WRITTEN: [(&[u8], bool, &[u8], Option<&[u8]>, &[u8]); 4] = [
    (b"u1/g[3]:A", true, b"u1/g[3]", Some(b"A"), b"u1/g[3]/A"),
    (b"n_1", true, b"n_1", None, b"n_1"),
    (b":a", true, b"", Some(b"a"), b"/a"),
    (b"u1/g", false, b"u1/g", None, b"u1/g"),
];

/// Names of which some byte means another, or is spelled otherwise in SDF.
const OTHERWISE: [(SpefMarks, bool, &[u8]); 4] = [
    (USUAL, true, b"u1/g\\[3\\]:A"),
    (USUAL, false, b"n:1"),
    (USUAL, true, b"a:b:c"),
    (ANGLES, true, b"u.g<3>|Q"),
];

#[test]
fn names_that_stand_as_written_are_parted(rt: HostRuntime) -> Result<(), Fail> {
    for (word, cut, head, tail, sdf) in WRITTEN {
        let found = written_name(word, cut, &USUAL);
        let parts = found.map(|name| (name.head, name.tail));
        assert!(rt; parts == Some((head, tail)), "{word:?}");
        if let Some(name) = found {
            assert_eq!(rt; name.sdf(rt.alloc())?.bytes(), sdf, "{word:?}");
        }
    }
    for (marks, cut, word) in OTHERWISE {
        assert!(rt; written_name(word, cut, &marks).is_none(), "{word:?}");
    }
    Ok(())
}

/// A name, and its spelling as one part of a path.
const PARTS: [(&[u8], &[u8]); 4] = [
    (b"", b""),
    (b"_Zz09", b"_Zz09"),
    (b"a.b/c[3]", b"a\\.b\\/c\\[3\\]"),
    (b"\xe9 \\", b"\\\xe9\\ \\\\"),
];

#[test]
fn parts_of_paths_are_escaped(rt: HostRuntime) -> Result<(), Fail> {
    for (name, sdf) in PARTS {
        assert_eq!(rt; escape_sdf(rt.alloc(), name)?.bytes(), sdf);
    }
    Ok(())
}

/// A name in a file of SDF, the file's divider, and the name's canonical spelling.
const SPELLINGS: [(&[u8], u8, &[u8]); 8] = [
    (b"a.b", b'.', b"a/b"),
    (b"a/b", b'.', b"a\\/b"),
    (b"a\\/b.c", b'.', b"a\\/b/c"),
    (b"\\a\\.b", b'.', b"a\\.b"),
    (b"q[3]", b'/', b"q[3]"),
    (b"q\\[3\\]", b'/', b"q\\[3\\]"),
    (b"u1/\\g\\-2[0]/Q", b'/', b"u1/g\\-2[0]/Q"),
    (b"\xe9-a\\\\", b'/', b"\\\xe9\\-a\\\\"),
];

#[test]
fn names_of_sdf_have_one_spelling(rt: HostRuntime) -> Result<(), Fail> {
    for (word, divider, sdf) in SPELLINGS {
        assert_eq!(rt; canonical_sdf(rt.alloc(), word, divider)?.bytes(), sdf);
    }
    Ok(())
}

#[test]
fn texts_are_numbered_in_the_order_in_which_they_come(rt: HostRuntime) -> Result<(), Fail> {
    let mut names = Names::new(rt.alloc());
    assert!(rt; names.is_empty());
    let first = names.intern(b"u1/A")?;
    let second = names.intern(b"u1")?;
    assert_eq!(rt; (first.0, second.0), (0, 1));
    assert_eq!(rt; names.find(b"u1/A").map(|id| id.0), Some(0));
    assert_eq!(rt; names.find(b"u1").map(|id| id.0), Some(1));
    assert!(rt; names.find(b"u").is_none());
    assert_eq!(rt; names.text(second), b"u1".as_slice());
    Ok(())
}
