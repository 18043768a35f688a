//! Groups of small files. The expected answers are another reader's of the same grammar.
ghost use Rattle.liberty_groups.specs.Tables.{IsGroup};

use edge_io::{OutOfMemory, Text};
use liberty_groups::{GroupId, GroupTree, parse};
use std::alloc::Global;

/// The names of attributes that are told.
const KEYS: [&[u8]; 4] = [b"a", b"b", b"t", b"library"];

/// Files with the tables of their trees: for each group its name behind `=`, its arguments behind `(`, the numbers of the
/// groups in it behind `>`, counted on from `0`, and for each of the names above that it has an attribute of, the name behind
/// `#` and the values of the last behind `:`.
const ROWS: [(&[u8], &[u8]); 10] = [
    (b"library () {}", b"=library"),
    (b"library (x) { a : 1\n b : 2; };;\n", b"=library(x#a:1#b:2"),
    (b"library (a, b \"c d\") { ; ; }", b"=library(a(b(c d"),
    (
        b"library (x) { t : \"a\\\nb\\\t\r\nc\\\"d\\e\" }",
        b"=library(x#t:abc\"d\\e",
    ),
    (
        b"/* a */library// b\n(/* c */x)/**/{a:/* \n */1/* d\n */b(c)d(){}}",
        b"=d=library(x>0#a:1#b:c",
    ),
    (
        b"library (x) { a : b[1:2] c[d[e:f]:g] 1.5e-3 }",
        b"=library(x#a:b[1:2] c[d[e:f]:g] 1.5e-3",
    ),
    (
        b"library (x) { a : 1 + 2 * \"x\" \\\n y ; g (1) { a : 1; a : 2 \n } }",
        b"=g(1#a:2=library(x>0#a:1 + 2 * x y",
    ),
    (
        b"library(x){a:\"\";b(){library:/b*c/d\n}}",
        b"=b#library:/b*c/d=library(x>0#a:",
    ),
    (
        b"library (x) { a (1, 2); g (p, q) { h (r) { a : 5; } b : 6; k () {} } b : 7; a : 8; g (z) { a (\"9, 10\", 11, \"\") } }",
        b"=h(r#a:5=k=g(p(q>0>1#b:6=g(z#a:9, 10:11:=library(x>2>3#a:8#b:7",
    ),
    (
        b"library(x){g(){g(){g(){g(){g(){g(){g(){g(){g(){g(){g(){g(){g(){g(){g(){a:1}b:2}}}}}}}}}}}}}}}",
        b"=g#a:1=g>0#b:2=g>1=g>2=g>3=g>4=g>5=g>6=g>7=g>8=g>9=g>:=g>;=g><=g>==library(x>>",
    ),
];

/// The last attribute of a name.
fn tell_attribute(
    text: &mut Text,
    tree: &GroupTree,
    g: GroupId,
    key: &[u8],
) -> Result<(), OutOfMemory>
    requires { IsGroup tree.now g.0 }
{
    let Some(a) = tree.attribute(g, key) else {
        return Ok(());
    };
    text.push_all(b"#")?;
    text.push_all(key)?;
    for i in 0..tree.value_count(a) {
        text.push_all(b":")?;
        text.push_all(tree.value(a, i).bytes())?;
    }
    Ok(())
}

/// The name and the arguments of a group.
fn tell_head(text: &mut Text, tree: &GroupTree, g: GroupId) -> Result<(), OutOfMemory>
    requires { IsGroup tree.now g.0 }
{
    text.push_all(b"=")?;
    text.push_all(tree.name(g).bytes())?;
    for i in 0..tree.arg_count(g) {
        text.push_all(b"(")?;
        text.push_all(tree.arg(g, i).bytes())?;
    }
    Ok(())
}

/// The numbers of the groups in a group.
fn tell_inner(text: &mut Text, tree: &GroupTree, g: GroupId) -> Result<(), OutOfMemory>
    requires { IsGroup tree.now g.0 }
{
    for i in 0..tree.child_count(g) {
        let inner = tree.child(g, i).0;
        text.push_all(&[b'>', b'0' + (inner % 64) as u8])?;
    }
    Ok(())
}

fn tell_group(text: &mut Text, tree: &GroupTree, g: GroupId) -> Result<(), OutOfMemory>
    requires { IsGroup tree.now g.0 }
{
    tell_head(text, tree, g)?;
    tell_inner(text, tree, g)?;
    for key in &KEYS {
        tell_attribute(text, tree, g, key)?;
    }
    Ok(())
}

/// All groups, in the order of their numbers.
fn tell_tree(alloc: Global, tree: &GroupTree) -> Result<Text, OutOfMemory> {
    let mut text = Text::new(alloc);
    let last = tree.root().0;
    for number in 0..last {
        tell_group(&mut text, tree, GroupId(number))?;
    }
    tell_group(&mut text, tree, GroupId(last))?;
    Ok(text)
}

fn is_told(alloc: Global, file: &[u8], told: &[u8]) -> bool {
    if file.len() >= 1 << 20 {
        return false;
    }
    match parse(alloc, file) {
        Ok(tree) => match tell_tree(alloc, &tree) {
            Ok(text) => text.bytes() == told,
            Err(_) => false,
        },
        Err(_) => false,
    }
}

/// The first file whose tree is told otherwise.
fn first_other(alloc: Global) -> Option<usize> {
    for (number, row) in ROWS.iter().enumerate() {
        if !is_told(alloc, row.0, row.1) {
            return Some(number);
        }
    }
    None
}

#[test]
fn tells_the_tables_of_trees(rt: HostRuntime) {
    assert_eq!(rt; first_other(rt.alloc()), None);
}
