//! A grid at one corner.
use corner_set::{Grid, Single};
use std::test::Fail;

#[test]
fn a_grid_of_one_corner_keeps_what_was_set(rt: HostRuntime) -> Result<(), Fail> {
    let mut grid = Grid::<Single, i64>::with_rows(rt.alloc(), 3, 7)?;
    assert_eq!(rt; grid.rows(), 3);
    assert_eq!(rt; grid.room(), 3);
    grid.set(1, (), -5);
    assert_eq!(rt; grid.as_slice(), [7, -5, 7].as_slice());
    assert_eq!(rt; grid.get(1, ()), -5);
    grid.reuse(2, 0);
    assert_eq!(rt; grid.as_slice(), [0, 0].as_slice());
    assert_eq!(rt; grid.rows(), 2);
    assert_eq!(rt; grid.room(), 3);
    Ok(())
}
