//! The largest sizes. The lengths come from another generator. `rt try` gives up on the block.
use std::test::Fail;
use trial_files::{block_files, chain_files};

#[test]
fn the_longest_chain_is_written(rt: HostRuntime) -> Result<(), Fail> {
    let files = chain_files(rt.alloc(), 600000)?;
    assert_eq!(rt; files.spef.len(), 26444686);
    Ok(())
}

#[test]
fn the_largest_block_is_written(rt: HostRuntime) -> Result<(), Fail> {
    let files = block_files(rt.alloc(), 600000)?;
    assert_eq!(rt; files.netlist.len(), 23666721);
    assert_eq!(rt; files.spef.len(), 64133500);
    Ok(())
}
