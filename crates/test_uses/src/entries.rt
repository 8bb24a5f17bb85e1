//! Entries that are renumbered where they stand.
use crate::asserts::is;
use scale_info_passes::entries::{index_entries, renumber_entries};
use std::alloc::Global;
use std::test::Fail;
use test_common::rows::row_bytes;

/// `bool`, `(u32, [u8; 32], bool)`, `u32`, `[u8; 32]`, `u8` and `String`, without their count.
const ENTRIES: &str = "\
    000000050000 040000040c080c0000 080000050500 0c000003200000001000 100000050300 140000050200";

/// The second of them with what it refers to, in the order of the references.
const KEPT: &str = "\
    000000040c04081000 040000050500 08000003200000000c00 0c0000050300 100000050000";

/// The first five of six entries, renumbered, the first of them last.
fn kept(alloc: Global, input: &[u8], numbers: &[u32]) -> Result<Vec<u8>, Fail> {
    let Some((index, _)) = index_entries(alloc, 6, input)? else {
        return Err(Fail::new("no entries"));
    };
    let offsets = index.offsets.as_slice();
    if offsets.len() < 6 {
        return Err(Fail::new("an offset is missing"));
    }
    let mut output = Vec::new(alloc);
    renumber_entries(
        alloc,
        input,
        offsets,
        numbers,
        &[1, 2, 3, 4, 0],
        &mut output,
    )?;
    Ok(output)
}

#[test]
fn entries_are_renumbered(rt: HostRuntime) -> Result<(), Fail> {
    let input = row_bytes(rt.alloc(), ENTRIES)?;
    let output = kept(rt.alloc(), &input, &[4, 0, 1, 2, 3])?;
    is(&rt, "kept", output, row_bytes(rt.alloc(), KEPT)?);
    Ok(())
}
