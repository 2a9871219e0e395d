//! Readers that fail at each place.

use crate::doubles::ScriptedSource;
use mte_session::{ReadFault, read_whole};
use std::alloc::Global;
use std::test::Fail;

/// How many bytes are read of a source that gives `left` of them, at most `most` in a read, of
/// which the one with a number fails.
fn length_read(alloc: Global, left: usize, most: usize, fails_at: u64) -> Result<usize, ReadFault> {
    let mut source = ScriptedSource::new(left, most);
    source.fails_at = fails_at;
    Ok(read_whole(alloc, &mut source, 0)?.len())
}

#[test]
fn readers(rt: HostRuntime) -> Result<(), Fail> {
    assert_eq!(rt;
        length_read(rt.alloc(), 16_777_216, 1_000_000, 0)?,
        16_777_216
    );
    let result = length_read(rt.alloc(), 16_777_217, 1_000_000, 0);
    assert!(rt; matches!(&result, Err(ReadFault::TooLong)));
    assert_eq!(rt; length_read(rt.alloc(), 1000, 1, 0)?, 1000);
    for k in 1..6 {
        let result = length_read(rt.alloc(), 5, 1, k);
        assert!(rt; matches!(&result, Err(ReadFault::Read)));
    }
    Ok(())
}
