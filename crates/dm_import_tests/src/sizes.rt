// How long a file may be.
use crate::bench::{disk, put, run};
use dm_hist::MemoryKeeper;
use std::alloc::Global;
use std::test::Fail;

const FRONT: &[u8] = b"word,address,name,sha256\nw1,http://h/a,,\n";

/// The status of the import of a file that has one record, and then line feeds up to this size.
fn status_of(alloc: Global, size: usize) -> Result<u8, Fail> {
    let mut bytes = vec![in alloc; b'\n'; size]?;
    for (place, byte) in FRONT.iter().enumerate() {
        if let Some(there) = bytes.get_mut(place) {
            *there = *byte;
        }
    }
    let mut there = disk(alloc, None, None)?;
    put(alloc, &mut there, b"links.csv", &bytes)?;
    let mut keeper = MemoryKeeper::new(alloc, &[])?;
    let ran = run(alloc, &[b"import", b"links.csv"], &[], there, &mut keeper)?;
    Ok(ran.status)
}

#[test]
fn a_file_has_a_mebibyte_at_most(rt: HostRuntime) -> Result<(), Fail> {
    assert_eq!(rt; status_of(rt.alloc(), 1_048_576)?, 0);
    assert_eq!(rt; status_of(rt.alloc(), 1_048_577)?, 11);
    Ok(())
}
