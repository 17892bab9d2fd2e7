ghost use Rattle.std.specs.Prelude.{◌<◌};

use dm_attempt::{Source, parts_wanted, source_of};
use dm_edge::Wanted;
use dm_reply::{Head, Kind};
use dm_rounds::told_of;
use dm_slice::Part;
use dm_types::{Address, Key, NoMemory, Text};
use std::alloc::Global;
use std::process::Abort;
use std::test::Fail;

fn place(alloc: Global) -> Result<Address, NoMemory> {
    Ok(Address {
        text: Text::from_bytes(alloc, b"http://h/a.bin")?,
        host: Text::from_bytes(alloc, b"h")?,
        port: 80,
        target: Text::from_bytes(alloc, b"/a.bin")?,
    })
}

fn head(alloc: Global, total: Option<u64>, ranges: bool) -> Result<Head, NoMemory> {
    Ok(Head {
        kind: Kind::Content,
        status: 200,
        strong: Some(Text::from_bytes(alloc, b"\"a\"")?),
        first: 0,
        last: None,
        total,
        ranges,
        disposition: Some(Text::from_bytes(alloc, b"attachment; filename=b.bin")?),
        modified: Text::from_bytes(alloc, b"now")?,
    })
}

/// Checks that bytes 5 to 10 are asked for.
fn check_asked(rt: &(impl Abort + AllocGlobal), source: &Source, part: &Part) -> Result<(), Fail>
    requires { part.now.first < part.now.end }
{
    match source.wanted(rt.alloc(), part)? {
        Wanted::Part { first, last, .. } => assert_eq!(rt; (first, last), (5, 10)),
        Wanted::Whole => assert!(rt; false),
    }
    Ok(())
}

/// What the row's reply tells, and what is asked for next.
fn tells_and_asks(rt: &(impl Abort + AllocGlobal)) -> Result<(), Fail> {
    let alloc = rt.alloc();
    let address = place(alloc)?;
    let head = head(alloc, Some(11), true)?;
    let key = Key::Strong(Text::from_bytes(alloc, b"\"a\"")?);
    let told = told_of(alloc, b"", &head, &address, &key)?;
    assert_eq!(rt; told.wish.bytes(), b"b.bin".as_slice());
    assert_eq!(rt; told.total, Some(11));
    assert_eq!(rt; parts_wanted(4, &head), 4);
    let part = Part {
        index: 0,
        first: 5,
        end: 11,
    };
    match source_of(address, key, Some(11)) {
        Some(source) => check_asked(rt, &source, &part)?,
        None => assert!(rt; false),
    }
    Ok(())
}

#[test]
fn what_is_told_and_asked_for(rt: HostRuntime) -> Result<(), Fail> {
    tells_and_asks(&rt)
}
