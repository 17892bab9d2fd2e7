use dm_hist::{is_listed, row_of_item};
use dm_types::{Attempt, Epoch, Item, ItemId, NoMemory, Phase, Slices, Text};
use std::alloc::Global;
use std::test::Fail;

fn item(alloc: Global, id: u32, phase: Phase, name: Option<Text>) -> Result<Item, NoMemory> {
    Ok(Item {
        id: ItemId(id),
        word: Text::from_bytes(alloc, b"w")?,
        first_address: Text::from_bytes(alloc, b"http://a.example/f")?,
        wish: Text::new(alloc),
        digest: None,
        phase,
        reason: None,
        epoch: Epoch(1),
        attempt: Attempt(1),
        autos: 0,
        begun: true,
        key: None,
        last_address: None,
        total: Some(11),
        name,
        modified: None,
        slices: Slices::new(alloc),
        have: Some([7; 32]),
        at_ms: 1000,
    })
}

#[test]
fn an_item_has_a_row(rt: HostRuntime) -> Result<(), Fail> {
    let name = Text::from_bytes(rt.alloc(), b"f")?;
    let whole = row_of_item(
        rt.alloc(),
        &item(rt.alloc(), 1, Phase::Complete, Some(name))?,
    )?;
    assert_eq!(rt; whole.id.0, 1);
    assert!(rt; whole.word.is(b"w") && whole.address.is(b"http://a.example/f"));
    assert!(rt; whole.name.is(b"f") && whole.complete);
    assert_eq!(rt; whole.total, Some(11));
    assert_eq!(rt; whole.digest, Some([7; 32]));
    assert_eq!(rt; whole.at_ms, 1000);
    Ok(())
}

#[test]
fn a_cancelled_item_has_no_name(rt: HostRuntime) -> Result<(), Fail> {
    let stopped = row_of_item(rt.alloc(), &item(rt.alloc(), 2, Phase::Cancelled, None)?)?;
    assert!(rt; stopped.name.is(b"") && !stopped.complete);
    Ok(())
}

#[test]
fn a_listed_id_is_not_shown(rt: HostRuntime) -> Result<(), Fail> {
    let items = [item(rt.alloc(), 2, Phase::Cancelled, None)?];
    assert!(rt; is_listed(ItemId(2), items.as_slice()));
    assert!(rt; !is_listed(ItemId(1), items.as_slice()));
    Ok(())
}
