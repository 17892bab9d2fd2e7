use crate::*;
use std::test::Fail;

#[test]
fn a_text_keeps_its_bytes(rt: HostRuntime) -> Result<(), Fail> {
    let mut text = Text::from_bytes(rt.alloc(), b"he")?;
    text.push_bytes(b"llo")?;
    let copy = text.copy(rt.alloc())?;
    assert_eq!(rt; copy.bytes(), b"hello".as_slice());
    assert!(rt; copy.is(b"hello"));
    assert!(rt; Text::new(rt.alloc()).is_empty());
    Ok(())
}

#[test]
fn a_list_keeps_its_order(rt: HostRuntime) -> Result<(), Fail> {
    let mut list = NumberList::new(rt.alloc());
    list.push(7)?;
    list.push(9)?;
    assert_eq!(rt; list.count(), 2);
    assert_eq!(rt; list.get(1), Some(&9));
    assert_eq!(rt; list.get(2), None);
    let mut slices = Slices::new(rt.alloc());
    slices.push(Slice {
        first: 0,
        got: 5,
        finished: false,
    })?;
    assert_eq!(rt; slices.count(), 1);
    Ok(())
}

#[test]
fn keys_are_equal_by_what_they_hold(rt: HostRuntime) -> Result<(), Fail> {
    let tag = Key::Strong(Text::from_bytes(rt.alloc(), b"\"a\"")?);
    let copy = tag.copy(rt.alloc())?;
    assert!(rt; tag.same(&copy));
    assert!(rt; !tag.same(&Key::Once(ItemId(1), Attempt(1))));
    assert!(rt; !Key::Once(ItemId(1), Attempt(1)).same(&Key::Once(ItemId(1), Attempt(2))));
    Ok(())
}

#[test]
fn a_part_is_named_by_item_and_epoch(rt: HostRuntime) -> Result<(), Fail> {
    let name = part_name(rt.alloc(), ItemId(12), Epoch(3))?;
    assert!(rt; name.is(b"Unconfirmed 12-3.crdownload"));
    assert!(rt; same_folded(name.bytes(), b"UNCONFIRMED 12-3.CRDOWNLOAD"));
    Ok(())
}
