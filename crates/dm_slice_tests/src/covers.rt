ghost use Rattle.dm_slice.specs.Words.{IsWithin};

use dm_slice::{
    Cover, MOST_BYTES, Part, cover_end, covered, has_byte, holds, is_full, is_normal, is_within,
};
use dm_types::{Slice, Slices};
use std::alloc::Global;
use std::process::Abort;
use std::test::Fail;

fn slice(first: u64, got: u64, finished: bool) -> Slice {
    Slice {
        first,
        got,
        finished,
    }
}

/// The cover of these slices, which must be one within the total.
fn cover(rt: &impl Abort, alloc: Global, runs: &[(u64, u64)], total: u64) -> Cover
    ensures { IsWithin total result }
{
    let mut slices = Slices::new(alloc);
    for (first, got) in runs {
        if slices.count() < 64 {
            let finished = *got > 0 && u128::from(*first) + u128::from(*got) == u128::from(total);
            slices
                .push(slice(*first, *got, finished))
                .expect(rt, "memory");
        }
    }
    Cover::from_slices(alloc, &slices, Some(total))
        .expect(rt, "memory")
        .expect(rt, "a cover")
}

#[test]
fn plans_fill_the_first_holes(rt: HostRuntime) -> Result<(), Fail> {
    let mut one = cover(&rt, rt.alloc(), &[(0, 3145728)], 10485760);
    let plan = one.plan(10485760, 4, 1048576)?;
    let parts = [
        (0, 3145728, 4980736),
        (1, 4980736, 6815744),
        (2, 6815744, 8650752),
        (3, 8650752, 10485760),
    ];
    assert_eq!(rt; plan.count(), 4);
    for (place, (index, first, end)) in parts.into_iter().enumerate() {
        let part = Part { index, first, end };
        assert_eq!(rt; plan.get(place as u64), Some(&part));
        assert_eq!(rt; one.next_place(index), Some(first));
    }
    let mut two = cover(
        &rt,
        rt.alloc(),
        &[(0, 3145728), (5242880, 1048576)],
        10485760,
    );
    let plan = two.plan(10485760, 4, 1048576)?;
    let parts = [
        (0, 3145728, 4194304),
        (1, 4194304, 5242880),
        (2, 6291456, 8388608),
        (3, 8388608, 10485760),
    ];
    assert_eq!(rt; plan.count(), 4);
    for (place, (index, first, end)) in parts.into_iter().enumerate() {
        let part = Part { index, first, end };
        assert_eq!(rt; plan.get(place as u64), Some(&part));
        assert_eq!(rt; two.next_place(index), Some(first));
    }
    Ok(())
}

#[test]
fn a_cover_grows_and_is_saved(rt: HostRuntime) -> Result<(), Fail> {
    let mut cover = Cover::empty(rt.alloc())?;
    assert_eq!(rt; cover.covered(), 0);
    let plan = cover.plan(2097152, 2, 1048576)?;
    assert_eq!(rt; plan.count(), 2);
    assert_eq!(rt; cover.next_place(0), Some(0));
    assert_eq!(rt; cover.next_place(1), Some(1048576));
    assert_eq!(rt; cover.next_place(2), None);
    let saved = cover.normal(Some(2097152))?;
    assert_eq!(rt; saved.items(), [slice(0, 0, false)].as_slice());
    assert!(rt; !cover.is_full(2097152));
    let mut slices = Slices::new(rt.alloc());
    slices.push(slice(0, 0, false))?;
    slices.push(slice(1048576, 1048576, true))?;
    let kept = Cover::from_slices(rt.alloc(), &slices, Some(2097152))?.ok_or("a cover")?;
    assert_eq!(rt; kept.covered(), 1048576);
    assert!(rt; Cover::from_slices(rt.alloc(), &slices, None)?.is_none());
    assert!(rt; Cover::from_slices(rt.alloc(), &slices, Some(2097151))?.is_none());
    Ok(())
}

#[test]
fn words_on_slices(rt: HostRuntime) -> Result<(), Fail> {
    let slices = [slice(0, 5, false), slice(7, 3, true)];
    let fewer = [slice(8, 2, true)];
    assert!(rt; has_byte(&slices, 4) && !has_byte(&slices, 5) && has_byte(&slices, 9));
    assert!(rt; holds(&slices, &fewer) && !holds(&fewer, &slices));
    assert!(rt; is_normal(&slices, Some(10)) && !is_normal(&slices, None));
    assert!(rt; is_within(&slices, 10) && !is_within(&slices, 9));
    assert!(rt; is_full(&slices, 5) && !is_full(&slices, 6));
    assert!(rt; !is_normal(&[slice(0, 5, false), slice(5, 5, true)], Some(10)));
    assert_eq!(rt; covered(&slices), 8);
    assert_eq!(rt; cover_end(&slices), 10);
    Ok(())
}

#[test]
fn a_cover_whose_total_is_not_known(rt: HostRuntime) -> Result<(), Fail> {
    let mut open = cover(&rt, rt.alloc(), &[(0, 5)], 10);
    let plan = open.plan_open()?;
    let part = Part {
        index: 0,
        first: 5,
        end: MOST_BYTES,
    };
    assert_eq!(rt; plan.count(), 1);
    assert_eq!(rt; plan.get(0), Some(&part));
    assert_eq!(rt; open.first_missing(10), Some(5));
    assert_eq!(rt; open.copy()?.first_missing(5), None);
    Ok(())
}
