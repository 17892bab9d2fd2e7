// Requests that are cut after each byte, and connections of which a call fails.
use crate::asks::{A_LISTED, A_WAITS, ADD_A, LIST, NO_ITEMS};
use crate::bench::{Outside, Run, Step, Went, make_outside, play, serve, tools};
use crate::told::{Head, Told, Turn, conn, was_told};
use dm_conns::{ConnMem, ConnMems, ConnsMem};
use dm_disk::MemoryDisk;
use dm_hist::MemoryKeeper;
use dm_types::{Listed, NoMemory};
use std::alloc::Global;

/// A request that no route has.
const PUT: &[u8] =
    b"PUT /items HTTP/1.1\r\nHost: a\r\nContent-Length: 32\r\n\r\n{\"url\":\"http://h/a\",\"word\":\"w1\"}";

const NONE_LISTED: Turn = (LIST, Told::Reply(Head::Ok, NO_ITEMS));

const A_IS_LISTED: Turn = (LIST, Told::Reply(Head::Ok, A_LISTED));

/// Adds a connection for each front of a stream, and behind each one that asks for the list.
fn add_fronts(alloc: Global, coming: &mut ConnMems, stream: &[u8]) -> Result<(), NoMemory> {
    for size in 0..stream.len() {
        coming.push(ConnMem::new(alloc, &stream[..size], 0, &[])?)?;
        coming.push(conn(alloc, &NONE_LISTED)?)?;
    }
    Ok(())
}

/// All fronts of both requests.
fn fronts(alloc: Global) -> Result<ConnMems, NoMemory> {
    let mut coming = Listed::new(alloc);
    add_fronts(alloc, &mut coming, PUT)?;
    add_fronts(alloc, &mut coming, ADD_A)?;
    Ok(coming)
}

/// The first connection that is answered otherwise: each front isn't answered, and the list is shown behind it.
fn first_answered(alloc: Global, conns: &ConnsMem) -> Option<usize> {
    for place in 0..conns.served() as usize {
        let told = if place % 2 == 0 {
            Told::Cut
        } else {
            NONE_LISTED.1
        };
        if !was_told(alloc, conns, place, told) {
            return Some(place);
        }
    }
    None
}

/// Whole ones, and ones whose connection fails: what isn't read isn't done, and what isn't told is.
const STEPS: &[Step] = &[Step::Serves(Run {
    turns: &[
        NONE_LISTED,
        (
            PUT,
            Told::Reply(Head::NotAllowed("GET, POST"), "{\"error\":\"method\"}"),
        ),
        (ADD_A, Told::Unread),
        NONE_LISTED,
        (ADD_A, Told::Unwritten),
        A_IS_LISTED,
        (ADD_A, Told::Reply(Head::Ok, A_WAITS)),
        (LIST, Told::Unwritten),
        A_IS_LISTED,
    ],
    ..Run::SERVE
})];

/// Serves all fronts, and then the steps: how many weren't served, the first that was answered otherwise, and the first
/// step that went so.
fn serve_fronts(
    alloc: Global,
    outside: &mut Outside,
    disk: MemoryDisk,
    keeper: &mut MemoryKeeper,
    count: u32,
) -> (u64, Option<usize>, Option<(usize, Went)>) {
    let (_, disk) = serve(alloc, outside, disk, keeper, count);
    let left = u64::from(count).saturating_sub(outside.conns.served());
    let answered = first_answered(alloc, &outside.conns);
    (left, answered, play(alloc, disk, keeper, STEPS))
}

fn outside_of_fronts(alloc: Global) -> Result<(Outside, u32), NoMemory> {
    let coming = fronts(alloc)?;
    let count = coming.count().min(1000) as u32;
    match make_outside(alloc, &Run::SERVE, coming) {
        Ok(outside) => Ok((outside, count)),
        Err(NoMemory) => Err(NoMemory),
    }
}

fn serve_all(alloc: Global) -> Option<(u64, Option<usize>, Option<(usize, Went)>)> {
    match tools(alloc, None, &[]) {
        Ok((disk, mut keeper)) => match outside_of_fronts(alloc) {
            Ok((mut outside, count)) => Some(serve_fronts(
                alloc,
                &mut outside,
                disk,
                &mut keeper,
                count,
            )),
            Err(NoMemory) => None,
        },
        Err(NoMemory) => None,
    }
}

#[test]
fn what_is_cut_changes_nothing(rt: HostRuntime) {
    assert_eq!(rt; serve_all(rt.alloc()), Some((0, None, None)));
}
