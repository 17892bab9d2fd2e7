// One item that waits on a desk, nets that say what they are told to, and how it is brought from them.
ghost use Rattle.std.specs.Prelude.{◌≡◌, ◌≢◌, [], ◌∷◌, All, IfOk};
ghost use Rattle.dm_edge.specs.Script.{IsGood};

use dm_attempt::Ended;
use dm_edge::{NetScript, WireScript, WireScripts};
use dm_fetch::{attempt, fetch};
use dm_items_bench::{Call, MemoryDesk, Said, make, waiting};
use dm_types::{By, ItemId, Listed, NoMemory, Text};
use std::alloc::Global;

const ITEM: ItemId = ItemId(1);

/// What the connections of a net say, how the item is brought, and what is done and looked at.
pub(crate) struct Row {
    pub streams: &'static [&'static [u8]],
    pub slices: u32,
    /// Which open connection is read next.
    pub turns: &'static [u8],
    pub steps: &'static [Step],
}

pub(crate) enum Step {
    /// The item is fetched, as often as it goes on by itself, and ends so.
    Fetch(Ended),
    /// The same, and it doesn't complete.
    FailsToFetch,
    /// One attempt ends so.
    Attempt(By, Ended),
    /// The connection that was closed at this place was sent a request that ends so.
    Sent(u64, &'static [u8]),
    /// The item has a first slice of so many bytes, and so many slices.
    Saved(u64, usize),
    /// A call of the desk says this.
    Looks(Call, Said),
}

fn script(alloc: Global, stream: &[u8]) -> Result<WireScript, NoMemory>
    ensures { IfOk result IsGood }
{
    Ok(WireScript {
        stream: Text::from_bytes(alloc, stream)?,
        cuts: Listed::new(alloc),
        failing: Listed::new(alloc),
    })
}

fn scripts(alloc: Global, streams: &[&[u8]]) -> Result<WireScripts, NoMemory>
    ensures { IfOk result (All IsGood) }
{
    let mut wires = Listed::new(alloc);
    for stream in streams {
        wires.push(script(alloc, stream)?)?;
    }
    Ok(wires)
}

/// A net whose connections say these streams.
fn net(alloc: Global, streams: &[&[u8]]) -> Option<NetScript> {
    match scripts(alloc, streams) {
        Ok(wires) => NetScript::new(wires, Listed::new(alloc)).ok(),
        Err(NoMemory) => None,
    }
}

fn was_sent(net: &NetScript, place: u64, end: &[u8]) -> bool {
    match net.closed(place) {
        Some(exchange) => exchange.sent.bytes().ends_with(end),
        None => false,
    }
}

fn has_saved(desk: &MemoryDesk, first: u64, count: usize) -> bool {
    match desk.view(ITEM) {
        Some(item) => match item.slices.items().first() {
            Some(slice) => slice.got == first && item.slices.items().len() == count,
            None => false,
        },
        None => false,
    }
}

/// Brings the item: by one attempt of somebody, or as often as it goes on by itself.
fn bring(
    alloc: Global,
    desk: &mut MemoryDesk,
    net: &mut NetScript,
    row: &Row,
    by: Option<By>,
) -> Option<Ended> {
    if row.slices < 1 || row.slices > 16 {
        return None;
    }
    let ended = match by {
        Some(by) => attempt(alloc, desk, net, ITEM, by, row.slices, row.turns, 7),
        None => fetch(alloc, desk, net, ITEM, row.slices, row.turns, 7),
    };
    Some(ended)
}

fn goes(alloc: Global, desk: &mut MemoryDesk, net: &mut NetScript, row: &Row, step: &Step) -> bool {
    match step {
        Step::Fetch(ended) => bring(alloc, desk, net, row, None) == Some(*ended),
        Step::FailsToFetch => bring(alloc, desk, net, row, None) != Some(Ended::Complete),
        Step::Attempt(by, ended) => bring(alloc, desk, net, row, Some(*by)) == Some(*ended),
        Step::Sent(place, end) => was_sent(net, *place, end),
        Step::Saved(first, count) => has_saved(desk, *first, *count),
        Step::Looks(call, said) => make(alloc, desk, *call) == *said,
    }
}

fn first_other(
    alloc: Global,
    desk: &mut MemoryDesk,
    net: &mut NetScript,
    row: &Row,
) -> Option<usize> {
    for (place, step) in row.steps.iter().enumerate() {
        if !goes(alloc, desk, net, row, step) {
            return Some(place);
        }
    }
    None
}

/// The place of the first step of a row that goes otherwise.
pub(crate) fn first_other_step(alloc: Global, row: &Row) -> Option<usize> {
    let (Some(mut desk), Some(mut net)) = (waiting(alloc), net(alloc, row.streams)) else {
        return Some(usize::MAX);
    };
    first_other(alloc, &mut desk, &mut net, row)
}
