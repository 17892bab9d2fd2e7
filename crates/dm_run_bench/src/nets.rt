// A net in memory, and what was asked over it.
ghost use Rattle.std.specs.Prelude.{◌≡◌, ◌≢◌, ◌<◌, [], ◌∷◌, All, IfOk};
ghost use Rattle.dm_edge.specs.Script.{IsGood};

use crate::rows::{Asked, Outside};
use dm_edge::{NetFails, NetFault, NetScript, WireFails, WireFault, WireScript, WireScripts};
use dm_types::{Listed, NoMemory, NumberList, Text};
use std::alloc::Global;

fn one_call<F: Copy>(alloc: Global, call: u64, fault: F) -> Result<Listed<(u64, F)>, NoMemory>
    ensures { IfOk result (λ list. list ≡ record { 0 = call; 1 = fault } ∷ []) }
{
    let mut list = Listed::new(alloc);
    list.push((call, fault))?;
    Ok(list)
}

/// The list of the one call of a wire that fails. Want of memory is none that can be listed.
fn wire_fails(alloc: Global, fails: Option<(u64, WireFault)>) -> Result<WireFails, NoMemory>
    ensures { IfOk result (All (λ entry. entry.1 ≢ WireFault.NoMemory)) }
{
    match fails {
        Some((call, WireFault::Failed)) => one_call(alloc, call, WireFault::Failed),
        Some((call, WireFault::Timeout)) => one_call(alloc, call, WireFault::Timeout),
        Some((_, WireFault::NoMemory)) => Ok(Listed::new(alloc)),
        None => Ok(Listed::new(alloc)),
    }
}

fn connect_fails(alloc: Global, fault: Option<NetFault>) -> Result<NetFails, NoMemory>
    ensures { IfOk result (All (λ entry. entry.1 ≢ NetFault.NoMemory)) }
{
    match fault {
        Some(NetFault::NoRoute) => one_call(alloc, 0, NetFault::NoRoute),
        Some(NetFault::Refused) => one_call(alloc, 0, NetFault::Refused),
        Some(NetFault::Timeout) => one_call(alloc, 0, NetFault::Timeout),
        Some(NetFault::Failed) => one_call(alloc, 0, NetFault::Failed),
        Some(NetFault::NoMemory) => Ok(Listed::new(alloc)),
        None => Ok(Listed::new(alloc)),
    }
}

/// As many cuts as there are bytes, each of one byte.
fn ones(alloc: Global, count: usize) -> Result<NumberList, NoMemory>
    ensures { IfOk result (All (λ cut. 0 < cut)) }
{
    let mut cuts = Listed::new(alloc);
    for _ in 0..count {
        cuts.push(1)?;
    }
    Ok(cuts)
}

/// What comes of a stream.
fn front(stream: &[u8], cut: Option<usize>) -> &[u8] {
    let end = cut.unwrap_or(stream.len()).min(stream.len());
    &stream[..end]
}

fn script(alloc: Global, stream: &[u8], outside: Outside) -> Result<WireScript, NoMemory>
    ensures { IfOk result IsGood }
{
    let cuts = ones(alloc, if outside.by_byte { stream.len() } else { 0 })?;
    Ok(WireScript {
        stream: Text::from_bytes(alloc, stream)?,
        cuts,
        failing: wire_fails(alloc, outside.wire)?,
    })
}

fn scripts(alloc: Global, streams: &[&[u8]], outside: Outside) -> Result<WireScripts, NoMemory>
    ensures { IfOk result (All IsGood) }
{
    let mut wires = Listed::new(alloc);
    for stream in streams {
        wires.push(script(alloc, front(stream, outside.cut), outside)?)?;
    }
    Ok(wires)
}

/// A net whose connections say these streams. A connect past them finds no route.
pub(crate) fn net(
    alloc: Global,
    streams: &[&[u8]],
    outside: Outside,
) -> Result<NetScript, NoMemory> {
    let wires = scripts(alloc, streams, outside)?;
    NetScript::new(wires, connect_fails(alloc, outside.connect)?)
}

/// Whether the requests were so.
pub(crate) fn was_asked(net: &NetScript, asked: Asked, sent: &[&[u8]]) -> bool {
    match asked {
        Asked::Ends => closed(net) == sent.len() as u64 && all_end(net, sent),
        Asked::Fronts => closed(net) == sent.len() as u64 && all_begin(net, sent),
        Asked::Times(count) => closed(net) == count,
        Asked::Anyhow => true,
    }
}

/// How many connections were closed, up to 21.
fn closed(net: &NetScript) -> u64 {
    let mut count = 0;
    for place in 0..21 {
        if net.closed(place).is_some() {
            count = place + 1;
        }
    }
    count
}

fn all_end(net: &NetScript, sent: &[&[u8]]) -> bool {
    for (place, end) in sent.iter().enumerate() {
        match net.closed(place as u64) {
            Some(exchange) => {
                if !exchange.sent.bytes().ends_with(end) {
                    return false;
                }
            }
            None => return false,
        }
    }
    true
}

fn all_begin(net: &NetScript, sent: &[&[u8]]) -> bool {
    for (place, front) in sent.iter().enumerate() {
        match net.closed(place as u64) {
            Some(exchange) => {
                if !exchange.sent.bytes().starts_with(front) {
                    return false;
                }
            }
            None => return false,
        }
    }
    true
}
