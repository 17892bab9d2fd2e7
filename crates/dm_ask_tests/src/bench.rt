//! The nets that are asked over.
ghost use Rattle.std.specs.Prelude.{◌≡◌, ◌≢◌, [], ◌∷◌, All, IfOk};
ghost use Rattle.dm_edge.specs.Script.{IsGood};

use dm_edge::{NetFails, NetFault, NetScript, WireFails, WireFault, WireScript, WireScripts};
use dm_types::{Address, Listed, NoMemory, Text};
use std::alloc::Global;

/// Which calls fail, and how.
#[derive(Clone, Copy)]
pub struct Faults {
    /// How the first connect fails.
    pub connect: Option<NetFault>,
    /// Which call of each wire fails, sends and receives counted together from 0, and how.
    pub wire: Option<(u64, WireFault)>,
}

impl Faults {
    pub const NONE: Faults = Faults {
        connect: None,
        wire: None,
    };
}

/// `http://a.test/f`.
pub fn address(alloc: Global) -> Result<Address, NoMemory> {
    Ok(Address {
        text: Text::from_bytes(alloc, b"http://a.test/f")?,
        host: Text::from_bytes(alloc, b"a.test")?,
        port: 80,
        target: Text::from_bytes(alloc, b"/f")?,
    })
}

fn one_call<F: Copy>(alloc: Global, call: u64, fault: F) -> Result<Listed<(u64, F)>, NoMemory>
    ensures { IfOk result (λ list. list ≡ record { 0 = call; 1 = fault } ∷ []) }
{
    let mut list = Listed::new(alloc);
    list.push((call, fault))?;
    Ok(list)
}

/// The list of the one call of a wire that fails. Want of memory is none that can be listed.
fn wire_fails(alloc: Global, fails: Option<(u64, WireFault)>) -> Result<WireFails, NoMemory>
    ensures { IfOk result (All (λ entry. entry.1 ≢ WireFault.NoMemory)) }
{
    match fails {
        Some((call, WireFault::Failed)) => one_call(alloc, call, WireFault::Failed),
        Some((call, WireFault::Timeout)) => one_call(alloc, call, WireFault::Timeout),
        Some((_, WireFault::NoMemory)) => Ok(Listed::new(alloc)),
        None => Ok(Listed::new(alloc)),
    }
}

fn connect_fails(alloc: Global, fault: Option<NetFault>) -> Result<NetFails, NoMemory>
    ensures { IfOk result (All (λ entry. entry.1 ≢ NetFault.NoMemory)) }
{
    match fault {
        Some(NetFault::NoRoute) => one_call(alloc, 0, NetFault::NoRoute),
        Some(NetFault::Refused) => one_call(alloc, 0, NetFault::Refused),
        Some(NetFault::Timeout) => one_call(alloc, 0, NetFault::Timeout),
        Some(NetFault::Failed) => one_call(alloc, 0, NetFault::Failed),
        Some(NetFault::NoMemory) => Ok(Listed::new(alloc)),
        None => Ok(Listed::new(alloc)),
    }
}

fn script(alloc: Global, stream: &[u8], faults: Faults) -> Result<WireScript, NoMemory>
    ensures { IfOk result IsGood }
{
    Ok(WireScript {
        stream: Text::from_bytes(alloc, stream)?,
        cuts: Listed::new(alloc),
        failing: wire_fails(alloc, faults.wire)?,
    })
}

fn scripts(alloc: Global, streams: &[&[u8]], faults: Faults) -> Result<WireScripts, NoMemory>
    ensures { IfOk result (All IsGood) }
{
    let mut wires = Listed::new(alloc);
    for stream in streams {
        wires.push(script(alloc, stream, faults)?)?;
    }
    Ok(wires)
}

/// A net whose connections say these streams.
pub fn net(alloc: Global, streams: &[&[u8]], faults: Faults) -> Result<NetScript, NoMemory> {
    let wires = scripts(alloc, streams, faults)?;
    NetScript::new(wires, connect_fails(alloc, faults.connect)?)
}
