// How commands are run over a list and a history in memory.
ghost use Rattle.std.specs.Prelude.{IfOk};
ghost use Rattle.dm_edge.specs.Script.{IsGood};

use dm_disk::{FailingCall, MemoryDisk};
use dm_edge::{ClockList, NetScript, SinkMem, WireScript};
use dm_hist::MemoryKeeper;
use dm_past::run_with_history;
use dm_types::{DiskKind, Listed, NoMemory, Text};
use std::alloc::Global;

/// What a command says: its status, and its texts on standard output and error.
pub(crate) type Said = (u8, &'static [u8], &'static [u8]);

/// A command, and what it may say.
#[derive(Clone, Copy)]
pub(crate) struct Row {
    pub(crate) words: &'static [&'static [u8]],
    pub(crate) may: &'static [Said],
}

/// What the one connection of each run says, where one is made.
const WHOLE: &[u8] = b"HTTP/1.1 200 OK\r\nContent-Length: 11\r\n\r\nhello world";

/// What stands around a run.
#[derive(Drop)]
struct Outside {
    words: Vec<Text>,
    net: NetScript,
    clock: ClockList,
    out: SinkMem,
    errs: SinkMem,
}

fn texts(alloc: Global, words: &[&[u8]]) -> Result<Vec<Text>, NoMemory> {
    let mut list = Vec::new(alloc);
    for word in words {
        list.push(Text::from_bytes(alloc, word)?)?;
    }
    Ok(list)
}

fn script(alloc: Global) -> Result<WireScript, NoMemory>
    ensures { IfOk result IsGood }
{
    Ok(WireScript {
        stream: Text::from_bytes(alloc, WHOLE)?,
        cuts: Listed::new(alloc),
        failing: Listed::new(alloc),
    })
}

fn net(alloc: Global) -> Result<NetScript, NoMemory> {
    let mut wires = Listed::new(alloc);
    wires.push(script(alloc)?)?;
    NetScript::new(wires, Listed::new(alloc))
}

/// At moment 0.
fn set_up(alloc: Global, row: &Row) -> Result<Outside, NoMemory> {
    Ok(Outside {
        words: texts(alloc, row.words)?,
        net: net(alloc)?,
        clock: ClockList::new(alloc, &[0])?,
        out: SinkMem::new(alloc, 10_000, &[])?,
        errs: SinkMem::new(alloc, 1000, &[])?,
    })
}

/// Which of these it is.
fn place_of(may: &[Said], status: u8, out: &[u8], errs: &[u8]) -> Option<usize> {
    may.iter()
        .position(|said| said.0 == status && said.1 == out && said.2 == errs)
}

/// Runs a command: which of its texts it says, and the disk.
pub(crate) fn run(
    alloc: Global,
    row: &Row,
    disk: MemoryDisk,
    keeper: &mut MemoryKeeper,
) -> Result<(Option<usize>, MemoryDisk), NoMemory> {
    let Outside {
        words,
        mut net,
        mut clock,
        mut out,
        mut errs,
    } = set_up(alloc, row)?;
    let ran = run_with_history(
        alloc,
        &words,
        &[],
        disk,
        &mut net,
        keeper,
        &mut clock,
        &mut out,
        &mut errs,
    );
    let said = place_of(row.may, ran.status, out.written(), errs.written());
    Ok((said, ran.disk))
}

/// Runs commands one after another: the first that says none of its texts, and the disk.
pub(crate) fn say(
    alloc: Global,
    rows: &[Row],
    disk: MemoryDisk,
    keeper: &mut MemoryKeeper,
) -> Result<(Option<usize>, MemoryDisk), NoMemory> {
    let mut disk = disk;
    let mut other = None;
    for (place, row) in rows.iter().enumerate() {
        let (said, left) = run(alloc, row, disk, keeper)?;
        if other.is_none() && said.is_none() {
            other = Some(place);
        }
        disk = left;
    }
    Ok((other, disk))
}

/// An empty disk, of which this call is denied, and which stops after so many.
pub(crate) fn disk(
    alloc: Global,
    failing: Option<u64>,
    stop_after: Option<u64>,
) -> Result<MemoryDisk, NoMemory> {
    let mut calls = Listed::new(alloc);
    if let Some(call) = failing {
        calls.push(FailingCall {
            call,
            kind: DiskKind::Denied,
        })?;
    }
    MemoryDisk::new(alloc, calls, stop_after)
}
