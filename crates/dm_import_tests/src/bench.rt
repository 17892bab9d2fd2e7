// How commands are run on a disk, a net and a history in memory.
ghost use Rattle.std.specs.Prelude.{All, IfOk};
ghost use Rattle.dm_edge.specs.Script.{IsGood};

use dm_cli::run_program;
use dm_disk::{Area, Disk, DiskFault, FailingCall, MemoryDisk, Place};
use dm_edge::{ClockList, NetScript, SinkMem, WireScript, WireScripts};
use dm_hist::MemoryKeeper;
use dm_types::{DiskKind, Listed, NoMemory, Text};
use std::alloc::Global;
use std::test::Fail;

/// A command, and what it says.
#[derive(Clone, Copy)]
pub(crate) struct Row {
    pub(crate) words: &'static [&'static [u8]],
    pub(crate) status: u8,
    pub(crate) out: &'static [u8],
    pub(crate) errs: &'static [u8],
}

/// What a run said, and its disk.
#[derive(Drop)]
pub(crate) struct Outcome {
    pub(crate) status: u8,
    pub(crate) out: Text,
    pub(crate) errs: Text,
    pub(crate) disk: MemoryDisk,
}

impl Outcome {
    /// Whether it says what the row says.
    pub(crate) fn is(&self, row: &Row) -> bool {
        self.status == row.status && self.out.bytes() == row.out && self.errs.bytes() == row.errs
    }
}

fn texts(alloc: Global, words: &[&[u8]]) -> Result<Vec<Text>, NoMemory> {
    let mut list = Vec::new(alloc);
    for word in words {
        list.push(Text::from_bytes(alloc, word)?)?;
    }
    Ok(list)
}

fn script(alloc: Global, stream: &[u8]) -> Result<WireScript, NoMemory>
    ensures { IfOk result IsGood }
{
    Ok(WireScript {
        stream: Text::from_bytes(alloc, stream)?,
        cuts: Listed::new(alloc),
        failing: Listed::new(alloc),
    })
}

fn scripts(alloc: Global, streams: &[&[u8]]) -> Result<WireScripts, NoMemory>
    ensures { IfOk result (All IsGood) }
{
    let mut wires = Listed::new(alloc);
    for stream in streams {
        wires.push(script(alloc, stream)?)?;
    }
    Ok(wires)
}

/// A net whose connections say these streams. A connect past them finds no route.
pub(crate) fn net(alloc: Global, streams: &[&[u8]]) -> Result<NetScript, NoMemory> {
    let wires = scripts(alloc, streams)?;
    NetScript::new(wires, Listed::new(alloc))
}

/// Runs a command at moment 0 over these streams.
pub(crate) fn run(
    alloc: Global,
    words: &[&[u8]],
    streams: &[&[u8]],
    disk: MemoryDisk,
    keeper: &mut MemoryKeeper,
) -> Result<Outcome, Fail> {
    let words = texts(alloc, words)?;
    let mut net = net(alloc, streams)?;
    let mut clock = ClockList::new(alloc, &[0])?;
    let mut out = SinkMem::new(alloc, 1000, &[])?;
    let mut errs = SinkMem::new(alloc, 1000, &[])?;
    let ran = run_program(
        alloc,
        &words,
        &[],
        disk,
        &mut net,
        keeper,
        &mut clock,
        &mut out,
        &mut errs,
    );
    Ok(Outcome {
        status: ran.status,
        out: Text::from_bytes(alloc, out.written())?,
        errs: Text::from_bytes(alloc, errs.written())?,
        disk: ran.disk,
    })
}

/// Runs commands one after another, each over these streams: the first row that says something else, and the
/// disk.
pub(crate) fn say(
    alloc: Global,
    streams: &[&[u8]],
    disk: MemoryDisk,
    keeper: &mut MemoryKeeper,
    rows: &[Row],
) -> Result<(Option<usize>, MemoryDisk), Fail> {
    let mut disk = disk;
    let mut other = None;
    for (place, row) in rows.iter().enumerate() {
        let ran = run(alloc, row.words, streams, disk, keeper)?;
        if other.is_none() && !ran.is(row) {
            other = Some(place);
        }
        disk = ran.disk;
    }
    Ok((other, disk))
}

/// An empty disk, of which this call is denied, and which stops after so many.
pub(crate) fn disk(
    alloc: Global,
    failing: Option<u64>,
    stop_after: Option<u64>,
) -> Result<MemoryDisk, NoMemory> {
    let mut calls = Listed::new(alloc);
    if let Some(call) = failing {
        calls.push(FailingCall {
            call,
            kind: DiskKind::Denied,
        })?;
    }
    MemoryDisk::new(alloc, calls, stop_after)
}

/// Makes a file of the user's with these bytes. It takes four calls of the disk.
pub(crate) fn put(
    alloc: Global,
    disk: &mut MemoryDisk,
    name: &[u8],
    bytes: &[u8],
) -> Result<(), Fail> {
    let name = Text::from_bytes(alloc, name)?;
    let place = Place {
        area: Area::Files,
        name,
    };
    match make(disk, &place, bytes) {
        Ok(()) => Ok(()),
        Err(_) => Err("no file".into()),
    }
}

fn make(disk: &mut MemoryDisk, place: &Place, bytes: &[u8]) -> Result<(), DiskFault> {
    match disk.length(place)? {
        None => disk.create(place)?,
        Some(_) => return Err(DiskFault(DiskKind::Failed)),
    }
    match disk.length(place)? {
        Some(_) => disk.write_at(place, 0, bytes),
        None => Err(DiskFault(DiskKind::Failed)),
    }
}
