// One run of a command, and what it comes to beside its rows.
use crate::disks::hold;
use crate::nets::{net, was_asked};
use crate::rows::{Outside, Row, Told};
use dm_disk::MemoryDisk;
use dm_edge::{ClockList, NetScript, SinkMem};
use dm_types::{NoMemory, Text};
use std::alloc::Global;

/// What runs a command.
pub trait Runs {
    /// Runs the words, and hands the disk back with the status.
    fn run(
        &self,
        alloc: Global,
        words: &[Text],
        disk: MemoryDisk,
        net: &mut NetScript,
        clock: &mut ClockList,
        out: &mut SinkMem,
        errs: &mut SinkMem,
    ) -> (u8, MemoryDisk);
}

/// What a run needs beside its disk.
#[derive(Drop)]
struct Tools {
    words: Vec<Text>,
    net: NetScript,
    clock: ClockList,
    outputs: Outputs,
}

#[derive(Drop)]
struct Outputs {
    out: SinkMem,
    errs: SinkMem,
}

/// Words as texts.
pub fn texts(alloc: Global, words: &[&[u8]]) -> Result<Vec<Text>, NoMemory> {
    let mut list = Vec::new(alloc);
    for word in words {
        list.push(Text::from_bytes(alloc, word)?)?;
    }
    Ok(list)
}

/// An output with room for so many bytes.
fn output(alloc: Global, room: u64, failing: Option<u64>) -> Result<SinkMem, NoMemory> {
    match failing {
        Some(call) => SinkMem::new(alloc, room, &[call]),
        None => SinkMem::new(alloc, room, &[]),
    }
}

fn make_outputs(alloc: Global, outside: Outside) -> Result<Outputs, NoMemory> {
    let out = output(alloc, outside.room, outside.out)?;
    match output(alloc, 1000, outside.errs) {
        Ok(errs) => Ok(Outputs { out, errs }),
        Err(NoMemory) => Err(NoMemory),
    }
}

fn make_tools(alloc: Global, row: &Row) -> Result<Tools, NoMemory> {
    let words = texts(alloc, row.words)?;
    let outputs = make_outputs(alloc, row.outside)?;
    let clock = ClockList::new(alloc, &[0])?;
    let net = net(alloc, row.streams, row.outside)?;
    Ok(Tools {
        words,
        net,
        clock,
        outputs,
    })
}

/// The outputs and the net of a run that has ended, and its status.
#[derive(Clone, Copy)]
struct Ended<'a> {
    status: u8,
    outputs: &'a Outputs,
    net: &'a NetScript,
}

fn has_texts(row: &Row, out: &[u8], errs: &[u8]) -> bool {
    match row.told {
        Told::Exactly => out == row.out && errs == row.errs,
        Told::Anyhow => true,
        Told::Front => row.out.starts_with(out),
        Told::More => out.starts_with(row.out) && errs == row.errs,
        Told::Out => out == row.out,
        Told::Errs => errs == row.errs,
    }
}

fn is_told(row: &Row, ended: &Ended) -> bool {
    let out = ended.outputs.out.written();
    let errs = ended.outputs.errs.written();
    ended.status == row.status && has_texts(row, out, errs)
}

/// The place of the first row that a run is as, in its status, texts, requests and files.
fn first_alike(alloc: Global, disk: &mut MemoryDisk, ended: &Ended, rows: &[Row]) -> Option<usize> {
    for (place, row) in rows.iter().enumerate() {
        let is_alike = is_told(row, ended) && was_asked(ended.net, row.asked, row.sent);
        if is_alike && hold(alloc, disk, row.files) {
            return Some(place);
        }
    }
    None
}

fn run_with<R: Runs>(
    alloc: Global,
    runs: &R,
    tools: &mut Tools,
    disk: MemoryDisk,
    rows: &[Row],
) -> (Option<usize>, MemoryDisk) {
    let (status, disk) = runs.run(
        alloc,
        &tools.words,
        disk,
        &mut tools.net,
        &mut tools.clock,
        &mut tools.outputs.out,
        &mut tools.outputs.errs,
    );
    let mut disk = disk;
    let ended = Ended {
        status,
        outputs: &tools.outputs,
        net: &tools.net,
    };
    let alike = first_alike(alloc, &mut disk, &ended, rows);
    (alike, disk)
}

/// Runs the words of a row at moment 0 over its net: the place of the first of the rows that this comes to,
/// and the disk.
pub(crate) fn run<R: Runs>(
    alloc: Global,
    runs: &R,
    disk: MemoryDisk,
    row: &Row,
    rows: &[Row],
) -> (Option<usize>, MemoryDisk) {
    match make_tools(alloc, row) {
        Ok(mut tools) => run_with(alloc, runs, &mut tools, disk, rows),
        Err(NoMemory) => (None, disk),
    }
}
