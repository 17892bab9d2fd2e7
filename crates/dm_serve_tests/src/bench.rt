// Runs of the service one after another, over a disk, a history and connections in memory.
use crate::told::{Turn, conn, conns, first_other};
use dm_conns::{ConnMems, ConnsMem};
use dm_disk::{FailingCall, MemoryDisk};
use dm_edge::{ClockList, EveryByte, SinkMem};
use dm_hist::{Keeper, MemoryKeeper};
use dm_list::Ran;
use dm_run_bench::{Left, stands, texts};
use dm_serve::run_serve;
use dm_session::{Session, run_session};
use dm_types::{DiskKind, Listed, NoMemory, Text};
use std::alloc::Global;

/// A run of the service, and how it goes.
#[derive(Clone, Copy)]
pub(crate) struct Run<'a> {
    pub(crate) words: &'a [&'a [u8]],
    /// The connections that are served.
    pub(crate) turns: &'a [Turn],
    /// Those behind them, which aren't accepted.
    pub(crate) left: &'a [Turn],
    /// How many it is to serve: so many, or as many as its turns.
    pub(crate) requests: Option<u32>,
    /// Which accepts fail.
    pub(crate) refused: &'a [u64],
    /// What the clock answers. Behind the last one it repeats it.
    pub(crate) moments: [u64; 8],
    /// How many bytes may be written to standard error.
    pub(crate) room: u64,
    pub(crate) status: u8,
    pub(crate) errs: &'a [u8],
}

impl Run<'_> {
    pub(crate) const SERVE: Run<'static> = Run {
        words: &[b"serve"],
        turns: &[],
        left: &[],
        requests: None,
        refused: &[],
        moments: [0; 8],
        room: 100,
        status: 0,
        errs: b"",
    };
}

/// What is done or looked at next.
#[derive(Clone, Copy)]
pub(crate) enum Step<'a> {
    Serves(Run<'a>),
    /// This is left on the disk.
    Left(Left<'a>),
}

/// How a run went beside its row.
#[derive(Clone, Copy, Debug, PartialEq, Eq)]
pub(crate) enum Went {
    AsSaid,
    /// It isn't made, or a step that looks found something else.
    Otherwise,
    /// It has another status.
    Status(u8),
    /// It printed something else.
    Printed,
    /// So many connections were served.
    Served(u64),
    /// The first turn that went otherwise.
    Turn(usize),
}

/// What stands around a run.
#[derive(Drop)]
pub(crate) struct Outside {
    words: Vec<Text>,
    clock: ClockList,
    pub(crate) conns: ConnsMem,
    outputs: Outputs,
}

#[derive(Drop)]
struct Outputs {
    out: SinkMem,
    errs: SinkMem,
}

fn make_outputs(alloc: Global, room: u64) -> Result<Outputs, NoMemory> {
    let out = SinkMem::new(alloc, 100, &[])?;
    match SinkMem::new(alloc, room, &[]) {
        Ok(errs) => Ok(Outputs { out, errs }),
        Err(NoMemory) => Err(NoMemory),
    }
}

/// What stands around a run over these connections.
pub(crate) fn make_outside(
    alloc: Global,
    run: &Run,
    coming: ConnMems,
) -> Result<Outside, NoMemory> {
    let conns = ConnsMem::new(alloc, coming, run.refused)?;
    let outputs = make_outputs(alloc, run.room)?;
    let words = texts(alloc, run.words)?;
    match ClockList::new(alloc, &run.moments) {
        Ok(clock) => Ok(Outside {
            words,
            clock,
            conns,
            outputs,
        }),
        Err(NoMemory) => Err(NoMemory),
    }
}

/// All connections of a run.
fn coming(alloc: Global, run: &Run) -> Result<ConnMems, NoMemory> {
    let mut list = conns(alloc, run.turns)?;
    for turn in run.left {
        list.push(conn(alloc, turn)?)?;
    }
    Ok(list)
}

/// Serves so many connections: the status, and the disk.
pub(crate) fn serve<K: Keeper>(
    alloc: Global,
    outside: &mut Outside,
    disk: MemoryDisk,
    keeper: &mut K,
    requests: u32,
) -> (u8, MemoryDisk) {
    let Ran { status, disk } = run_serve(
        alloc,
        &outside.words,
        disk,
        EveryByte,
        &mut outside.conns,
        keeper,
        &mut outside.clock,
        &mut outside.outputs.out,
        &mut outside.outputs.errs,
        requests,
    );
    (status, disk)
}

/// The same by a session that begins at this moment.
pub(crate) fn hold<K: Keeper>(
    alloc: Global,
    outside: &mut Outside,
    disk: MemoryDisk,
    keeper: &mut K,
    at: u64,
    requests: u32,
) -> Session<MemoryDisk> {
    run_session(
        alloc,
        disk,
        EveryByte,
        &mut outside.conns,
        keeper,
        &mut outside.clock,
        at,
        requests,
    )
}

/// Whether nothing is on standard output, and this on standard error.
pub(crate) fn printed(outside: &Outside, errs: &[u8]) -> bool {
    outside.outputs.out.written().is_empty() && outside.outputs.errs.written() == errs
}

fn compare(alloc: Global, run: &Run, status: u8, outside: &Outside) -> Went {
    if let Some(place) = first_other(alloc, &outside.conns, run.turns) {
        Went::Turn(place)
    } else if outside.conns.served() != run.turns.len() as u64 {
        Went::Served(outside.conns.served())
    } else if status != run.status {
        Went::Status(status)
    } else if !printed(outside, run.errs) {
        Went::Printed
    } else {
        Went::AsSaid
    }
}

fn count_of(run: &Run) -> u32 {
    match run.requests {
        Some(count) => count,
        None => run.turns.len().min(1000) as u32,
    }
}

/// How a run goes, and the disk.
pub(crate) fn make_run<K: Keeper>(
    alloc: Global,
    run: &Run,
    disk: MemoryDisk,
    keeper: &mut K,
) -> (Went, MemoryDisk) {
    match outside_of(alloc, run) {
        Ok(mut outside) => {
            let (status, disk) = serve(alloc, &mut outside, disk, keeper, count_of(run));
            (compare(alloc, run, status, &outside), disk)
        }
        Err(NoMemory) => (Went::Otherwise, disk),
    }
}

fn outside_of(alloc: Global, run: &Run) -> Result<Outside, NoMemory> {
    let coming = coming(alloc, run)?;
    make_outside(alloc, run, coming)
}

fn take<K: Keeper>(
    alloc: Global,
    step: &Step,
    disk: MemoryDisk,
    keeper: &mut K,
) -> (Went, MemoryDisk) {
    match step {
        Step::Serves(row) => make_run(alloc, row, disk, keeper),
        Step::Left(left) => {
            let mut disk = disk;
            if stands(alloc, &mut disk, *left) {
                (Went::AsSaid, disk)
            } else {
                (Went::Otherwise, disk)
            }
        }
    }
}

/// How steps go one after another from this disk on: the first that goes otherwise.
pub(crate) fn play<K: Keeper>(
    alloc: Global,
    disk: MemoryDisk,
    keeper: &mut K,
    steps: &[Step],
) -> Option<(usize, Went)> {
    let mut disk = disk;
    for (place, step) in steps.iter().enumerate() {
        let (went, left) = take(alloc, step, disk, keeper);
        disk = left;
        if went != Went::AsSaid {
            return Some((place, went));
        }
    }
    None
}

/// An empty disk, of which this call is denied, and which stops after so many.
pub(crate) fn disk(
    alloc: Global,
    failing: Option<u64>,
    stop_after: Option<u64>,
) -> Result<MemoryDisk, NoMemory> {
    let mut calls = Listed::new(alloc);
    if let Some(call) = failing {
        calls.push(FailingCall {
            call,
            kind: DiskKind::Denied,
        })?;
    }
    MemoryDisk::new(alloc, calls, stop_after)
}

/// An empty disk of which this call is denied, and a history of which these calls fail.
pub(crate) fn tools(
    alloc: Global,
    denied: Option<u64>,
    failing: &[u64],
) -> Result<(MemoryDisk, MemoryKeeper), NoMemory> {
    let keeper = MemoryKeeper::new(alloc, failing)?;
    match disk(alloc, denied, None) {
        Ok(disk) => Ok((disk, keeper)),
        Err(NoMemory) => Err(NoMemory),
    }
}

/// How steps go over these: the first that goes otherwise.
pub(crate) fn played(
    alloc: Global,
    denied: Option<u64>,
    failing: &[u64],
    steps: &[Step],
) -> Option<(usize, Went)> {
    match tools(alloc, denied, failing) {
        Ok((disk, mut keeper)) => play(alloc, disk, &mut keeper, steps),
        Err(NoMemory) => Some((usize::MAX, Went::Otherwise)),
    }
}
