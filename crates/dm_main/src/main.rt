//! The program `dm`: it hands the system's disk, net, clock and outputs to the top call.
#![tactic(auto)]

ghost use Rattle.dm_report.specs.Verdict.{IsMade};

mod output;
mod streams;
mod words;

use dm_cli::{Ending, Verdict, print_ending, refused, run_program};
use dm_conns::Conns;
use dm_conns_real::TcpConns;
use dm_disk_model::{Disk, NamesFault};
use dm_disk_real::RealDisk;
use dm_edge::EveryByte;
use dm_edge_real::{StreamSink, SystemClock, TcpNet};
use dm_hist::{Keeper, KeeperFault};
use dm_hist_sql::SqlKeeper;
use dm_rehearse_run::{read_rehearsal, run_rehearsal};
use dm_serve::{is_serve, run_serve};
use dm_types::{DiskKind, Text};
use dm_words::{BadWords, read_serve};
use output::Output;
use std::alloc::Global;
use std::process::ExitCode;
use streams::hold_streams;
use words::{WordsFault, read_words};

/// The folders of the disk, in the folder that the program is started in.
const STATE: &str = "dm-state";

const FILES: &str = "dm-files";

/// The file of the history.
const HISTORY: &str = "dm-state/history.sqlite";

/// Says how the program ends that did nothing, and answers the status.
fn tell(
    alloc: Global,
    verdict: Verdict,
    out: &mut StreamSink<Output>,
    errs: &mut StreamSink<Output>,
) -> u8
    requires { IsMade verdict → ⊥ }
{
    print_ending(&Ending::fixed(alloc, verdict), out, errs)
}

/// Does what the words say over this disk and history.
fn run_over<D: Disk + Drop, K: Keeper + Drop>(
    rt: HostRuntime,
    words: &[Text],
    disk: D,
    keeper: K,
    out: &mut StreamSink<Output>,
    errs: &mut StreamSink<Output>,
) -> u8 {
    let mut keeper = keeper;
    let mut net = TcpNet::new(rt);
    let mut clock = SystemClock::new(rt);
    let ran = run_program(
        rt.alloc(),
        words,
        &[],
        disk,
        &mut net,
        &mut keeper,
        &mut clock,
        out,
        errs,
    );
    ran.status
}

/// Opens the history, or makes it, and does what the words say.
fn run_kept<D: Disk + Drop>(
    rt: HostRuntime,
    words: &[Text],
    disk: D,
    out: &mut StreamSink<Output>,
    errs: &mut StreamSink<Output>,
) -> u8 {
    let alloc = rt.alloc();
    match SqlKeeper::open(alloc, &rt, HISTORY) {
        Ok(keeper) => run_over(rt, words, disk, keeper, out, errs),
        Err(KeeperFault::Failed) => tell(alloc, Verdict::HistoryFailed, out, errs),
        Err(KeeperFault::NoMemory) => tell(alloc, Verdict::NoMemory, out, errs),
    }
}

/// Makes the disk and does what the words say. They are a command, so the folders may be made.
fn run(
    rt: HostRuntime,
    words: &[Text],
    out: &mut StreamSink<Output>,
    errs: &mut StreamSink<Output>,
) -> u8 {
    let alloc = rt.alloc();
    match RealDisk::new(rt, alloc, STATE, FILES) {
        Ok(disk) => run_kept(rt, words, disk, out, errs),
        Err(NamesFault::Disk(kind)) => tell(alloc, Verdict::DiskFailed(kind), out, errs),
        Err(NamesFault::NoMemory) => tell(alloc, Verdict::NoMemory, out, errs),
    }
}

/// Serves the list of this disk and this history over these connections.
fn serve_over<D: Disk + Drop, K: Keeper + Drop, X: Conns + Drop>(
    rt: HostRuntime,
    words: &[Text],
    disk: D,
    keeper: K,
    conns: X,
    out: &mut StreamSink<Output>,
    errs: &mut StreamSink<Output>,
) -> u8 {
    let mut conns = conns;
    let mut keeper = keeper;
    let mut clock = SystemClock::new(rt);
    let ran = run_serve(
        rt.alloc(),
        words,
        disk,
        EveryByte,
        &mut conns,
        &mut keeper,
        &mut clock,
        out,
        errs,
        u32::MAX,
    );
    ran.status
}

/// Opens the port and serves.
fn listen<D: Disk + Drop, K: Keeper + Drop>(
    rt: HostRuntime,
    words: &[Text],
    port: u16,
    disk: D,
    keeper: K,
    out: &mut StreamSink<Output>,
    errs: &mut StreamSink<Output>,
) -> u8 {
    let alloc = rt.alloc();
    match TcpConns::open(&rt, port) {
        Ok(conns) => serve_over(rt, words, disk, keeper, conns, out, errs),
        Err(_) => tell(alloc, Verdict::NotAccepted, out, errs),
    }
}

/// Opens the history, or makes it, opens the port and serves.
fn serve_kept<D: Disk + Drop>(
    rt: HostRuntime,
    words: &[Text],
    port: u16,
    disk: D,
    out: &mut StreamSink<Output>,
    errs: &mut StreamSink<Output>,
) -> u8 {
    let alloc = rt.alloc();
    match SqlKeeper::open(alloc, &rt, HISTORY) {
        Ok(keeper) => listen(rt, words, port, disk, keeper, out, errs),
        Err(KeeperFault::Failed) => tell(alloc, Verdict::HistoryFailed, out, errs),
        Err(KeeperFault::NoMemory) => tell(alloc, Verdict::NoMemory, out, errs),
    }
}

/// Makes the disk, opens the history and the port, and serves.
fn serve(
    rt: HostRuntime,
    words: &[Text],
    port: u16,
    out: &mut StreamSink<Output>,
    errs: &mut StreamSink<Output>,
) -> u8 {
    let alloc = rt.alloc();
    match RealDisk::new(rt, alloc, STATE, FILES) {
        Ok(disk) => serve_kept(rt, words, port, disk, out, errs),
        Err(NamesFault::Disk(kind)) => tell(alloc, Verdict::DiskFailed(kind), out, errs),
        Err(NamesFault::NoMemory) => tell(alloc, Verdict::NoMemory, out, errs),
    }
}

/// Serves, where the words ask for it and no standard stream is missing that could not be held.
fn begin_service(
    rt: HostRuntime,
    words: &[Text],
    streams_held: bool,
    out: &mut StreamSink<Output>,
    errs: &mut StreamSink<Output>,
) -> u8 {
    let alloc = rt.alloc();
    match read_serve(words) {
        Ok(port) if streams_held => serve(rt, words, port, out, errs),
        Ok(_) => tell(alloc, Verdict::DiskFailed(DiskKind::Failed), out, errs),
        Err(BadWords) => tell(alloc, Verdict::BadWords, out, errs),
    }
}

fn main(rt: HostRuntime) -> ExitCode {
    // Before any other file is opened. They are held to the end.
    let streams = hold_streams(&rt);
    let alloc = rt.alloc();
    let mut out = StreamSink::new(Output::out(&rt));
    let mut errs = StreamSink::new(Output::errs(&rt));
    let words = match read_words(&rt, alloc) {
        Ok(words) => words,
        Err(WordsFault::TooLong) => {
            return ExitCode::from(tell(alloc, Verdict::BadWords, &mut out, &mut errs));
        }
        Err(WordsFault::NoMemory) => {
            return ExitCode::from(tell(alloc, Verdict::NoMemory, &mut out, &mut errs));
        }
    };
    // Wholly in memory: no folder is made.
    if let Some(number) = read_rehearsal(&words) {
        return ExitCode::from(run_rehearsal(alloc, number, &mut out, &mut errs));
    }
    if is_serve(&words) {
        let status = begin_service(rt, &words, streams.is_ok(), &mut out, &mut errs);
        return ExitCode::from(status);
    }
    let status = match (refused(alloc, &words), &streams) {
        (Some(ending), _) => print_ending(&ending, &mut out, &mut errs),
        (None, Ok(_)) => run(rt, &words, &mut out, &mut errs),
        (None, Err(_)) => tell(
            alloc,
            Verdict::DiskFailed(DiskKind::Failed),
            &mut out,
            &mut errs,
        ),
    };
    ExitCode::from(status)
}
