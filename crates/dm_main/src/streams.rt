use std::fs::File;
use std::io;

/// What stands in for missing standard streams, for as long as it is held.
#[derive(Drop)]
pub struct HeldStreams {
    input: File,
    out: File,
    errs: File,
}

/// Opens the topmost folder, to be read, once for each standard stream. The system gives the lowest
/// numbers that are free. So where a stream is missing its number is one of these, and no later
/// file's: what is written to the stream fails, and never comes into a file of the program's own.
pub fn hold_streams(rt: &HostRuntime) -> io::Result<HeldStreams> {
    let input = File::open(rt, "/")?;
    let out = File::open(rt, "/")?;
    let errs = File::open(rt, "/")?;
    Ok(HeldStreams { input, out, errs })
}
