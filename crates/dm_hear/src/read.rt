//! A request is read, piece by piece as it comes.
ghost use Rattle.std.specs.Prelude.{◌≡◌, ◌≤◌, length, take, drop, IfOk};
ghost use Rattle.dm_types.specs.Faults.{HasCause};
ghost use Rattle.dm_edge.specs.Faults.{edge_kind};
ghost use Rattle.dm_conns.specs.Conn.{Reads};
ghost use Rattle.dm_hear.specs.Heard.{Hears, api_kind};
ghost use Rattle.dm_hear.specs.Held.{ArePartsWithin, request_at};
ghost use Rattle.form_urlencoded.specs.Form.{split_once as split_at};

use crate::fault::ApiFault;
use crate::judge::{Judged, MOST_REQUEST, Parts, judge};
use dm_call::{ApiRequest, method_kind};
use dm_conns::Source;
use dm_edge::EdgeFault;
use dm_types::{NoMemory, Text};
use std::alloc::Global;

/// Reads one request, and no byte more than it may have. A source that failed, and want of memory,
/// leave bytes read that aren't told.
pub fn read_api<X: Source>(alloc: Global, source: &mut X) -> Result<ApiRequest, ApiFault>
    // Over a source that tells its bytes, what is left of it decides. Nothing is written to it.
    ensures heard { X.tells → Hears (X.told source.old) (X.told source.new) result }

    // Its faults are told only where they are counted.
    ensures cause { HasCause api_kind (X.faults source.old) (X.faults source.new) result }
{
    let mut buf = room(alloc)?;
    let mut filled = 0;
    loop {
        match judge(&buf[..filled]) {
            Judged::Whole(parts) => return Ok(make_request(alloc, &buf[..filled], &parts)?),
            Judged::Refused(fault) => return Err(fault),
            Judged::More => {}
        }
        match read_more(source, &mut buf, filled) {
            Ok(0) => return Err(ApiFault::Cut),
            Ok(size) => filled += size,
            Err(_) => return Err(ApiFault::Source),
        }
    }
}

/// As many bytes as a request may have.
fn room(alloc: Global) -> Result<Vec<u8>, NoMemory>
    ensures { IfOk result (λ buf. length buf.items ≡ 16384) }
{
    let mut buf = Vec::new(alloc);
    buf.resize(MOST_REQUEST, 0)?;
    Ok(buf)
}

/// Reads behind the first bytes of the buffer.
fn read_more<X: Source>(source: &mut X, buf: &mut [u8], filled: usize) -> Result<usize, EdgeFault>
    requires { filled ≤ length buf.old }
    ensures room { length buf.new ≡ length buf.old }
    ensures kept { take filled buf.new ≡ take filled buf.old }
    ensures within { IfOk result (λ n. n ≤ length (drop filled buf.old)) }
    ensures given { X.tells → Reads (X.told source.old) (X.told source.new) result (drop filled buf.new) }
    ensures cause { HasCause edge_kind (X.faults source.old) (X.faults source.new) result }
{
    source.read(&mut buf[filled..])
}

/// The request with these parts.
fn make_request(alloc: Global, front: &[u8], parts: &Parts) -> Result<ApiRequest, NoMemory>
    requires { ArePartsWithin (length front.now) parts.now }
    ensures { IfOk result (λ request. request ≡ request_at front.now parts.now) }
{
    let (path, query) = split_target(parts.target.of(front));
    Ok(ApiRequest {
        method: method_kind(parts.method.of(front)),
        path: Text::from_bytes(alloc, path)?,
        query: Text::from_bytes(alloc, query)?,
        body: Text::from_bytes(alloc, parts.content.of(front))?,
    })
}

/// The path of a target, and the query behind its first `?`.
fn split_target(target: &[u8]) -> (&[u8], &[u8])
    ensures path { result.0.now ≡ (split_at 63 target.now).0 }
    ensures query { result.1.now ≡ (split_at 63 target.now).1 }
{
    match target.iter().position(|&byte| byte == b'?') {
        Some(at) => (&target[..at], &target[at + 1..]),
        None => (target, &[]),
    }
}
