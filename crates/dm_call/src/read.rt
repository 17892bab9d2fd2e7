//! What a request asks.
ghost use Rattle.std.specs.Prelude.{◌≡◌, Ok, Some, IfOk, IfErr};
ghost use Rattle.dm_call.specs.Asked.{Refuses, asked, asked_of};
ghost use Rattle.dm_call.specs.Fitting.{FitsCall};
ghost use Rattle.dm_call.specs.Query.{window_of};
ghost use Rattle.dm_call.specs.Held.{RefusesQuery};

use crate::call::{Call, CallFault, Refusal, Target, Window};
use crate::content::read_named;
use crate::query::read_window;
use crate::request::{ApiRequest, MethodKind};
use crate::routes::read_target;
use std::alloc::Global;

/// What the request asks.
pub fn read_call(alloc: Global, request: &ApiRequest) -> Result<Call, CallFault>
    ensures ok { IfOk result (λ call. asked request.now ≡ Ok call) }
    ensures fits { IfOk result FitsCall }
    ensures err { IfErr result (Refuses (asked request.now)) }
{
    match read_target(alloc, request.path.bytes())? {
        Some(target) => call_on(alloc, request, target),
        None => Err(CallFault::Refused(Refusal::Path)),
    }
}

/// What the request asks of what its path names.
fn call_on(alloc: Global, request: &ApiRequest, target: Target) -> Result<Call, CallFault>
    ensures ok { IfOk result (λ call. asked_of request.now target ≡ Ok call) }
    ensures fits { IfOk result FitsCall }
    ensures err { IfErr result (Refuses (asked_of request.now target)) }
{
    match (target, request.method) {
        (Target::Items, MethodKind::Get) => Ok(Call::Page(window(alloc, request)?)),
        (Target::Items, MethodKind::Post) => {
            Ok(Call::Add(read_named(alloc, request.body.bytes())?))
        }
        (Target::Item(id), MethodKind::Get) => Ok(Call::Show(id)),
        (Target::Item(id), MethodKind::Delete) => Ok(Call::Remove(id)),
        (Target::Pause(id), MethodKind::Post) => Ok(Call::Pause(id)),
        (Target::Resume(id), MethodKind::Post) => Ok(Call::Resume(id)),
        (Target::Cancel(id), MethodKind::Post) => Ok(Call::Cancel(id)),
        (Target::Archive, MethodKind::Post) => Ok(Call::Archive),
        (Target::History, MethodKind::Get) => Ok(Call::History(window(alloc, request)?)),
        (Target::Report, MethodKind::Get) => Ok(Call::Report),
        (Target::Stop, MethodKind::Post) => Ok(Call::Stop),
        _ => Err(CallFault::Refused(Refusal::Method(target))),
    }
}

/// The part of a list that the request's query tells.
fn window(alloc: Global, request: &ApiRequest) -> Result<Window, CallFault>
    ensures ok { IfOk result (λ window. window_of request.now.query ≡ Some window) }
    ensures err { IfErr result (RefusesQuery (window_of request.now.query)) }
{
    match read_window(alloc, request.query.bytes())? {
        Some(window) => Ok(window),
        None => Err(CallFault::Refused(Refusal::Query)),
    }
}
