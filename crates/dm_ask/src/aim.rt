//! An address, and the request for what is wanted there.
ghost use Rattle.std.specs.Prelude.{◌≡◌, IfOk};
ghost use Rattle.dm_edge.specs.Fair.{ask_of, IsOrdered};
ghost use Rattle.dm_request.specs.Request.{request_of};
ghost use Rattle.dm_ask.specs.Asked.{IsAim};

use dm_edge::{Wanted, ask_for};
use dm_request::request_text;
use dm_types::{Address, NoMemory, Text};
use std::alloc::Global;

/// An address, and the request for it.
#[derive(Drop)]
pub struct Aim {
    pub address: Address,
    pub request: Text,
}

/// The request for what is wanted at this address, beside it.
pub fn aim_at(alloc: Global, address: Address, wanted: &Wanted) -> Result<Aim, NoMemory>
    requires { IsOrdered wanted.now }
    ensures address { IfOk result (λ aim. aim.address ≡ address) }
    ensures request { IfOk result (IsAim wanted.now) }
{
    let request = match ask_for(alloc, wanted)? {
        Some(range) => request_text(alloc, &address, Some(&range))?,
        None => request_text(alloc, &address, None)?,
    };
    Ok(Aim { address, request })
}
