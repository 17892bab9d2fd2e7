ghost use Rattle.std.specs.Prelude.{◌≡◌, ◌≤◌, length, IfOk, IfErr, Result};
ghost use Rattle.dm_types.specs.declared.address.Address.{Address};
ghost use Rattle.dm_request.specs.declared.address.AddressFault.{AddressFault as Fault};
ghost use Rattle.dm_request.specs.Address.{address_of, FitsLines};
ghost use Rattle.dm_request.specs.Fault.{IsRead, Refuses, IsNext, RefusesNext, IsFaultOf, unread_of, HasNone};
ghost use Rattle.dm_request.specs.declared.address.Unread.TheVariants as answers;

use crate::reading::{join_url, read_url, target, text_of};
use dm_types::{Address, NoMemory, Text};
use std::alloc::Global;
use url::{Url, quirks};

/// Why an address is refused.
#[derive(Clone, Copy, Debug, PartialEq, Eq)]
pub enum AddressFault {
    /// The text has this many bytes, or its URL without the fragment has, and 4,096 are the most.
    TooLong(usize),
    /// The text is no UTF-8, or no URL.
    NotUrl,
    /// It is a URL with another scheme than `http`, or with a user name or a password.
    NotHttp,
    /// Memory was wanting.
    NoMemory,
}

/// What a refusal comes to where its cause doesn't matter.
#[derive(Clone, Copy, Debug, PartialEq, Eq)]
pub enum Unread {
    /// The text is no address.
    Refused,
    /// Memory was wanting.
    NoMemory,
}

impl AddressFault {
    /// Whether the text is refused, or memory was wanting.
    pub fn unread(self) -> Unread
        ensures is { result ≡ unread_of self }

        // Where a text is rightly refused, there is no address.
        ensures refused { result ≡ answers.Refused → (expected : Result Address Fault) → IsFaultOf expected self → HasNone expected }
    {
        match self {
            AddressFault::NoMemory => Unread::NoMemory,
            AddressFault::TooLong(_) => Unread::Refused,
            AddressFault::NotUrl => Unread::Refused,
            AddressFault::NotHttp => Unread::Refused,
        }
    }
}

/// The address that a text is, read by the URL Standard, section 4.4, in at most 4,096 bytes.
pub fn read_address(alloc: Global, text: &[u8]) -> Result<Address, AddressFault>
    ensures ok { IfOk result (IsRead text.now) }
    ensures err { IfErr result (Refuses text.now) }

    // No other address is read of this text.
    ensures only { IfOk result (λ address. (other : Address) → IsRead text.now other → other ≡ address) }

    // An address that was read is read of its own text again.
    ensures stable { IfOk result (λ address. IsRead address.text address) }

    // No space stands in its host and its target, and no byte below it, as those of a line's end are.
    ensures lines { IfOk result FitsLines }

    ensures short { IfOk result (λ address. length address.text ≤ 4096) }
{
    let url = match read_url(alloc, text) {
        Ok(url) => url,
        Err(fault) => return Err(fault),
    };
    match address_of(alloc, &url) {
        Ok(address) => Ok(address),
        Err(NoMemory) => Err(AddressFault::NoMemory),
    }
}

/// The address that a Location leads to from this one (RFC 9110, section 10.2.2), joined by the
/// URL Standard. The refusals are those of the joined URL. `TooLong` is also that of the Location
/// itself. Where the text of `base` is no address, it is refused as `read_address` refuses it.
pub fn next_address(alloc: Global, base: &Address, location: &[u8]) -> Result<Address, AddressFault>
    ensures ok { IfOk result (IsNext base.now location.now) }
    ensures err { IfErr result (RefusesNext base.now location.now) }

    // The Location leads to no other address.
    ensures only { IfOk result (λ address. (other : Address) → IsNext base.now location.now other → other ≡ address) }

    // An address that was joined is read of its own text again.
    ensures stable { IfOk result (λ address. IsRead address.text address) }

    // No space stands in its host and its target, and no byte below it, as those of a line's end are.
    ensures lines { IfOk result FitsLines }

    ensures short { IfOk result (λ address. length address.text ≤ 4096) }
{
    let from = match read_url(alloc, base.text.bytes()) {
        Ok(from) => from,
        Err(fault) => return Err(fault),
    };
    let url = match join_url(&from, location) {
        Ok(url) => url,
        Err(fault) => return Err(fault),
    };
    match address_of(alloc, &url) {
        Ok(address) => Ok(address),
        Err(NoMemory) => Err(AddressFault::NoMemory),
    }
}

fn address_of(alloc: Global, url: &Url) -> Result<Address, NoMemory>
    ensures parts { IfOk result (λ address. address ≡ address_of url.now) }
{
    Ok(Address {
        text: Text::from_bytes(alloc, text_of(url).as_bytes())?,
        host: Text::from_bytes(alloc, quirks::hostname(url).as_bytes())?,
        port: url.port().unwrap_or(80),
        target: Text::from_bytes(alloc, target(url).as_bytes())?,
    })
}
