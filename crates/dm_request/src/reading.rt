//! A text as a URL that `dm` fetches.
ghost use Rattle.std.specs.Prelude.{◌≡◌, ◌≤◌, true, length, Option, None, Some, IfOk, IfErr, IsAscii};
ghost use Rattle.std.specs.Str.{is_utf8};
ghost use Rattle.url.specs.Parts.{Parts, IsValid};
ghost use Rattle.url.specs.Parser.{Parsed, Gives};
ghost use Rattle.dm_request.specs.Address as spec;
ghost use Rattle.dm_request.specs.Reading.{fetched, fetched_of, url_of, IsFetched};
ghost use Rattle.dm_request.specs.Fault.{Answers, IsFaultOf};

use crate::address::AddressFault;
use std::alloc::Global;
use url::{ParseError, ParseResult, Position, Url};

/// The most bytes of an address.
const MOST: usize = 4096;

/// The URL of an address that stands alone.
pub(crate) fn read_url(alloc: Global, text: &[u8]) -> Result<Url, AddressFault>
    ensures answers { Answers (url_of None text.now) result }
    ensures fetched { IfOk result IsFetched }
{
    match readable(text) {
        Ok(text) => checked(Url::parse(alloc, text)),
        Err(fault) => Err(fault),
    }
}

/// The URL of an address that is written from another.
pub(crate) fn join_url(base: &Url, text: &[u8]) -> Result<Url, AddressFault>
    ensures answers { Answers (url_of (Some base.now) text.now) result }
    ensures fetched { IfOk result IsFetched }
{
    match readable(text) {
        Ok(text) => checked(base.join(text)),
        Err(fault) => Err(fault),
    }
}

/// The text, where it isn't too long and is UTF-8.
fn readable(text: &[u8]) -> Result<&str, AddressFault>
    ensures ok { IfOk result (λ read. (read.now ≡ text.now) × (length text.now ≤ 4096) × (is_utf8 text.now ≡ true)) }
    ensures err { IfErr result (λ fault. (base : Option Parts) → url_of base text.now ≡ Err fault) }
{
    if text.len() > MOST {
        return Err(AddressFault::TooLong(text.len()));
    }
    match str::from_utf8(text) {
        Ok(text) => Ok(text),
        Err(_) => Err(AddressFault::NotUrl),
    }
}

/// What the parser gave, where that is a URL that is fetched.
fn checked(parsed: ParseResult<Url>) -> Result<Url, AddressFault>
    ensures answers { (expected : Parsed Parts) → Gives parsed expected → Answers (fetched_of expected) result }
    ensures fetched { IfOk result IsFetched }
{
    match parsed {
        Ok(url) => fetched(url),
        Err(error) => Err(fault_of(error)),
    }
}

/// Why a text that the parser refuses is refused.
fn fault_of(error: ParseError) -> AddressFault
    ensures { (expected : Parsed Parts) → Gives (Err error) expected → IsFaultOf (fetched_of expected) result }
{
    match error {
        ParseError::OutOfMemory => AddressFault::NoMemory,
        ParseError::Overflow => AddressFault::NoMemory,
        ParseError::EmptyHost => AddressFault::NotUrl,
        ParseError::IdnaError => AddressFault::NotUrl,
        ParseError::InvalidPort => AddressFault::NotUrl,
        ParseError::InvalidIpv4Address => AddressFault::NotUrl,
        ParseError::InvalidIpv6Address => AddressFault::NotUrl,
        ParseError::InvalidDomainCharacter => AddressFault::NotUrl,
        ParseError::RelativeUrlWithoutBase => AddressFault::NotUrl,
        ParseError::RelativeUrlWithCannotBeABaseBase => AddressFault::NotUrl,
        ParseError::SetHostOnCannotBeABaseUrl => AddressFault::NotUrl,
        ParseError::CannotSet => AddressFault::NotUrl,
    }
}

/// The URL, where its text isn't too long and its scheme is `http`, without a user.
fn fetched(url: Url) -> Result<Url, AddressFault>
    ensures answers { fetched url ≡ result }
    ensures fetched { IfOk result IsFetched }
{
    let length = text_of(&url).len();
    if length > MOST {
        Err(AddressFault::TooLong(length))
    } else if is_http(&url) {
        Ok(url)
    } else {
        Err(AddressFault::NotHttp)
    }
}

fn is_http(url: &Url) -> bool
    ensures { result ≡ spec.is_http url.now }
{
    url.scheme() == "http" && url.username().is_empty() && url.password().is_none()
}

/// The URL without its fragment.
pub(crate) fn text_of(url: &Url) -> &str
    ensures value { result.now ≡ spec.text_of url.now }
    ensures ascii { IsAscii result.now }
    ensures valid { IsValid url.now }
{
    url.slice(Position::BeforeScheme, Position::AfterQuery)
}

/// The path and the query.
pub(crate) fn target(url: &Url) -> &str
    ensures { result.now ≡ spec.target_of url.now }
{
    url.slice(Position::BeforePath, Position::AfterQuery)
}
