//! Why a request isn't done.
ghost use Rattle.std.specs.Prelude.{◌≡◌, IfOk};
ghost use Rattle.serde_json.specs.View.{view};
ghost use Rattle.dm_response.specs.declared.trouble.Trouble.TheVariants as troubles;
ghost use Rattle.dm_response.specs.Reply.{trouble_of};
ghost use Rattle.dm_response.specs.Trouble.{error_data, status_of, target_told, trouble_data, word_of_refusal, status_of_refusal};

use crate::json::{text_of, word_of};
use crate::reply::{ApiReply, Media, reply_with};
use dm_call::{Refusal, Target};
use dm_types::{ItemId, NoMemory, Phase};
use http::StatusCode;
use serde_json::{Value, json};
use std::alloc::Global;

/// Why a request isn't done.
#[derive(Clone, Copy, Debug, PartialEq, Eq)]
pub enum Trouble {
    /// Its bytes can't begin the head of a request.
    Head,
    /// The length of its content can't be known.
    Length,
    /// It has more bytes than the service takes.
    Size,
    /// It asks nothing.
    Refused(Refusal),
    NoItem,
    /// The item's state doesn't let it.
    WrongState(Phase),
    /// The word is the one of this item, which has another address.
    OtherWord(ItemId),
    /// The list is full, with so many items.
    Full(u32),
    Memory,
    /// A call on the disk failed.
    Disk,
    /// An earlier entry failed, and the list takes no other one.
    Broken,
    /// A call on the history failed.
    History,
}

/// The reply to a request that isn't done.
pub fn trouble_reply(alloc: Global, trouble: Trouble) -> Result<ApiReply, NoMemory>
    ensures { IfOk result (λ reply. reply ≡ trouble_of trouble) }
{
    let value = value_of(alloc, trouble)?;
    let text = text_of(alloc, &value)?;
    reply_with(
        alloc,
        status(trouble),
        Media::Json,
        target(trouble),
        text.bytes(),
        false,
    )
}

fn value_of(alloc: Global, trouble: Trouble) -> Result<Value, NoMemory>
    ensures { IfOk result (λ value. view value ≡ trouble_data trouble) }
{
    match trouble {
        Trouble::Head => error(alloc, "head"),
        Trouble::Length => error(alloc, "length"),
        Trouble::Size => error(alloc, "size"),
        Trouble::Refused(refusal) => error(alloc, refusal_word(refusal)),
        Trouble::NoItem => error(alloc, "item"),
        Trouble::WrongState(phase) => wrong_state(alloc, phase),
        Trouble::OtherWord(id) => other_word(alloc, id),
        Trouble::Full(count) => full(alloc, count),
        Trouble::Memory => error(alloc, "memory"),
        Trouble::Disk => error(alloc, "disk"),
        Trouble::Broken => error(alloc, "broken"),
        Trouble::History => error(alloc, "history"),
    }
}

fn error(alloc: Global, word: &str) -> Result<Value, NoMemory>
    ensures { IfOk result (λ value. view value ≡ error_data word.now) }
{
    let value = json!(in alloc; {"error": word})?;
    Ok(value)
}

fn wrong_state(alloc: Global, phase: Phase) -> Result<Value, NoMemory>
    ensures { IfOk result (λ value. view value ≡ trouble_data (troubles.WrongState phase)) }
{
    let value = json!(in alloc; {"error": "phase", "phase": word_of(phase)})?;
    Ok(value)
}

fn other_word(alloc: Global, id: ItemId) -> Result<Value, NoMemory>
    ensures { IfOk result (λ value. view value ≡ trouble_data (troubles.OtherWord id)) }
{
    let value = json!(in alloc; {"error": "word", "item": id.0})?;
    Ok(value)
}

fn full(alloc: Global, count: u32) -> Result<Value, NoMemory>
    ensures { IfOk result (λ value. view value ≡ trouble_data (troubles.Full count)) }
{
    let value = json!(in alloc; {"error": "full", "count": count})?;
    Ok(value)
}

fn refusal_word(refusal: Refusal) -> &'static str
    ensures { result.now ≡ word_of_refusal refusal }
{
    match refusal {
        Refusal::Path => "path",
        Refusal::Method(_) => "method",
        Refusal::Query => "query",
        Refusal::Json => "json",
        Refusal::Word => "word",
        Refusal::Url => "url",
        Refusal::Name => "name",
        Refusal::Sha256 => "sha256",
    }
}

fn status(trouble: Trouble) -> StatusCode
    ensures { result ≡ status_of trouble }
{
    match trouble {
        Trouble::Head | Trouble::Length => StatusCode::BAD_REQUEST,
        Trouble::Size => StatusCode::PAYLOAD_TOO_LARGE,
        Trouble::Refused(refusal) => refusal_status(refusal),
        Trouble::NoItem => StatusCode::NOT_FOUND,
        Trouble::WrongState(_) | Trouble::OtherWord(_) | Trouble::Full(_) => StatusCode::CONFLICT,
        Trouble::Memory => StatusCode::INTERNAL_SERVER_ERROR,
        Trouble::Disk | Trouble::Broken | Trouble::History => StatusCode::SERVICE_UNAVAILABLE,
    }
}

fn refusal_status(refusal: Refusal) -> StatusCode
    ensures { result ≡ status_of_refusal refusal }
{
    match refusal {
        Refusal::Path => StatusCode::NOT_FOUND,
        Refusal::Method(_) => StatusCode::METHOD_NOT_ALLOWED,
        Refusal::Query | Refusal::Json => StatusCode::BAD_REQUEST,
        Refusal::Word | Refusal::Url => StatusCode::BAD_REQUEST,
        Refusal::Name | Refusal::Sha256 => StatusCode::BAD_REQUEST,
    }
}

fn target(trouble: Trouble) -> Option<Target>
    ensures { result ≡ target_told trouble }
{
    match trouble {
        Trouble::Refused(Refusal::Method(target)) => Some(target),
        _ => None,
    }
}
