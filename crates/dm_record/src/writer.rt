//! Entries, written as bytes.

ghost use Rattle.std.specs.Prelude.{◌≡◌, ◌≤◌, ◌<◌, ◌^◌, length, IfOk, IfSome, ⊤};
ghost use Rattle.dm_record.specs.Spelling.{phase_byte, order_fields, phase_fields, course_fields, told_fields, kept_fields, item_fields, fields_of, spelling_of};
ghost use Rattle.dm_record.specs.Limits.{IsBytes, IsDigest, IsSpellable, IsSpellableItem, IsTag, IsCount, AtMost, IsItem, IsInRange, IsEntry};
ghost use Rattle.dm_record.specs.Writing.{Adds, AddsFields, IsOrder, IsCourse, IsTold, IsKept};

use crate::puts::{
    put_byte, put_digest, put_flag, put_kept_reason, put_key, put_known_key, put_known_text,
    put_known_total, put_reason, put_slices, put_stated_digest, put_text, put_u32, put_u64,
};
use dm_types::{
    Attempt, By, Entry, Epoch, Item, ItemId, Key, NoMemory, Phase, Reason, Slices, Text,
};
use std::alloc::Global;

fn put_added(
    out: &mut Text,
    id: ItemId,
    word: &Text,
    address: &Text,
    wish: &Text,
    digest: &Option<[u8; 32]>,
    at: u64,
) -> Result<(), NoMemory>
    requires { IsSpellable (Entry.Added id word.now address.now wish.now digest.now at) }
    ensures { AddsFields out.old out.new result (Entry.Added id word.now address.now wish.now digest.now at) }
{
    put_u32(out, id.0)?;
    put_text(out, word)?;
    put_text(out, address)?;
    put_text(out, wish)?;
    put_stated_digest(out, digest)?;
    put_u64(out, at)
}

fn put_began(out: &mut Text, id: ItemId, attempt: Attempt, by: By, at: u64) -> Result<(), NoMemory>
    ensures { AddsFields out.old out.new result (Entry.Began id attempt by at) }
{
    put_u32(out, id.0)?;
    put_u32(out, attempt.0)?;
    match by {
        By::User => put_byte(out, 1)?,
        By::Itself => put_byte(out, 2)?,
    }
    put_u64(out, at)
}

fn put_described(
    out: &mut Text,
    id: ItemId,
    key: &Key,
    last_address: &Text,
    total: Option<u64>,
    name: &Text,
    modified: &Text,
) -> Result<(), NoMemory>
    requires { IsSpellable (Entry.Described id key.now last_address.now total name.now modified.now) }
    ensures { AddsFields out.old out.new result (Entry.Described id key.now last_address.now total name.now modified.now) }
{
    put_u32(out, id.0)?;
    put_key(out, key)?;
    put_text(out, last_address)?;
    put_known_total(out, total)?;
    put_text(out, name)?;
    put_text(out, modified)
}

fn put_progress(out: &mut Text, id: ItemId, slices: &Slices) -> Result<(), NoMemory>
    requires { IsSpellable (Entry.Progress id slices.now) }
    ensures { AddsFields out.old out.new result (Entry.Progress id slices.now) }
{
    put_u32(out, id.0)?;
    put_slices(out, slices)
}

fn put_broke(out: &mut Text, id: ItemId, reason: Reason) -> Result<(), NoMemory>
    ensures { AddsFields out.old out.new result (Entry.Broke id reason) }
{
    put_u32(out, id.0)?;
    put_reason(out, reason)
}

fn put_restarted(out: &mut Text, id: ItemId, epoch: Epoch, because: u8) -> Result<(), NoMemory>
    ensures { AddsFields out.old out.new result (Entry.Restarted id epoch because) }
{
    put_u32(out, id.0)?;
    put_u32(out, epoch.0)?;
    put_byte(out, because)
}

fn put_finishing(out: &mut Text, id: ItemId, total: u64) -> Result<(), NoMemory>
    ensures { AddsFields out.old out.new result (Entry.Finishing id total) }
{
    put_u32(out, id.0)?;
    put_u64(out, total)
}

fn put_done(out: &mut Text, id: ItemId, digest: &[u8; 32], at: u64) -> Result<(), NoMemory>
    ensures { AddsFields out.old out.new result (Entry.Done id digest.now at) }
{
    put_u32(out, id.0)?;
    put_digest(out, digest)?;
    put_u64(out, at)
}

fn put_reopened(out: &mut Text, next: u32, at: u64) -> Result<(), NoMemory>
    ensures { AddsFields out.old out.new result (Entry.Reopened next at) }
{
    put_u32(out, next)?;
    put_u64(out, at)
}

fn put_order(out: &mut Text, item: &Item) -> Result<(), NoMemory>
    requires { IsSpellableItem item.now }
    ensures { Adds out.old out.new result (order_fields item.now) (IsOrder item.now) }
{
    put_u32(out, item.id.0)?;
    put_text(out, &item.word)?;
    put_text(out, &item.first_address)?;
    put_text(out, &item.wish)?;
    put_stated_digest(out, &item.digest)
}

fn phase_code(phase: Phase) -> u8
    ensures { result ≡ phase_byte phase }
{
    match phase {
        Phase::Waiting => 1,
        Phase::Running => 2,
        Phase::Paused => 3,
        Phase::Finishing => 4,
        Phase::Complete => 5,
        Phase::Cancelled => 6,
        Phase::Interrupted(_) => 7,
    }
}

fn put_phase(out: &mut Text, item: &Item) -> Result<(), NoMemory>
    ensures { Adds out.old out.new result (phase_fields item.now) ⊤ }
{
    put_byte(out, phase_code(item.phase))?;
    put_kept_reason(out, item.reason)
}

fn put_course(out: &mut Text, item: &Item) -> Result<(), NoMemory>
    ensures { Adds out.old out.new result (course_fields item.now) (IsCourse item.now) }
{
    put_u32(out, item.epoch.0)?;
    put_u32(out, item.attempt.0)?;
    put_u32(out, item.autos)?;
    put_flag(out, item.begun)
}

fn put_told(out: &mut Text, item: &Item) -> Result<(), NoMemory>
    requires { IsSpellableItem item.now }
    ensures { Adds out.old out.new result (told_fields item.now) (IsTold item.now) }
{
    put_known_key(out, &item.key)?;
    put_known_text(out, &item.last_address)?;
    put_known_total(out, item.total)?;
    put_known_text(out, &item.name)?;
    put_known_text(out, &item.modified)
}

fn put_kept(out: &mut Text, item: &Item) -> Result<(), NoMemory>
    requires { IsSpellableItem item.now }
    ensures { Adds out.old out.new result (kept_fields item.now) (IsKept item.now) }
{
    put_slices(out, &item.slices)?;
    put_stated_digest(out, &item.have)?;
    put_u64(out, item.at_ms)
}

fn put_item(out: &mut Text, item: &Item) -> Result<(), NoMemory>
    requires { IsSpellableItem item.now }
    ensures { Adds out.old out.new result (item_fields item.now) (IsItem item.now) }
{
    put_order(out, item)?;
    put_phase(out, item)?;
    put_course(out, item)?;
    put_told(out, item)?;
    put_kept(out, item)
}

fn put_fields(out: &mut Text, entry: &Entry) -> Result<(), NoMemory>
    requires { IsSpellable entry.now }
    ensures { AddsFields out.old out.new result entry.now }
{
    match entry {
        Entry::Added {
            id,
            word,
            address,
            wish,
            digest,
            at,
        } => put_added(out, *id, word, address, wish, digest, *at),
        Entry::Began {
            id,
            attempt,
            by,
            at,
        } => put_began(out, *id, *attempt, *by, *at),
        Entry::Described {
            id,
            key,
            last_address,
            total,
            name,
            modified,
        } => put_described(out, *id, key, last_address, *total, name, modified),
        Entry::Progress { id, slices } => put_progress(out, *id, slices),
        Entry::Broke { id, reason } => put_broke(out, *id, *reason),
        Entry::Restarted { id, epoch, because } => put_restarted(out, *id, *epoch, *because),
        Entry::Finishing { id, total } => put_finishing(out, *id, *total),
        Entry::Done { id, digest, at } => put_done(out, *id, digest, *at),
        Entry::Reopened { next, at } => put_reopened(out, *next, *at),
        Entry::Restored { item } => put_item(out, item),
        Entry::Paused { id } => put_u32(out, id.0),
        Entry::Cancelled { id } => put_u32(out, id.0),
        Entry::Removed { id } => put_u32(out, id.0),
        Entry::Archived { id } => put_u32(out, id.0),
        Entry::Asked { id } => put_u32(out, id.0),
    }
}

fn bytes_of(alloc: Global, entry: &Entry) -> Result<Text, NoMemory>
    requires { IsSpellable entry.now }
    ensures bytes { IfOk result (λ bytes. bytes ≡ spelling_of entry.now) }
    ensures entry { IfOk result (λ _. IsEntry entry.now) }
{
    let mut out = Text::new(alloc);
    put_byte(&mut out, entry.kind())?;
    put_fields(&mut out, entry)?;
    Ok(out)
}

/// The bytes of an entry.
pub fn write_entry(alloc: Global, entry: &Entry) -> Result<Text, NoMemory>
    requires { IsSpellable entry.now }
    ensures bytes { IfOk result (λ bytes. bytes ≡ spelling_of entry.now) }
    // So these bytes are read again as this entry.
    ensures entry { IfOk result (λ _. IsEntry entry.now) }
    ensures length { IfOk result (λ bytes. (1 ≤ length bytes) × (length bytes ≤ 11131)) }
{
    bytes_of(alloc, entry)
}

/// The bytes of a `Broke`. They take no memory, since want of memory is a reason too.
#[tactic(auto, unfolding(crate::specs::Spelling::number))]
pub fn write_broke(id: ItemId, reason: Reason) -> [u8; 7]
    ensures bytes { result ≡ spelling_of (Entry.Broke id reason) }
    ensures entry { IsEntry (Entry.Broke id reason) }
{
    let id = id.0.to_be_bytes();
    let code = reason.code().to_be_bytes();
    [5, id[0], id[1], id[2], id[3], code[0], code[1]]
}

/// The bytes of a `Done`. They take no memory, so that what is published is recorded in any case.
#[tactic(auto, unfolding(crate::specs::Spelling::number))]
pub fn write_done(id: ItemId, digest: &[u8; 32], at: u64) -> [u8; 45]
    ensures bytes { result ≡ spelling_of (Entry.Done id digest.now at) }
    ensures entry { IsEntry (Entry.Done id digest.now at) }
{
    let mut bytes = [10; 45];
    bytes[1..5].copy_from_slice(&id.0.to_be_bytes());
    bytes[5..37].copy_from_slice(digest);
    bytes[37..].copy_from_slice(&at.to_be_bytes());
    bytes
}
