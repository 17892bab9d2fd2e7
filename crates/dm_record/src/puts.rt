//! Fields, written at the end of a text.

ghost use Rattle.std.specs.Prelude.{◌≡◌, ◌≤◌, ◌<◌, ◌^◌, ◌∷◌, [], length, IfSome, ⊤};
ghost use Rattle.std.specs.List.{AllByRecursion, flat_map};
ghost use Rattle.std.specs.Int.{w16, w32, w64};
ghost use Rattle.dm_record.specs.Spelling.{number, text, optional, digest, flag_byte, reason, key, slice, slices};
ghost use Rattle.dm_record.specs.Limits.{IsBytes, IsDigest, IsKey, IsTag, IsSlice, IsCount, AtMost};
ghost use Rattle.dm_record.specs.Writing.{Adds};

use dm_types::{Key, NoMemory, Reason, Slice, Slices, Text};

pub(crate) fn put_byte(out: &mut Text, byte: u8) -> Result<(), NoMemory>
    ensures { Adds out.old out.new result (byte ∷ []) (byte < 256) }
{
    out.push_bytes(&[byte])
}

#[tactic(auto, unfolding(crate::specs::Spelling::number))]
fn put_u16(out: &mut Text, n: u16) -> Result<(), NoMemory>
    ensures { Adds out.old out.new result (number w16 n) (n < 2 ^ 16) }
{
    out.push_bytes(&n.to_be_bytes())
}

#[tactic(auto, unfolding(crate::specs::Spelling::number))]
pub(crate) fn put_u32(out: &mut Text, n: u32) -> Result<(), NoMemory>
    ensures { Adds out.old out.new result (number w32 n) (n < 2 ^ 32) }
{
    out.push_bytes(&n.to_be_bytes())
}

#[tactic(auto, unfolding(crate::specs::Spelling::number))]
pub(crate) fn put_u64(out: &mut Text, n: u64) -> Result<(), NoMemory>
    ensures { Adds out.old out.new result (number w64 n) (n < 2 ^ 64) }
{
    out.push_bytes(&n.to_be_bytes())
}

pub(crate) fn put_text(out: &mut Text, field: &Text) -> Result<(), NoMemory>
    requires { length field.now < 2 ^ 16 }
    ensures { Adds out.old out.new result (text field.now) (IsBytes field.now) }
{
    put_u16(out, field.len() as u16)?;
    put_run(out, field.bytes())
}

fn put_run(out: &mut Text, bytes: &[u8]) -> Result<(), NoMemory>
    ensures { Adds out.old out.new result bytes.now (IsBytes bytes.now) }
{
    out.push_bytes(bytes)
}

pub(crate) fn put_digest(out: &mut Text, bytes: &[u8; 32]) -> Result<(), NoMemory>
    ensures { Adds out.old out.new result (digest bytes.now) (IsDigest bytes.now) }
{
    put_run(out, bytes)
}

pub(crate) fn put_flag(out: &mut Text, flag: bool) -> Result<(), NoMemory>
    ensures { Adds out.old out.new result (flag_byte flag ∷ []) ⊤ }
{
    put_byte(out, if flag { 1 } else { 0 })
}

pub(crate) fn put_reason(out: &mut Text, why: Reason) -> Result<(), NoMemory>
    ensures { Adds out.old out.new result (reason why) ⊤ }
{
    put_u16(out, why.code())
}

pub(crate) fn put_key(out: &mut Text, field: &Key) -> Result<(), NoMemory>
    requires { IsTag field.now }
    ensures { Adds out.old out.new result (key field.now) (IsKey field.now) }
{
    match field {
        Key::Strong(tag) => {
            put_byte(out, 1)?;
            put_text(out, tag)
        }
        Key::Once(id, attempt) => {
            put_byte(out, 2)?;
            put_u32(out, id.0)?;
            put_u32(out, attempt.0)
        }
    }
}

fn put_slice(out: &mut Text, field: &Slice) -> Result<(), NoMemory>
    ensures { Adds out.old out.new result (slice field.now) (IsSlice field.now) }
{
    put_u64(out, field.first)?;
    put_u64(out, field.got)?;
    put_flag(out, field.finished)
}

fn put_each(out: &mut Text, fields: &[Slice]) -> Result<(), NoMemory>
    ensures { Adds out.old out.new result (flat_map slice fields.now) (AllByRecursion IsSlice fields.now) }
{
    for field in fields {
        put_slice(out, field)?;
    }
    Ok(())
}

pub(crate) fn put_slices(out: &mut Text, fields: &Slices) -> Result<(), NoMemory>
    requires { IsCount fields.now }
    ensures { Adds out.old out.new result (slices fields.now) (AllByRecursion IsSlice fields.now) }
{
    let each = fields.items();
    put_byte(out, each.len() as u8)?;
    put_each(out, each)
}

pub(crate) fn put_stated_digest(out: &mut Text, field: &Option<[u8; 32]>) -> Result<(), NoMemory>
    ensures { Adds out.old out.new result (optional digest field.now) (IfSome field.now IsDigest) }
{
    match field {
        None => put_byte(out, 0),
        Some(bytes) => {
            put_byte(out, 1)?;
            put_digest(out, bytes)
        }
    }
}

pub(crate) fn put_known_total(out: &mut Text, field: Option<u64>) -> Result<(), NoMemory>
    ensures { Adds out.old out.new result (optional (number w64) field) (IfSome field (λ n. n < 2 ^ 64)) }
{
    match field {
        None => put_byte(out, 0),
        Some(total) => {
            put_byte(out, 1)?;
            put_u64(out, total)
        }
    }
}

pub(crate) fn put_known_text(out: &mut Text, field: &Option<Text>) -> Result<(), NoMemory>
    requires { IfSome field.now (λ bytes. length bytes < 2 ^ 16) }
    ensures { Adds out.old out.new result (optional text field.now) (IfSome field.now IsBytes) }
{
    match field {
        None => put_byte(out, 0),
        Some(bytes) => {
            put_byte(out, 1)?;
            put_text(out, bytes)
        }
    }
}

pub(crate) fn put_known_key(out: &mut Text, field: &Option<Key>) -> Result<(), NoMemory>
    requires { IfSome field.now IsTag }
    ensures { Adds out.old out.new result (optional key field.now) (IfSome field.now IsKey) }
{
    match field {
        None => put_byte(out, 0),
        Some(known) => {
            put_byte(out, 1)?;
            put_key(out, known)
        }
    }
}

pub(crate) fn put_kept_reason(out: &mut Text, field: Option<Reason>) -> Result<(), NoMemory>
    ensures { Adds out.old out.new result (optional reason field) ⊤ }
{
    match field {
        None => put_byte(out, 0),
        Some(why) => {
            put_byte(out, 1)?;
            put_reason(out, why)
        }
    }
}
