ghost use Rattle.std.specs.Prelude.{◌≡◌, ◌↔◌, ◌++◌, IsTrue, IsOk, IfOk, OnOk, IsUtf8, string_bytes};
ghost use Rattle.dm_disk_real.specs.FileName.{IsFileName};

use dm_types::Text;
use std::io::ErrorKind;
use std::{io, str};

/// The path of a name in a folder.
pub(crate) fn put_path(path: &mut String, prefix: &str, name: &str) -> io::Result<()>
    ensures { OnOk result (string_bytes path.new ≡ prefix.now ++ name.now) }
{
    path.clear();
    path.push_str(prefix)?;
    path.push_str(name)?;
    Ok(())
}

/// The name of a file, which never leads out of its folder. One that isn't UTF-8 can't be opened.
pub(crate) fn file_name(name: &Text) -> io::Result<&str>
    ensures ok { IfOk result (λ text. (text.now ≡ name.now) × IsFileName name.now) }
    ensures when { IsOk result ↔ (IsFileName name.now × IsUtf8 name.now) }
{
    if !is_file_name(name.bytes()) {
        return Err(ErrorKind::InvalidInput.into());
    }
    match str::from_utf8(name.bytes()) {
        Ok(text) => Ok(text),
        Err(_) => Err(ErrorKind::InvalidInput.into()),
    }
}

fn is_file_name(name: &[u8]) -> bool
    ensures { IsTrue result ↔ IsFileName name.now }
{
    match name {
        b"" | b"." | b".." => false,
        _ => !name.contains(&b'/'),
    }
}
