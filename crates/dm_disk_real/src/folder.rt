ghost use Rattle.std.specs.Prelude.{◌↔◌, IsTrue, IsErr};
ghost use Rattle.std.specs.Io.{ReadsAtMost};

use crate::fault::FolderFault;
use crate::name::{file_name, put_path};
use crate::recent::Recent;
use crate::syncs::Syncs;
use dm_disk_model::{NameList, ends_far};
use dm_types::{NoMemory, Text};
use std::alloc::Global;
use std::fs::{File, OpenFile};
use std::io::{ErrorKind, Read};
use std::os::unix::fs::FileExt;
use std::rt::Files;
use std::{fs, io};

/// Room for a path's name: file systems take 255 bytes.
const NAME_ROOM: usize = 256;

/// One folder of the disk. The file that was used last stays open.
#[derive(Drop)]
pub(crate) struct Folder {
    /// The folder's path, with a slash at its end.
    prefix: String,
    recent: Recent,
    /// Two paths, for a look and for a rename.
    path: String,
    other: String,
    /// The folder itself, open to be synced and locked.
    entries: File,
    syncs: Syncs,
}

impl Folder {
    /// Makes the folder where it is missing, and takes the room for its paths.
    pub(crate) fn new<R: Files<File = File>>(
        rt: &R,
        alloc: Global,
        path: &str,
    ) -> Result<Folder, FolderFault> {
        let mut prefix = String::with_capacity(alloc, path.len().saturating_add(4))?;
        prefix.push_str(path)?;
        prefix.push('/')?;
        let room = prefix.len().saturating_add(NAME_ROOM);
        let recent = Recent::new(String::with_capacity(alloc, room)?);
        let path_room = String::with_capacity(alloc, room)?;
        let other = String::with_capacity(alloc, room)?;
        match fs::create_dir(rt, path) {
            Err(e) if e.kind() != ErrorKind::AlreadyExists => return Err(e.into()),
            _ => {}
        }
        let entries = File::open(rt, prefix.as_str())?;
        Ok(Folder {
            prefix,
            recent,
            path: path_room,
            other,
            entries,
            syncs: Syncs::new(),
        })
    }

    /// Locks the folder for as long as it is held here. It fails where another program holds it.
    pub(crate) fn lock(&self) -> Result<(), FolderFault> {
        match self.entries.try_lock() {
            Ok(()) => Ok(()),
            Err(e) => Err(FolderFault::System(e.into())),
        }
    }

    /// Makes the folder's own name durable, so that a crash keeps a folder that was made.
    pub(crate) fn sync_above<R: Files<File = File>>(&mut self, rt: &R) -> Result<(), FolderFault> {
        put_path(&mut self.other, self.prefix.as_str(), "..")?;
        File::open(rt, self.other.as_str())?.sync_all()?;
        Ok(())
    }

    /// The names that stand here, but for `.` and `..`. They need not be UTF-8.
    pub(crate) fn names<R: Files<File = File>>(
        &self,
        rt: &R,
        alloc: Global,
    ) -> Result<NameList, FolderFault> {
        let mut dir = rt.open_dir(self.prefix.as_str())?;
        let mut names = NameList::new(alloc);
        let mut buffer = [0u8; 4096];
        for _ in 0..u64::MAX {
            match dir.read(&mut buffer) {
                Ok(0) => return Ok(names),
                Ok(n) => push_names(alloc, &mut names, &buffer[..n])?,
                Err(e) if e.kind() == ErrorKind::Interrupted => {}
                Err(e) => return Err(FolderFault::System(e)),
            }
        }
        Err(FolderFault::System(ErrorKind::Other.into()))
    }

    /// The file's length in bytes, or `None` where nothing stands there. A link that leads nowhere
    /// stands, and is as long as its own text.
    pub(crate) fn length<R: Files<File = File>>(
        &mut self,
        rt: &R,
        name: &Text,
    ) -> io::Result<Option<u64>> {
        let name = file_name(name)?;
        if let Some(file) = self.recent.find(self.prefix.as_str(), name) {
            return Ok(Some(file.metadata()?.len()));
        }
        put_path(&mut self.path, self.prefix.as_str(), name)?;
        if let Ok(metadata) = fs::metadata(rt, self.path.as_str()) {
            return Ok(Some(metadata.len()));
        }
        match fs::symlink_metadata(rt, self.path.as_str()) {
            Ok(metadata) => Ok(Some(metadata.len())),
            Err(e) if e.kind() == ErrorKind::NotFound => Ok(None),
            Err(e) => Err(e),
        }
    }

    /// Reads from a place of the file. No file has a place at 2^63 or above.
    pub(crate) fn read_at<R: Files<File = File>>(
        &mut self,
        rt: &R,
        name: &Text,
        at: u64,
        buf: &mut [u8],
    ) -> io::Result<usize>
        ensures { ReadsAtMost result buf.new }
    {
        let (prefix, name) = (self.prefix.as_str(), file_name(name)?);
        let open = self.recent.open(rt, &mut self.syncs, prefix, name, false)?;
        if ends_far(at, 0) {
            return Ok(0);
        }
        for _ in 0..u64::MAX {
            match open.file.read_at(buf, at) {
                Err(e) if e.kind() == ErrorKind::Interrupted => {}
                answer => return answer,
            }
        }
        Err(ErrorKind::Other.into())
    }

    /// Makes an empty file, where nothing stands.
    pub(crate) fn create<R: Files<File = File>>(&mut self, rt: &R, name: &Text) -> io::Result<()> {
        let (prefix, name) = (self.prefix.as_str(), file_name(name)?);
        self.recent.create(rt, &mut self.syncs, prefix, name)
    }

    /// Writes all the bytes from a place of the file on.
    pub(crate) fn write_at<R: Files<File = File>>(
        &mut self,
        rt: &R,
        name: &Text,
        at: u64,
        bytes: &[u8],
    ) -> io::Result<()> {
        let (prefix, name) = (self.prefix.as_str(), file_name(name)?);
        let open = self.recent.open(rt, &mut self.syncs, prefix, name, true)?;
        open.write_at(at, bytes)
    }

    /// Makes the file durable. Once a sync of this folder failed, each later one fails.
    pub(crate) fn sync<R: Files<File = File>>(&mut self, rt: &R, name: &Text) -> io::Result<()>
        ensures later { IsTrue self.old.syncs.has_failed → IsErr result }
        ensures marks { IsTrue self.new.syncs.has_failed ↔ IsErr result }
    {
        let answer = self.sync_file(rt, name);
        self.syncs.settle(answer)
    }

    fn sync_file<R: Files<File = File>>(&mut self, rt: &R, name: &Text) -> io::Result<()>
        ensures { IsTrue self.old.syncs.has_failed → IsTrue self.new.syncs.has_failed }
    {
        let (prefix, name) = (self.prefix.as_str(), file_name(name)?);
        let open = self.recent.open(rt, &mut self.syncs, prefix, name, true)?;
        open.sync()
    }

    /// Makes the names durable. Once a sync of this folder failed, each later one fails.
    pub(crate) fn sync_names(&mut self) -> io::Result<()>
        ensures later { IsTrue self.old.syncs.has_failed → IsErr result }
        ensures marks { IsTrue self.new.syncs.has_failed ↔ IsErr result }
    {
        let answer = self.entries.sync_all();
        self.syncs.settle(answer)
    }

    /// Gives the file another name, and replaces what stands under that.
    pub(crate) fn rename<R: Files<File = File>>(
        &mut self,
        rt: &R,
        from: &Text,
        to: &Text,
    ) -> io::Result<()> {
        let (prefix, from, to) = (self.prefix.as_str(), file_name(from)?, file_name(to)?);
        put_path(&mut self.path, prefix, from)?;
        put_path(&mut self.other, prefix, to)?;
        self.recent.close_at(&mut self.syncs, prefix, from);
        self.recent.close_at(&mut self.syncs, prefix, to);
        fs::rename(rt, self.path.as_str(), self.other.as_str())
    }

    /// Gives the file another name, under which nothing stands.
    pub(crate) fn rename_to_free<R: Files<File = File>>(
        &mut self,
        rt: &R,
        from: &Text,
        to: &Text,
    ) -> io::Result<()> {
        match self.length(rt, to)? {
            Some(_) => Err(ErrorKind::AlreadyExists.into()),
            None => self.rename(rt, from, to),
        }
    }

    /// Takes the file's name away. Of a link that is the link itself.
    pub(crate) fn remove<R: Files<File = File>>(&mut self, rt: &R, name: &Text) -> io::Result<()> {
        let (prefix, name) = (self.prefix.as_str(), file_name(name)?);
        self.recent.drop_at(prefix, name);
        put_path(&mut self.path, prefix, name)?;
        fs::remove_file(rt, self.path.as_str())
    }
}

/// Adds the names of what was read of a folder, where a NUL ends each.
fn push_names(alloc: Global, names: &mut NameList, read: &[u8]) -> Result<(), NoMemory> {
    for name in read.split(|byte| *byte == 0) {
        if !matches!(name, b"" | b"." | b"..") {
            names.push(Text::from_bytes(alloc, name)?)?;
        }
    }
    Ok(())
}
