ghost use Rattle.std.specs.Prelude.{IsTrue};

use crate::name::put_path;
use crate::syncs::Syncs;
use std::fs::{File, OpenFile, OpenOptions};
use std::io;
use std::os::unix::fs::FileExt;
use std::rt::Files;

/// The file of a folder that was used last. It stays open.
#[derive(Drop)]
pub(crate) struct Recent {
    path: String,
    file: Option<Open>,
}

#[derive(Drop)]
pub(crate) struct Open {
    pub(crate) file: File,
    is_writable: bool,
    /// It was written and not synced since.
    is_unsynced: bool,
}

impl Recent {
    /// None yet. `path` has the room for its path.
    pub(crate) fn new(path: String) -> Recent {
        Recent { path, file: None }
    }

    /// The file, where it is open under this name.
    pub(crate) fn find(&self, prefix: &str, name: &str) -> Option<&File> {
        match &self.file {
            Some(open) if self.is_at(prefix, name) => Some(&open.file),
            _ => None,
        }
    }

    fn is_at(&self, prefix: &str, name: &str) -> bool {
        self.path.as_str().strip_prefix(prefix) == Some(name)
    }

    /// Makes this the path of the file. Where it was another, its file is closed.
    fn aim(&mut self, syncs: &mut Syncs, prefix: &str, name: &str) -> io::Result<()>
        ensures { IsTrue syncs.old.has_failed → IsTrue syncs.new.has_failed }
    {
        if self.is_at(prefix, name) {
            return Ok(());
        }
        self.close(syncs);
        put_path(&mut self.path, prefix, name)
    }

    /// Closes the file. Where it was written and not synced it is synced first, since its error
    /// might be told to nobody else.
    pub(crate) fn close(&mut self, syncs: &mut Syncs)
        ensures { IsTrue syncs.old.has_failed → IsTrue syncs.new.has_failed }
    {
        if let Some(open) = self.file.take() {
            if open.is_unsynced {
                let answer = open.file.sync_all();
                let _ = syncs.settle(answer);
            }
        }
    }

    /// Closes the file where it is open under this name.
    pub(crate) fn close_at(&mut self, syncs: &mut Syncs, prefix: &str, name: &str)
        ensures { IsTrue syncs.old.has_failed → IsTrue syncs.new.has_failed }
    {
        if self.is_at(prefix, name) {
            self.close(syncs);
        }
    }

    /// Closes the file where it is open under this name, whose bytes are wanted no more.
    pub(crate) fn drop_at(&mut self, prefix: &str, name: &str) {
        if self.is_at(prefix, name) {
            self.file = None;
        }
    }

    /// Makes an empty file, where nothing stands.
    pub(crate) fn create<R: Files<File = File>>(
        &mut self,
        rt: &R,
        syncs: &mut Syncs,
        prefix: &str,
        name: &str,
    ) -> io::Result<()>
        ensures { IsTrue syncs.old.has_failed → IsTrue syncs.new.has_failed }
    {
        self.close(syncs);
        put_path(&mut self.path, prefix, name)?;
        let file = File::create_new(rt, self.path.as_str())?;
        self.file = Some(Open {
            file,
            is_writable: true,
            is_unsynced: false,
        });
        Ok(())
    }

    /// The file under this name, open to be read and, where that is asked for, written.
    pub(crate) fn open<R: Files<File = File>>(
        &mut self,
        rt: &R,
        syncs: &mut Syncs,
        prefix: &str,
        name: &str,
        writes: bool,
    ) -> io::Result<&mut Open>
        ensures { IsTrue syncs.old.has_failed → IsTrue syncs.new.has_failed }
    {
        self.aim(syncs, prefix, name)?;
        let open = match self.file.take() {
            Some(open) if open.is_writable || !writes => open,
            _ => Open {
                file: OpenOptions::new()
                    .read(true)
                    .write(writes)
                    .open(rt, self.path.as_str())?,
                is_writable: writes,
                is_unsynced: false,
            },
        };
        Ok(self.file.insert(open))
    }
}

impl Open {
    /// Writes all the bytes from a place of the file on. Where there are none, the file is made as
    /// long as that place at least.
    pub(crate) fn write_at(&mut self, at: u64, bytes: &[u8]) -> io::Result<()> {
        self.is_unsynced = true;
        if !bytes.is_empty() {
            return self.file.write_all_at(bytes, at);
        }
        if self.file.metadata()?.len() < at {
            self.file.set_len(at)?;
        }
        Ok(())
    }

    pub(crate) fn sync(&mut self) -> io::Result<()> {
        self.file.sync_all()?;
        self.is_unsynced = false;
        Ok(())
    }
}
