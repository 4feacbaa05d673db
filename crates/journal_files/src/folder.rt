//! The folder of a journal.
//!
//! It is a handle: its files are those of the folder that was opened, even if that folder was moved since and another one
//! has its path.
ghost use Rattle.std.specs.Prelude.{OnOk, IfOk};
ghost use Rattle.std.specs.Io.KnownBytes.{Appends};
ghost use Rattle.journal_files.specs.Journals.{IsHanded, IsRead};
ghost use Rattle.journal_files.specs.Listings.{IsListed};

use crate::listing::{Listing, listing_of};
use crate::locking::Locking;
use crate::names::{BEGUN, LOCK, handle_path, path_of, span_name};
use std::alloc::AllocError;
use std::fs::{self, File, OpenFile, OpenOptions};
use std::io::{self, Read, Write};
use std::os::unix::fs::{MetadataExt, OpenOptionsExt};
use std::rt::Files;

/// The folder of a journal. As long as this value exists, one controller has the folder, and the file `lock` in it, for
/// itself. Removing that file doesn't release the folder.
#[derive(Drop)]
pub struct Folder<'a, R: Files + AllocGlobal> {
    rt: &'a R,
    /// The path by which it was opened.
    path: &'a str,
    folder: R::File,
    lock: R::File,
    /// The path by which the system knows the opened folder; nothing if it has none.
    handle: Option<String>,
}

/// Its owner alone may read and write a file.
const FOR_OWNER: u32 = 0o600;

/// The path of the folder in which a folder is.
fn parent_of(path: &str) -> &str {
    match path.trim_end_matches('/').rsplit_once('/') {
        Some(("", _)) => "/",
        Some((parent, _)) => parent,
        None => ".",
    }
}

/// Whether a call failed since the disk is full, or what the user may have of it.
pub(crate) fn is_want_of_room(error: io::Error) -> bool {
    match error.kind() {
        io::ErrorKind::StorageFull | io::ErrorKind::QuotaExceeded => true,
        _ => false,
    }
}

/// The folder at the path isn't the one that was locked.
fn moved() -> io::Error {
    io::Error::new(
        io::ErrorKind::StaleNetworkFileHandle,
        "the folder at this path isn't the one that was locked",
    )
}

/// Whether a call failed since the folder at the path isn't the one that was locked.
pub(crate) fn is_moved(error: io::Error) -> bool {
    error.kind() == io::ErrorKind::StaleNetworkFileHandle
}

/// Writes the octets of a file, and has them on the disk.
fn write_synced<F: Write + OpenFile>(file: &mut F, octets: &[u8]) -> io::Result<()>
    ensures written { OnOk result (Appends (F.contents file.old) (F.contents file.new) octets.now) }
{
    file.write_all(octets)?;
    file.sync_all()
}

/// Whether what was opened stands at a path; not where that can't be known.
fn stands_at<R: Files>(rt: &R, opened: &R::File, path: &str) -> bool {
    match (rt.metadata(path), opened.metadata()) {
        (Ok(there), Ok(here)) => there.dev() == here.dev() && there.ino() == here.ino(),
        _ => false,
    }
}

/// The path by which the system knows an opened folder; nothing if it has none.
fn handle_of<R: Files + AllocGlobal>(rt: &R, folder: &R::File) -> Result<Option<String>, AllocError>
where
    R::File: Locking,
{
    let Some(number) = folder.number() else {
        return Ok(None);
    };
    let path = handle_path(rt.alloc(), number)?;
    if stands_at(rt, folder, &path) {
        Ok(Some(path))
    } else {
        Ok(None)
    }
}

/// Refuses what is no file, as `InvalidInput`: opened, a pipe would have the controller wait for ever. (A folder is refused as
/// it is opened.)
fn refuse_endless<R: Files>(rt: &R, path: &str) -> io::Result<()> {
    match rt.metadata(path) {
        Ok(it) if !it.is_file() && !it.is_dir() => Err(io::Error::from(
            io::ErrorKind::InvalidInput,
        )),
        _ => Ok(()),
    }
}

/// Refuses a link: nothing is written through one.
fn refuse_link<R: Files>(rt: &R, path: &str) -> io::Result<()> {
    if rt.symlink_metadata(path)?.is_file() {
        Ok(())
    } else {
        Err(io::Error::from(io::ErrorKind::InvalidInput))
    }
}

impl<'a, R: Files + AllocGlobal> Folder<'a, R> {
    /// Makes the folder at this path, and those above it, if it isn't there, and syncs its name to the disk. The answer is
    /// whether its name is on the disk. It isn't if the parent folder can't be synced: because it may not be read, because
    /// the file system can't sync folders, or because the disk is full.
    pub fn make(rt: &R, path: &str) -> io::Result<bool> {
        if path.is_empty() {
            return Err(io::Error::from(io::ErrorKind::NotFound));
        }
        fs::create_dir_all(rt, path)?;
        match File::open(rt, parent_of(path)) {
            Ok(parent) => match parent.sync_all() {
                Ok(()) => Ok(true),
                Err(error) if error.kind() == io::ErrorKind::InvalidInput => Ok(false),
                Err(error) if is_want_of_room(error) => Ok(false),
                Err(error) => Err(error),
            },
            Err(error) if error.kind() == io::ErrorKind::PermissionDenied => Ok(false),
            Err(error) => Err(error),
        }
    }

    /// The path of the lock file of the folder at a path.
    pub fn lock_path(rt: &R, path: &str) -> Result<String, AllocError> {
        path_of(rt.alloc(), path, LOCK)
    }

    /// Opens the folder at this path and its lock file, and locks both; nothing if another process has locked one of them.
    /// Some file systems can't lock folders: then only the file is locked.
    pub fn lock(rt: &'a R, path: &'a str) -> io::Result<Option<Folder<'a, R>>>
    where
        R::File: Locking,
    {
        let folder = File::open(rt, path)?;
        let handle = handle_of(rt, &folder)?;
        let within = match &handle {
            Some(handle) => handle.as_str(),
            None => path,
        };
        let lock_path = path_of(rt.alloc(), within, LOCK)?;
        refuse_endless(rt, &lock_path)?;
        let lock = OpenOptions::new()
            .write(true)
            .create(true)
            .mode(FOR_OWNER)
            .open(rt, lock_path.as_str())?;
        let is_free = folder.hold().unwrap_or(true);
        if is_free && lock.hold()? {
            Ok(Some(Folder {
                rt,
                path,
                folder,
                lock,
                handle,
            }))
        } else {
            Ok(None)
        }
    }

    /// Refuses to go on by the path where another folder stands there, or none: the locked file isn't in it.
    fn refuse_moved(&self) -> io::Result<()> {
        let path = Folder::lock_path(self.rt, self.path)?;
        if stands_at(self.rt, &self.lock, &path) {
            Ok(())
        } else {
            Err(moved())
        }
    }

    /// The path by which a file of the folder is reached. Where that is the folder's own, it is looked at right before: so each
    /// call has one anew.
    fn reach(&self, name: &str) -> io::Result<String> {
        let alloc = self.rt.alloc();
        match &self.handle {
            Some(handle) => Ok(path_of(alloc, handle, name)?),
            None => {
                self.refuse_moved()?;
                Ok(path_of(alloc, self.path, name)?)
            }
        }
    }

    /// The path by which the file is reached that begins behind a line.
    fn reach_span(&self, number: u64) -> io::Result<String> {
        let name = span_name(self.rt.alloc(), number)?;
        self.reach(&name)
    }

    /// What is in the folder.
    pub fn list(&self) -> io::Result<Listing>
        ensures listed { IfOk result (λ listing. IsListed R.Dir.remaining listing.spans.items) }
    {
        // also where the path is that of a link
        let path = self.reach(".")?;
        let mut dir = self.rt.open_dir(path.as_str())?;
        listing_of(self.rt.alloc(), &mut dir)
    }

    /// The path of the file that begins after a line, as it is printed.
    pub fn span_path(&self, number: u64) -> Result<String, AllocError> {
        let alloc = self.rt.alloc();
        let name = span_name(alloc, number)?;
        path_of(alloc, self.path, &name)
    }

    /// All octets of the file that begins after a line; `InvalidInput` if it isn't a file.
    pub fn read_span(&self, number: u64) -> io::Result<Vec<u8>>
        ensures read { IfOk result (λ octets. IsRead R.File.remaining octets.items) }
    {
        let path = self.reach_span(number)?;
        refuse_endless(self.rt, &path)?;
        let mut file = File::open(self.rt, path.as_str())?;
        let mut octets = Vec::new(self.rt.alloc());
        file.read_to_end(&mut octets)?;
        Ok(octets)
    }

    /// Removes the file that was begun, if it is there.
    fn remove_begun(&self) -> io::Result<()> {
        let path = self.reach(BEGUN)?;
        fs::remove_file(self.rt, path.as_str())
    }

    /// Makes the file that is begun. What has its name goes first, so that nothing is written through a link.
    fn make_begun(&self) -> io::Result<R::File> {
        // where it stays, the file isn't made
        let _gone = self.remove_begun();
        let path = self.reach(BEGUN)?;
        OpenOptions::new()
            .write(true)
            .create_new(true)
            .mode(FOR_OWNER)
            .open(self.rt, path.as_str())
    }

    /// Writes a file under a name of its own, and has it on the disk. The file goes that can't be written, so that it takes no
    /// room.
    pub(crate) fn write_begun(&self, octets: &[u8]) -> io::Result<R::File>
        ensures written { IfOk result (IsHanded R.File.contents octets.now) }
    {
        let mut file = self.make_begun()?;
        match write_synced(&mut file, octets) {
            Ok(()) => Ok(file),
            Err(error) => {
                let _gone = self.remove_begun();
                Err(error)
            }
        }
    }

    /// Gives the file that was begun its name, and has that on the disk.
    pub(crate) fn name_begun(&self, number: u64) -> io::Result<()> {
        let to = self.reach_span(number)?;
        let from = self.reach(BEGUN)?;
        fs::rename(self.rt, from.as_str(), to.as_str())?;
        self.folder.sync_all()
    }

    /// Writes the octets of the file that begins behind a line over themselves, and has them and its name on the disk. What
    /// stands behind them goes.
    pub(crate) fn write_over(&self, number: u64, octets: &[u8]) -> io::Result<R::File>
        ensures written { IfOk result (IsHanded R.File.contents octets.now) }
    {
        // one that couldn't be renamed takes room
        let _gone = self.remove_begun();
        let path = self.reach_span(number)?;
        refuse_link(self.rt, &path)?;
        let mut file = OpenOptions::new().write(true).open(self.rt, path.as_str())?;
        file.set_len(octets.len() as u64)?;
        write_synced(&mut file, octets)?;
        self.folder.sync_all()?;
        Ok(file)
    }

    /// Removes the file that begins behind a line, if it is there.
    pub(crate) fn remove_span(&self, number: u64) -> io::Result<()> {
        let path = self.reach_span(number)?;
        match fs::remove_file(self.rt, path.as_str()) {
            Err(error) if error.kind() == io::ErrorKind::NotFound => Ok(()),
            removed => removed,
        }
    }
}
