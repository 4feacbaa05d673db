//! A disk that fails, or is full. What isn't synced is in memory alone, and so are names before their folder is synced.
//!
//! It has one folder that is opened, which may be moved. No file has a device or an inode: what is there stands where it is looked
//! for.
use journal_files::Locking;
use std::alloc::Global;
use std::cell::RefCell;
use std::fs::{Metadata, OpenFile, OpenOptions};
use std::io::{self, Read, Seek, SeekFrom, Write};
use std::rc::Rc;
use std::rt::Files;

/// How a call fails.
#[derive(Clone, Copy, Debug, PartialEq, Eq)]
pub(super) enum Failure {
    /// It is refused; a write after the half of it.
    Refused,
    /// Power fails: no call behind it comes to anything, either.
    Power,
}

/// A file: its octets, those of them that are on the disk, and how many the system holds to be there. What a sync that failed
/// should have written it writes no more, though it can be read.
#[derive(Drop)]
struct Node {
    octets: Vec<u8>,
    on_disk: Vec<u8>,
    clean: usize,
}

impl Node {
    /// Octets are written behind so many, over those that are there.
    fn put(&mut self, alloc: Global, place: usize, octets: &[u8]) -> io::Result<()> {
        let end = place.saturating_add(octets.len()).min(self.octets.len());
        let (_over, behind) = self.octets.split_at(end);
        let behind = copied(alloc, behind)?;
        self.octets.truncate(place);
        self.octets.extend_from_slice(octets)?;
        self.octets.extend_from_slice(&behind)?;
        self.clean = self.clean.min(place);
        Ok(())
    }

    /// The file is cut, or made longer by zeros.
    fn cut(&mut self, length: usize) -> io::Result<()> {
        self.octets.resize(length, 0)?;
        self.clean = self.clean.min(length);
        Ok(())
    }

    /// What isn't held to be on the disk comes there.
    fn sync(&mut self) -> io::Result<()> {
        self.on_disk.resize(self.clean, 0)?;
        let (_, behind) = self.octets.split_at(self.clean.min(self.octets.len()));
        self.on_disk.extend_from_slice(behind)?;
        self.clean = self.octets.len();
        Ok(())
    }
}

/// The name of a file.
#[derive(Drop)]
struct Name {
    path: String,
    node: usize,
}

/// What is on the disk, and what in memory.
#[derive(Drop)]
struct State {
    nodes: Vec<Node>,
    names: Vec<Name>,
    names_on_disk: Vec<Name>,
    calls: u32,
    failing: u32,
    failure: Failure,
    has_failed: bool,
    is_off: bool,
    /// No file gets longer.
    is_full: bool,
    /// Where the folder is that was opened.
    home: String,
    /// Whether it can be reached by the number under which it was opened.
    has_handles: bool,
    alloc: Global,
}

/// The folder that is opened has this number.
const NUMBER: u32 = 7;

/// By this a path begins that leads on from what has this number.
const HANDLE: &str = "/proc/self/fd/7";

/// A disk, on which the call of one number fails; none, where that is 0.
#[derive(Drop)]
pub(super) struct Disk {
    state: Rc<RefCell<State>>,
}

/// A file or the folder, opened.
#[derive(Drop)]
pub(super) struct Opened {
    state: Rc<RefCell<State>>,
    /// Nothing of the folder.
    node: Option<usize>,
    /// How many octets were read.
    place: usize,
}

/// The names in the folder, as far as they weren't read.
#[derive(Drop)]
pub(super) struct Names {
    names: Vec<u8>,
    place: usize,
}

fn failed() -> io::Error {
    io::Error::from(io::ErrorKind::StorageFull)
}

fn missing() -> io::Error {
    io::Error::from(io::ErrorKind::NotFound)
}

fn busy() -> io::Error {
    io::Error::from(io::ErrorKind::WouldBlock)
}

fn copied(alloc: Global, octets: &[u8]) -> io::Result<Vec<u8>> {
    Ok(octets.to_vec(alloc)?)
}

fn copied_names(alloc: Global, names: &[Name]) -> io::Result<Vec<Name>> {
    let mut copy = Vec::new(alloc);
    for name in names {
        copy.push(Name {
            path: String::from_str(alloc, name.path.as_str())?,
            node: name.node,
        })?;
    }
    Ok(copy)
}

/// The metadata of a file or of the folder.
fn metadata_of(node: Option<&Node>) -> Metadata {
    match node {
        Some(node) => Metadata::of_file(node.octets.len() as u64),
        None => Metadata::of_dir(),
    }
}

impl State {
    fn new(alloc: Global, failure: Failure, failing: u32) -> io::Result<State> {
        Ok(State {
            nodes: Vec::new(alloc),
            names: Vec::new(alloc),
            names_on_disk: Vec::new(alloc),
            calls: 0,
            failing,
            failure,
            has_failed: false,
            is_off: false,
            is_full: false,
            home: String::from_str(alloc, "j")?,
            has_handles: true,
            alloc,
        })
    }

    /// The path to which one leads; nothing where it leads to none.
    fn placed(&self, path: &str) -> io::Result<String> {
        let Some(behind) = path.strip_prefix(HANDLE) else {
            return Ok(String::from_str(self.alloc, path)?);
        };
        if self.has_handles {
            Ok(format!(in self.alloc; "{}{behind}", self.home)?)
        } else {
            Err(missing())
        }
    }

    /// Whether a path is that of a folder, and not of a file in it.
    fn is_folder(&self, path: &str) -> bool {
        path == "j" || path == "." || path == self.home.as_str()
    }

    /// What is known of what stands at a path.
    fn known(&self, path: &str) -> io::Result<Metadata> {
        let path = self.placed(path)?;
        if self.is_folder(&path) {
            return Ok(metadata_of(None));
        }
        match self.node_of(&path) {
            Some(node) => Ok(metadata_of(self.nodes.get(node))),
            None => Err(missing()),
        }
    }

    /// A call comes.
    fn call(&mut self) -> io::Result<()> {
        self.calls = self.calls.saturating_add(1);
        if self.is_off {
            return Err(failed());
        }
        if self.calls == self.failing {
            self.has_failed = true;
            self.is_off = self.failure == Failure::Power;
            return Err(failed());
        }
        Ok(())
    }

    fn node_of(&self, path: &str) -> Option<usize> {
        let name = self.names.iter().find(|name| name.path.as_str() == path)?;
        Some(name.node)
    }

    /// A file without octets under a name.
    fn make(&mut self, path: &str) -> io::Result<usize> {
        let alloc = self.alloc;
        let node = self.nodes.len();
        self.nodes.push(Node {
            octets: Vec::new(alloc),
            on_disk: Vec::new(alloc),
            clean: 0,
        })?;
        self.names.push(Name {
            path: String::from_str(alloc, path)?,
            node,
        })?;
        Ok(node)
    }

    fn forget(&mut self, path: &str) {
        self.names.retain(|name| name.path.as_str() != path);
    }

    /// Whether a call comes to something by which a file is to be so long.
    fn call_for(&mut self, node: usize, length: usize) -> io::Result<()> {
        self.call()?;
        match self.nodes.get(node) {
            Some(node) if self.is_full && node.octets.len() < length => Err(failed()),
            Some(_) => Ok(()),
            None => Err(missing()),
        }
    }

    fn write(&mut self, number: usize, place: usize, octets: &[u8]) -> io::Result<()> {
        let alloc = self.alloc;
        let called = self.call_for(number, place.saturating_add(octets.len()));
        let Some(node) = self.nodes.get_mut(number) else {
            return Err(missing());
        };
        match called {
            Ok(()) => node.put(alloc, place, octets),
            Err(error) => {
                let (half, _rest) = octets.split_at(octets.len() / 2);
                node.put(alloc, place, half)?;
                Err(error)
            }
        }
    }

    fn set_len(&mut self, number: usize, length: usize) -> io::Result<()> {
        self.call_for(number, length)?;
        match self.nodes.get_mut(number) {
            Some(node) => node.cut(length),
            None => Err(missing()),
        }
    }

    fn move_home(&mut self, path: &str) -> io::Result<()> {
        let alloc = self.alloc;
        self.names = moved_names(alloc, &self.names, &self.home, path)?;
        self.names_on_disk = moved_names(alloc, &self.names_on_disk, &self.home, path)?;
        self.home = String::from_str(alloc, path)?;
        Ok(())
    }

    fn sync(&mut self, node: Option<usize>) -> io::Result<()> {
        let called = self.call();
        let Some(place) = node else {
            called?;
            self.names_on_disk = copied_names(self.alloc, &self.names)?;
            return Ok(());
        };
        let Some(node) = self.nodes.get_mut(place) else {
            return Err(missing());
        };
        match called {
            Ok(()) => node.sync(),
            Err(error) => {
                node.clean = node.octets.len();
                Err(error)
            }
        }
    }
}

/// The name of a file in a folder, where it is in that one.
fn name_within<'a>(name: &'a Name, folder: &str) -> Option<&'a str> {
    name.path.as_str().strip_prefix(folder)?.strip_prefix("/")
}

fn is_within(name: &Name, folder: &str) -> bool {
    name_within(name, folder).is_some()
}

/// Names, with those of one folder in another.
fn moved_names(alloc: Global, names: &[Name], from: &str, to: &str) -> io::Result<Vec<Name>> {
    let mut moved = Vec::new(alloc);
    for name in names {
        let path = match name_within(name, from) {
            Some(within) => format!(in alloc; "{to}/{within}")?,
            None => String::from_str(alloc, name.path.as_str())?,
        };
        moved.push(Name {
            path,
            node: name.node,
        })?;
    }
    Ok(moved)
}

/// What is left of a file: what is on the disk, and the half of what was written behind that.
fn left_of(alloc: Global, node: &Node) -> io::Result<Node> {
    let mut octets = copied(alloc, &node.on_disk)?;
    if node.octets.starts_with(node.on_disk.as_slice()) {
        let (_, behind) = node
            .octets
            .split_at(node.on_disk.len().min(node.octets.len()));
        let (half, _rest) = behind.split_at(behind.len() / 2);
        octets.extend_from_slice(half)?;
    }
    let on_disk = copied(alloc, &octets)?;
    let clean = octets.len();
    Ok(Node {
        octets,
        on_disk,
        clean,
    })
}

impl Disk {
    pub(super) fn new(alloc: Global, failure: Failure, failing: u32) -> io::Result<Disk> {
        Ok(Disk {
            state: Rc::new(alloc, RefCell::new(State::new(alloc, failure, failing)?))?,
        })
    }

    pub(super) fn has_failed(&self) -> io::Result<bool> {
        match self.state.try_borrow() {
            Ok(state) => Ok(state.has_failed),
            Err(_) => Err(busy()),
        }
    }

    /// No call fails any more; but a disk without power stays off.
    pub(super) fn mend(&self) -> io::Result<()> {
        let Ok(mut state) = self.state.try_borrow_mut() else {
            return Err(busy());
        };
        state.failing = 0;
        Ok(())
    }

    /// From now on another call fails, counted from here.
    pub(super) fn fail(&self, failure: Failure, failing: u32) -> io::Result<()> {
        let Ok(mut state) = self.state.try_borrow_mut() else {
            return Err(busy());
        };
        state.calls = 0;
        state.failing = failing;
        state.failure = failure;
        state.has_failed = false;
        Ok(())
    }

    /// From now on the disk is full, or it isn't any more.
    pub(super) fn fill(&self, is_full: bool) -> io::Result<()> {
        let Ok(mut state) = self.state.try_borrow_mut() else {
            return Err(busy());
        };
        state.is_full = is_full;
        Ok(())
    }

    /// What is opened can be reached by its path alone.
    pub(super) fn hide_handles(&self) -> io::Result<()> {
        let Ok(mut state) = self.state.try_borrow_mut() else {
            return Err(busy());
        };
        state.has_handles = false;
        Ok(())
    }

    /// The folder that was opened gets another path, with its files.
    pub(super) fn move_home(&self, path: &str) -> io::Result<()> {
        let Ok(mut state) = self.state.try_borrow_mut() else {
            return Err(busy());
        };
        state.move_home(path)
    }

    /// The files of a folder are there no more.
    pub(super) fn empty(&self, path: &str) -> io::Result<()> {
        let Ok(mut state) = self.state.try_borrow_mut() else {
            return Err(busy());
        };
        state.names.retain(|name| !is_within(name, path));
        state.names_on_disk.retain(|name| !is_within(name, path));
        Ok(())
    }

    /// How many files a folder has.
    pub(super) fn count(&self, path: &str) -> io::Result<usize> {
        let Ok(state) = self.state.try_borrow() else {
            return Err(busy());
        };
        Ok(
            state
                .names
                .iter()
                .filter(|name| is_within(name, path))
                .count(),
        )
    }

    /// How many octets a file has.
    pub(super) fn size(&self, path: &str) -> io::Result<u64> {
        let Ok(state) = self.state.try_borrow() else {
            return Err(busy());
        };
        Ok(state.known(path)?.len())
    }

    /// A file without octets.
    pub(super) fn add(&self, path: &str) -> io::Result<()> {
        let Ok(mut state) = self.state.try_borrow_mut() else {
            return Err(busy());
        };
        let _node = state.make(path)?;
        Ok(())
    }

    /// What is left once power failed, on a disk that doesn't fail; the names that weren't synced are there or not.
    pub(super) fn left(&self, is_named: bool) -> io::Result<Disk> {
        let Ok(state) = self.state.try_borrow() else {
            return Err(busy());
        };
        let alloc = state.alloc;
        let mut left = State::new(alloc, Failure::Refused, 0)?;
        for node in &state.nodes {
            left.nodes.push(left_of(alloc, node)?)?;
        }
        let names = if is_named {
            &state.names
        } else {
            &state.names_on_disk
        };
        left.names = copied_names(alloc, names)?;
        left.names_on_disk = copied_names(alloc, names)?;
        Ok(Disk {
            state: Rc::new(alloc, RefCell::new(left))?,
        })
    }
}

impl Files for Disk {
    type File = Opened;

    type Dir = Names;

    fn open_file(&self, how: &OpenOptions, path: &str) -> io::Result<Opened> {
        let Ok(mut state) = self.state.try_borrow_mut() else {
            return Err(busy());
        };
        state.call()?;
        let path = state.placed(path)?;
        let node = if state.is_folder(&path) {
            None
        } else {
            if how.asks_truncate() {
                state.forget(&path);
            }
            match state.node_of(&path) {
                Some(_) if how.asks_create_new() => {
                    return Err(io::Error::from(io::ErrorKind::AlreadyExists));
                }
                Some(node) => Some(node),
                None if how.asks_create() || how.asks_create_new() => Some(state.make(&path)?),
                None => return Err(missing()),
            }
        };
        Ok(Opened {
            state: self.state.clone()?,
            node,
            place: 0,
        })
    }

    fn open_dir(&self, path: &str) -> io::Result<Names> {
        let Ok(mut state) = self.state.try_borrow_mut() else {
            return Err(busy());
        };
        state.call()?;
        let path = state.placed(path)?;
        let folder = path.as_str().trim_end_matches("/.");
        let mut names = Vec::new(state.alloc);
        for name in &state.names {
            if let Some(name) = name_within(name, folder) {
                names.extend_from_slice(name.as_bytes())?;
                names.push(0)?;
            }
        }
        Ok(Names { names, place: 0 })
    }

    fn metadata(&self, path: &str) -> io::Result<Metadata> {
        let Ok(mut state) = self.state.try_borrow_mut() else {
            return Err(busy());
        };
        state.call()?;
        state.known(path)
    }

    fn symlink_metadata(&self, path: &str) -> io::Result<Metadata> {
        self.metadata(path)
    }

    fn copy(&self, _from: &str, _to: &str) -> io::Result<u64> {
        Err(io::Error::from(io::ErrorKind::Unsupported))
    }

    fn rename(&self, from: &str, to: &str) -> io::Result<()> {
        let Ok(mut state) = self.state.try_borrow_mut() else {
            return Err(busy());
        };
        state.call()?;
        let from = state.placed(from)?;
        let path = state.placed(to)?;
        state.forget(&path);
        match state.names.iter_mut().find(|name| name.path == from) {
            Some(name) => {
                name.path = path;
                Ok(())
            }
            None => Err(missing()),
        }
    }

    fn remove_file(&self, path: &str) -> io::Result<()> {
        let Ok(mut state) = self.state.try_borrow_mut() else {
            return Err(busy());
        };
        state.call()?;
        let path = state.placed(path)?;
        state.forget(&path);
        Ok(())
    }

    fn create_dir(&self, _path: &str) -> io::Result<()> {
        let Ok(mut state) = self.state.try_borrow_mut() else {
            return Err(busy());
        };
        state.call()
    }

    fn remove_dir(&self, _path: &str) -> io::Result<()> {
        Err(io::Error::from(io::ErrorKind::Unsupported))
    }

    fn remove_dir_all<B: std::alloc::Allocator>(&self, _alloc: B, _path: &str) -> io::Result<()> {
        Err(io::Error::from(io::ErrorKind::Unsupported))
    }
}

impl Read for Names {
    fn read(&mut self, buffer: &mut [u8]) -> io::Result<usize> {
        let (_, left) = self.names.split_at(self.place.min(self.names.len()));
        let count = left.len().min(buffer.len());
        buffer[..count].copy_from_slice(&left[..count]);
        self.place = self.place.saturating_add(count);
        Ok(count)
    }
}

impl Read for Opened {
    fn read(&mut self, buffer: &mut [u8]) -> io::Result<usize> {
        let Ok(state) = self.state.try_borrow() else {
            return Err(busy());
        };
        let Some(node) = state.nodes.get(self.node.unwrap_or(usize::MAX)) else {
            return Err(missing());
        };
        let (_, left) = node.octets.split_at(self.place.min(node.octets.len()));
        let count = left.len().min(buffer.len());
        buffer[..count].copy_from_slice(&left[..count]);
        self.place = self.place.saturating_add(count);
        Ok(count)
    }
}

impl Write for Opened {
    fn write(&mut self, octets: &[u8]) -> io::Result<usize> {
        let Ok(mut state) = self.state.try_borrow_mut() else {
            return Err(busy());
        };
        state.write(self.node.unwrap_or(usize::MAX), self.place, octets)?;
        self.place = self.place.saturating_add(octets.len());
        Ok(octets.len())
    }

    fn flush(&mut self) -> io::Result<()> {
        Ok(())
    }
}

impl Seek for Opened {
    fn seek(&mut self, _to: SeekFrom) -> io::Result<u64> {
        Err(io::Error::from(io::ErrorKind::Unsupported))
    }
}

impl OpenFile for Opened {
    fn metadata(&self) -> io::Result<Metadata> {
        let Ok(mut state) = self.state.try_borrow_mut() else {
            return Err(busy());
        };
        state.call()?;
        match self.node {
            Some(node) => Ok(metadata_of(state.nodes.get(node))),
            None => Ok(metadata_of(None)),
        }
    }

    fn set_len(&self, size: u64) -> io::Result<()> {
        let Ok(mut state) = self.state.try_borrow_mut() else {
            return Err(busy());
        };
        state.set_len(self.node.unwrap_or(usize::MAX), size as usize)
    }

    fn sync_all(&self) -> io::Result<()> {
        let Ok(mut state) = self.state.try_borrow_mut() else {
            return Err(busy());
        };
        state.sync(self.node)
    }

    fn sync_data(&self) -> io::Result<()> {
        self.sync_all()
    }
}

impl Locking for Opened {
    fn hold(&self) -> io::Result<bool> {
        Ok(true)
    }

    fn number(&self) -> Option<u32> {
        match self.node {
            Some(_) => None,
            None => Some(NUMBER),
        }
    }
}
