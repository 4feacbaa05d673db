//! Whether two paths are those of one file.
use std::fs;
use std::os::unix::fs::MetadataExt;
use std::rt::Files;

/// What stands under a path.
#[derive(Clone, Copy)]
enum Place {
    /// A regular file, whatever its path: its device, and its number there.
    Regular(u64, u64),
    /// A device, a pipe, a folder.
    Other,
    /// Nothing, or nobody says.
    Unknown,
}

/// What stands under a path. Files that a test stands in for have no number.
fn place_of<R: Files>(rt: &R, path: &str) -> Place {
    match fs::metadata(rt, path) {
        Ok(metadata) if metadata.ino() == 0 => Place::Unknown,
        Ok(metadata) if metadata.is_file() => Place::Regular(metadata.dev(), metadata.ino()),
        Ok(_) => Place::Other,
        Err(_) => Place::Unknown,
    }
}

/// Whether two paths are those of one regular file. Where that isn't known, paths are compared.
pub fn is_same<R: Files>(rt: &R, one: &str, other: &str) -> bool {
    match (place_of(rt, one), place_of(rt, other)) {
        (Place::Regular(device, number), Place::Regular(other_device, other_number)) => {
            device == other_device && number == other_number
        }
        (Place::Unknown, _) | (_, Place::Unknown) => one == other,
        (Place::Other, _) | (_, Place::Other) => false,
    }
}
