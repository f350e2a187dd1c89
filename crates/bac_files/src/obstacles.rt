//! Why the machine doesn't open the files of a database.

use crate::not_opened::Obstacle;
use std::fs::{File, OpenOptions, metadata};
use std::io::{Error, ErrorKind};

/// EMFILE: a process has as many files open as it may.
const TOO_MANY: i32 = 24;

/// Whether there is a folder of this name.
pub(crate) fn is_folder(rt: &HostRuntime, path: &str) -> bool {
    matches!(metadata(rt, path), Ok(found) if found.is_dir())
}

/// The folder that a file is in.
fn folder_of<'a>(path: &'a str) -> &'a str {
    match path.rfind('/') {
        Some(0) => "/",
        Some(end) => &path[..end],
        None => ".",
    }
}

/// Why a file isn't opened, by the system's error, if that is known.
fn by_error(rt: &HostRuntime, path: &str, error: &Error) -> Option<Obstacle> {
    match error.kind() {
        ErrorKind::PermissionDenied | ErrorKind::ReadOnlyFilesystem => Some(Obstacle::NotPermitted),
        // A file that isn't there is made, unless its folder isn't there or nothing may be made in
        // it.
        ErrorKind::NotFound if is_folder(rt, folder_of(path)) => Some(Obstacle::NotPermitted),
        ErrorKind::NotFound | ErrorKind::NotADirectory => Some(Obstacle::NoFolder),
        _ if error.raw_os_error() == Some(TOO_MANY) => Some(Obstacle::TooManyOpen),
        _ => None,
    }
}

/// A file, open to be read and written, or why it isn't.
fn open(rt: &HostRuntime, path: &str) -> Result<File, Option<Obstacle>> {
    if is_folder(rt, path) {
        return Err(Some(Obstacle::Folder));
    }
    let mut options = OpenOptions::new();
    match options.read(true).write(true).open(rt, path) {
        Ok(file) => Ok(file),
        Err(error) => Err(by_error(rt, path, &error)),
    }
}

/// Why a database and its log aren't opened that were to be read and written, or made, if the
/// machine tells.
pub(crate) fn obstacle_of(rt: &HostRuntime, path: &str, log: &str) -> Option<Obstacle> {
    // The database stays open meanwhile: both are.
    let _database = match open(rt, path) {
        Ok(file) => file,
        Err(obstacle) => return obstacle,
    };
    match open(rt, log) {
        Ok(_) => None,
        Err(obstacle) => obstacle,
    }
}
