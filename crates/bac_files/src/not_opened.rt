//! Why no database is opened.

use sqlite::Error;

/// What of the machine keeps a file from being opened.
#[derive(Clone, Copy)]
pub enum Obstacle {
    /// It is a folder.
    Folder,
    /// The folder that it is to be in isn't there.
    NoFolder,
    /// Reading and writing it isn't permitted, or making it.
    NotPermitted,
    /// The program has as many files open as it may.
    TooManyOpen,
}

/// Why no database is opened.
#[derive(Clone, Copy)]
pub enum NotOpened {
    /// Another program has it open.
    InUse,
    /// There is no such file, and none may be made.
    Absent,
    /// There is nothing in it, and no database may be made of it.
    Empty,
    /// The machine doesn't open it, or the log beside it.
    Barred(Obstacle),
    /// Out of memory.
    Memory,
    /// What the database says.
    Database(Error),
}
