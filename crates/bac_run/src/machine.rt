//! What the program works on, which its caller hands in.

use bac_files::DiskFiles;
use sqlite::Start;

/// What the program does its work over.
#[derive(Drop)]
pub struct Machine<'a, S, F: Start, G: Start, Q, C> {
    /// What its devices are asked over.
    pub sockets: S,
    /// The files of an archive.
    pub files: DiskFiles<'a, F>,
    /// Those of the part of an archive on which another one follows.
    pub parts: DiskFiles<'a, G>,
    /// What the parts of an archive are read from.
    pub folders: Q,
    /// The time of day.
    pub clock: C,
}

/// What the program reads and writes.
#[derive(Drop)]
pub struct Console<I, O, E> {
    /// The devices that `keep` is to ask, or a script.
    pub input: I,
    /// Results and help.
    pub output: O,
    /// Faults, and the line of a server that is up.
    pub errors: E,
}
