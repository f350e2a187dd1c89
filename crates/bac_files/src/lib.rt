//! Database files: opened by their names, and closed.
//!
//! [`DiskFiles`] are the files of the machine, of which a `Start` of the kit says what they hold.
//! What is done to them is stated from that to what they hold once they are closed (specs/Files).
//! An archive is kept in one file, or in the parts of a folder (specs/Parts), of which the newest
//! or the next one is opened; which entries a folder has, the machine says. [`Parts`] are read one
//! after the other, each by a [`Reader`]. A file that another program has open is waited for
//! (specs/Waiting), over a port over which nothing is sent.
#![tactic(auto)]

mod disk_files;
mod folder;
mod limited;
mod not_opened;
mod obstacles;
mod opening;
mod parts;
mod shared;
mod waiting;

pub use disk_files::DiskFiles;
pub use folder::Place;
pub use limited::Limited;
pub use not_opened::{NotOpened, Obstacle};
pub use opening::FileOf;
pub use parts::{FolderFiles, Parts, Reader};
