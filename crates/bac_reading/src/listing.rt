//! The parts of an archive.

ghost use Rattle.std.specs.Prelude.{◌≡◌, ◌<◌, ◌∷◌, [], IfErr, IfOk, Ok, false, length, map};
ghost use Rattle.std.specs.Prelude.{option_copied, true};
ghost use Rattle.std.specs.String.{string_bytes};
ghost use Rattle.bac_files.specs.Parts.{Listing};
ghost use Rattle.bac_reading.specs.Listing.{IsUnlisted, is_folder, newest_of, parts_of, unopened};
ghost use Rattle.bac_reading.specs.declared.fault.Fault.TheVariants.{Memory};

use crate::fault::{Fault, Stop, Trouble};
use bac_files::{NotOpened, Parts};
use bac_parts::FileFault;
use std::alloc::Global;

/// The parts of an archive: those of a folder, or one file.
#[derive(Drop)]
pub(crate) struct Archive {
    /// Their paths, the oldest first.
    pub(crate) paths: Vec<String>,
    pub(crate) is_folder: bool,
}

/// No file is opened, for this reason.
fn unopened(why: NotOpened) -> Stop
    ensures { result ≡ unopened why }
{
    Stop::Trouble(Trouble::File(FileFault::Unopened(why)))
}

/// An archive in the file of this name.
fn file_of(alloc: Global, name: &str) -> Result<Archive, Stop>
    ensures file { IfOk result (λ archive. (map string_bytes archive.paths.items ≡ name.now ∷ [])
        × (archive.is_folder ≡ false)) }
    ensures memory { IfErr result (λ stop. stop ≡ Stop.Fault Memory) }
{
    let Ok(path) = String::from_str(alloc, name) else {
        return Err(Stop::Fault(Fault::Memory));
    };
    let mut paths = Vec::new(alloc);
    match paths.push(path) {
        Ok(()) => Ok(Archive {
            paths,
            is_folder: false,
        }),
        Err(_) => Err(Stop::Fault(Fault::Memory)),
    }
}

/// An archive in these parts of a folder, of which there is one at least.
fn folder_of(paths: Vec<String>) -> Result<Archive, Stop>
    ensures folder { IfOk result (λ archive. (archive.paths.items ≡ paths.items)
        × (0 < length paths.items) × (archive.is_folder ≡ true)) }
    ensures empty { IfErr result
        (λ stop. (stop ≡ unopened NotOpened.Empty) × (paths.items ≡ [])) }
{
    if paths.is_empty() {
        return Err(unopened(NotOpened::Empty));
    }
    Ok(Archive {
        paths,
        is_folder: true,
    })
}

/// The parts of the archive of this name.
pub(crate) fn archive_of<P: Parts>(
    parts: &mut P,
    alloc: Global,
    name: &str,
) -> Result<Archive, Stop>
    ensures { (listing : Listing) × P.lists parts.old name.now listing parts.new
        × IfOk result (λ archive. (parts_of name.now listing
        ≡ Ok (map string_bytes archive.paths.items)) × (archive.is_folder ≡ is_folder listing))
        × IfErr result (IsUnlisted name.now listing) }
{
    match parts.list(name) {
        Ok(None) => file_of(alloc, name),
        Ok(Some(paths)) => folder_of(paths),
        Err(why) => Err(unopened(why)),
    }
}

impl Archive {
    /// The newest part of a folder that has so many at least.
    pub(crate) fn newest(&self, least: usize) -> Option<&str>
        ensures { option_copied result
            ≡ newest_of least self.now.is_folder (map string_bytes self.now.paths.items) }
    {
        if !self.is_folder || self.paths.len() < least {
            return None;
        }
        match self.paths.as_slice().last() {
            Some(path) => Some(path.as_str()),
            None => None,
        }
    }
}
