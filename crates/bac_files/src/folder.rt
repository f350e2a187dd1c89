//! A folder of parts: files with a name of six digits and `.db`, of which the greatest is the
//! newest.

ghost use Rattle.std.specs.Prelude.{◌≡◌, ◌↔◌, ◌<◌, ◌≤◌, ◌∷◌, ◌++◌, ℕ, Bool, Err, IfErr, IfOk};
ghost use Rattle.std.specs.Prelude.{List, Some, [], false, map};
ghost use Rattle.std.specs.Iterator.{IsFinite};
ghost use Rattle.std.specs.String.{string_bytes};
ghost use Rattle.bac_files.specs.Files.{IsReason};
ghost use Rattle.bac_files.specs.Parts.{AreAllParts, AreListed, AreParts, ArePartsOf, FollowsOn};
ghost use Rattle.bac_files.specs.Parts.{GivesNames, HasNoPart, IsNewestOrNext, IsPartBehind};
ghost use Rattle.bac_files.specs.Parts.{IsPartFile, IsPlaced, IsPlacedAmong, blamed, part_file};
ghost use Rattle.bac_files.specs.Parts.{part_path, part_paths, paths_of};

use crate::not_opened::{NotOpened, Obstacle};
use crate::obstacles::is_folder;
use std::alloc::AllocError;
use std::fmt::Write;
use std::fs::{DirEntry, ReadDir, metadata, read_dir};
use std::io;

/// The number of the last part that a folder has room for.
const LAST: u32 = 999_999;

/// The file of an archive, and the part of the archive before it.
#[derive(Drop)]
pub struct Place {
    pub path: String,
    /// The part that it follows on; of a file that has nothing it is made of that.
    pub before: Option<String>,
    /// That part, and not this file, is the one that is no use.
    pub blames_before: bool,
}

impl Place {
    /// A file that is no part of anything.
    fn alone(rt: &HostRuntime, name: &str) -> Result<Place, AllocError>
        ensures { IfOk result (IsPlaced name.now) }
    {
        Ok(Place {
            path: String::from_str(rt.alloc(), name)?,
            before: None,
            blames_before: false,
        })
    }

    /// The part behind so many others, and the last of these, which it follows on.
    fn part(rt: &HostRuntime, folder: &str, others: u32) -> Result<Place, AllocError>
        requires { others < 4294967295 }
        ensures { IfOk result (IsPartBehind folder.now others) }
    {
        Ok(Place {
            path: part_path(rt, folder, others + 1)?,
            before: last_path(rt, folder, others)?,
            blames_before: false,
        })
    }

    /// The name of the file that is no use, where one of them is.
    pub fn blamed(&self) -> &str
        ensures { result.now ≡ blamed self.now }
    {
        match &self.before {
            Some(before) if self.blames_before => before.as_str(),
            _ => self.path.as_str(),
        }
    }
}

/// The name of a part in its folder: six digits and `.db`.
fn part_name(rt: &HostRuntime, number: u32) -> Result<String, AllocError>
    ensures { IfOk result (λ name. string_bytes name ≡ part_file number) }
{
    let mut name = String::new(rt.alloc());
    match write!(name, "{number:06}.db") {
        Ok(()) => Ok(name),
        Err(_) => Err(AllocError),
    }
}

/// The path of a part.
fn part_path(rt: &HostRuntime, folder: &str, number: u32) -> Result<String, AllocError>
    ensures { IfOk result (λ path. string_bytes path ≡ part_path folder.now number) }
{
    let name = part_name(rt, number)?;
    let mut path = String::from_str(rt.alloc(), folder)?;
    path.push_str("/")?;
    path.push_str(name.as_str())?;
    Ok(path)
}

/// The path of the last of so many parts, if there is one.
fn last_path(rt: &HostRuntime, folder: &str, parts: u32) -> Result<Option<String>, AllocError>
    ensures { IfOk result (FollowsOn folder.now parts) }
{
    if parts == 0 {
        return Ok(None);
    }
    Ok(Some(part_path(rt, folder, parts)?))
}

/// The number of a part, by the name of its file.
fn number_of(name: &str) -> Option<u32>
    ensures { (number : ℕ) → (result ≡ Some number) ↔ IsPartFile name.now number }
{
    let digits = name.strip_suffix(".db")?;
    // `parse` would take a sign.
    if digits.len() != 6 || digits.starts_with('+') {
        return None;
    }
    match digits.parse::<u32>() {
        Ok(number) if number > 0 => Some(number),
        _ => None,
    }
}

/// Which parts there are: the least and the greatest number of one.
#[derive(Clone, Copy)]
struct Numbers {
    least: u32,
    greatest: u32,
}

/// The parts among some files and one more.
fn and_part(found: Option<Numbers>, name: &str) -> Option<Numbers>
    ensures { (names : List (List ℕ)) → ArePartsOf names found
        → ArePartsOf (names ++ name.now ∷ []) result }
{
    let Some(number) = number_of(name) else {
        return found;
    };
    match found {
        Some(numbers) => Some(Numbers {
            least: numbers.least.min(number),
            greatest: numbers.greatest.max(number),
        }),
        None => Some(Numbers {
            least: number,
            greatest: number,
        }),
    }
}

/// The parts among entries.
fn parts_in<I: Iterator<Item = io::Result<DirEntry>> + Drop>(
    entries: I,
) -> Result<Option<Numbers>, NotOpened>
    requires next { I.can_next entries }
    requires ends { IsFinite (I.remaining entries) }
    ensures found { IfOk result (λ found. (names : List (List ℕ))
        × GivesNames I.next_gives entries names × ArePartsOf names found) }
    ensures why { IfErr result (λ why. why ≡ NotOpened.Barred Obstacle.NotPermitted) }
{
    let mut found = None;
    for entry in entries {
        let Ok(entry) = entry else {
            return Err(NotOpened::Barred(Obstacle::NotPermitted));
        };
        found = and_part(found, entry.file_name());
    }
    Ok(found)
}

/// The entries of a folder.
fn entries_of(rt: &HostRuntime, folder: &str) -> Result<ReadDir, NotOpened>
    ensures { IfErr result (λ why. why ≡ NotOpened.Barred Obstacle.NotPermitted) }
{
    match read_dir(rt, folder) {
        Ok(entries) => Ok(entries),
        Err(_) => Err(NotOpened::Barred(Obstacle::NotPermitted)),
    }
}

/// How many octets the file of a part has; 0 if it isn't there.
fn len_of(rt: &HostRuntime, folder: &str, number: u32) -> Result<u64, AllocError> {
    let path = part_path(rt, folder, number)?;
    match metadata(rt, path.as_str()) {
        Ok(found) => Ok(found.len()),
        Err(_) => Ok(0),
    }
}

/// The newest part of a folder, which has this number, or the one behind it, where that has so many
/// octets or more. A part with nothing in it follows on the one before it, also one that was begun
/// and isn't written.
fn newest_or_next(
    rt: &HostRuntime,
    folder: &str,
    newest: u32,
    full: u64,
) -> Result<Place, AllocError>
    requires some { 1 ≤ newest }
    requires room { newest ≤ 999999 }
    ensures { IfOk result (IsNewestOrNext folder.now newest) }
{
    let len = len_of(rt, folder, newest)?;
    if len >= full && newest < LAST {
        return Place::part(rt, folder, newest);
    }
    Place::part(rt, folder, newest - 1)
}

/// The part of a folder that is opened, of which these are its entries.
fn place_among<I: Iterator<Item = io::Result<DirEntry>> + Drop>(
    rt: &HostRuntime,
    folder: &str,
    entries: I,
    full: u64,
) -> Result<Place, NotOpened>
    requires next { I.can_next entries }
    requires ends { IsFinite (I.remaining entries) }
    ensures placed { IfOk result (λ place. (names : List (List ℕ))
        × GivesNames I.next_gives entries names × IsPlacedAmong folder.now names place) }
    ensures why { (may : Bool) → IfErr result (IsReason may) }
{
    let found = match parts_in(entries) {
        Ok(found) => found,
        Err(why) => return Err(why),
    };
    let placed = match found {
        Some(numbers) => newest_or_next(rt, folder, numbers.greatest, full),
        None => Place::part(rt, folder, 0),
    };
    match placed {
        Ok(place) => Ok(place),
        Err(_) => Err(NotOpened::Memory),
    }
}

/// The part of a folder that is opened.
fn place_in(rt: &HostRuntime, folder: &str, full: u64) -> Result<Place, NotOpened>
    ensures placed { IfOk result (IsPlaced folder.now) }
    ensures why { (may : Bool) → IfErr result (IsReason may) }
{
    match entries_of(rt, folder) {
        Ok(entries) => place_among(rt, folder, entries, full),
        Err(why) => Err(why),
    }
}

/// The paths of the parts of a folder with these numbers, the oldest first.
fn paths_of(
    rt: &HostRuntime,
    folder: &str,
    least: u32,
    greatest: u32,
) -> Result<Vec<String>, AllocError>
    requires order { least ≤ greatest }
    requires room { greatest ≤ 999999 }
    ensures { IfOk result (λ paths. map string_bytes paths.items
        ≡ part_paths folder.now least greatest) }
{
    let mut paths = Vec::new(rt.alloc());
    for number in least..greatest + 1 {
        paths.push(part_path(rt, folder, number)?)?;
    }
    Ok(paths)
}

/// The paths of the parts of a folder, of which these are its entries, the oldest first; where one
/// between two others is gone, it is among them. A folder without parts has nothing.
fn paths_among<I: Iterator<Item = io::Result<DirEntry>> + Drop>(
    rt: &HostRuntime,
    folder: &str,
    entries: I,
) -> Result<Vec<String>, NotOpened>
    requires next { I.can_next entries }
    requires ends { IsFinite (I.remaining entries) }
    ensures paths { IfOk result (λ paths. (names : List (List ℕ))
        × GivesNames I.next_gives entries names
        × AreAllParts folder.now names (map string_bytes paths.items)) }
    ensures empty { result ≡ Err NotOpened.Empty → (names : List (List ℕ))
        × GivesNames I.next_gives entries names × HasNoPart names }
    ensures why { IfErr result (IsReason false) }
{
    let numbers = match parts_in(entries) {
        Ok(Some(numbers)) => numbers,
        Ok(None) => return Err(NotOpened::Empty),
        Err(why) => return Err(why),
    };
    match paths_of(rt, folder, numbers.least, numbers.greatest) {
        Ok(paths) => Ok(paths),
        Err(_) => Err(NotOpened::Memory),
    }
}

/// The paths of the parts of a folder.
fn paths_in(rt: &HostRuntime, folder: &str) -> Result<Vec<String>, NotOpened>
    ensures paths { IfOk result (λ paths. AreParts folder.now (map string_bytes paths.items)) }
    ensures why { IfErr result (IsReason false) }
{
    match entries_of(rt, folder) {
        Ok(entries) => paths_among(rt, folder, entries),
        Err(why) => Err(why),
    }
}

/// The parts of the archive of this name, if it is a folder.
pub(crate) fn parts_of(rt: &HostRuntime, name: &str) -> Result<Option<Vec<String>>, NotOpened>
    ensures parts { AreListed name.now (paths_of result) }
    ensures why { IfErr result (IsReason false) }
{
    if !is_folder(rt, name) {
        return Ok(None);
    }
    Ok(Some(paths_in(rt, name)?))
}

/// Where the archive of this name is kept: in the file, or in a part of the folder.
pub(crate) fn place_of(rt: &HostRuntime, name: &str, full: u64) -> Result<Place, NotOpened>
    ensures placed { IfOk result (IsPlaced name.now) }
    ensures why { (may : Bool) → IfErr result (IsReason may) }
{
    if is_folder(rt, name) {
        return place_in(rt, name, full);
    }
    match Place::alone(rt, name) {
        Ok(place) => Ok(place),
        Err(_) => Err(NotOpened::Memory),
    }
}
