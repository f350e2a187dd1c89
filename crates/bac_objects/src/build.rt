//! Building a device of lines.

ghost use Rattle.std.specs.Prelude.{◌≡◌, ◌<◌, ◌++◌, ◌∷◌, [], map, None, OnOk, IfOk, IfErr, IfSome};
ghost use Rattle.std.specs.Prelude.{IsTrue};
ghost use Rattle.std.specs.List.{list_any};
ghost use Rattle.std.specs.Map.{lookup};
ghost use Rattle.std.specs.Str.{bytes_eq};
ghost use Rattle.indexmap.specs.IndexSet.{insert_key};
ghost use Rattle.bac_objects.specs.Build.{Builds, Finds, body_of, build_fault, device_fault};
ghost use Rattle.bac_objects.specs.Build.{entry_of, first_of, has_id, has_name, id_of, instance_of};
ghost use Rattle.bac_objects.specs.Build.{is_control, is_name, line_tests, log_tests};
ghost use Rattle.bac_objects.specs.Build.{objects_fault, own_tests};
ghost use Rattle.bac_objects.specs.Kept.{AreObjects, IsBody};
ghost use Rattle.bac_objects.specs.Misfit.{IsFirstFaulty};
ghost use Rattle.bac_objects.specs.Sound.{IsSound};
ghost use Rattle.bac_objects.specs.State.{is_id};

use crate::command::{Command, Range, Setting};
use crate::database::Database;
use crate::lines::{DeviceLine, LineId, ObjectLine};
use crate::object::{Body, Logger, Object};
use bac_log::TrendLog;
use bac_wire::ObjectId;
use indexmap::{IndexMap, IndexSet};
use std::alloc::Global;
use thiserror::Error;

/// Why a device can't be built.
#[derive(Clone, Copy, Debug, PartialEq, Eq, Error)]
pub enum BuildFault {
    /// The instance is over 4194302.
    #[error("bad instance")]
    BadInstance,
    /// Two objects have the same type and instance.
    #[error("duplicate object")]
    DuplicateId,
    /// The name is empty, has over 64 octets, or a character below 32 or 127.
    #[error("bad name")]
    BadName,
    /// Two objects, or an object and the device, have the same name.
    #[error("duplicate name")]
    DuplicateName,
    /// The number of states isn't 1 to 65535.
    #[error("bad states")]
    BadStates,
    /// The default of a binary object isn't 0 or 1, or that of a multi-state one none of its
    /// states.
    #[error("bad default")]
    BadDefault,
    /// The capacity of a log isn't 1 to 65535.
    #[error("bad capacity")]
    BadCapacity,
    /// The interval of a log is 1 to 99 hundredths of a second.
    #[error("bad interval")]
    BadInterval,
    /// The reply size isn't 50 to 1476.
    #[error("bad reply size")]
    BadReplySize,
    /// No memory for the device.
    #[error("out of memory")]
    Memory,
}

/// The line with which a device can't be built.
#[derive(Clone, Copy, Debug, PartialEq, Eq)]
pub struct Misfit {
    pub line: LineId,
    pub fault: BuildFault,
    /// The earlier line with the same name, if that is the fault: the device's, if it has the name,
    /// else the first object line that has it.
    pub namesake: Option<LineId>,
}

/// Whether a name has a character below 32 or 127.
fn has_control(name: &[u8]) -> bool
    ensures { result ≡ list_any is_control name.now }
{
    name.iter().any(|octet| *octet < 32 || *octet == 127)
}

/// Whether a name has 1 to 64 octets and no control character.
fn is_name(name: &[u8]) -> bool
    ensures { result ≡ is_name name.now }
{
    !name.is_empty() && name.len() <= 64 && !has_control(name)
}

impl DeviceLine {
    /// The first fault of the line.
    pub(crate) fn fault(&self) -> Option<BuildFault>
        ensures { result ≡ device_fault self.now }
    {
        if 4_194_302 < self.instance {
            return Some(BuildFault::BadInstance);
        }
        if !is_name(self.name.octets()) {
            return Some(BuildFault::BadName);
        }
        if self.reply_size < 50 || 1476 < self.reply_size {
            return Some(BuildFault::BadReplySize);
        }
        None
    }
}

/// Whether one of the lines has this type and instance.
fn has_id(lines: &[ObjectLine], kind: u16, instance: u32) -> bool
    ensures { result ≡ has_id (record { kind = kind; instance = instance }) lines.now }
{
    for line in lines {
        if kind == line.kind() && instance == line.instance() {
            return true;
        }
    }
    false
}

/// Whether one of the lines has this name.
fn has_name(lines: &[ObjectLine], name: &[u8]) -> bool
    ensures { result ≡ has_name name.now lines.now }
{
    for line in lines {
        if name == line.name().octets() {
            return true;
        }
    }
    false
}

/// The first fault of what a log's line says of its records.
fn log_fault(capacity: u32, interval: u32) -> Option<BuildFault>
    ensures { result ≡ first_of (log_tests capacity interval) }
{
    if capacity < 1 || 65535 < capacity {
        return Some(BuildFault::BadCapacity);
    }
    if 0 < interval && interval < 100 {
        return Some(BuildFault::BadInterval);
    }
    None
}

impl ObjectLine {
    /// The first fault of what only lines of this kind say.
    fn own_fault(&self) -> Option<BuildFault>
        ensures { result ≡ first_of (own_tests self.now) }
    {
        match self {
            ObjectLine::Binary { default, .. } => {
                if 1 < *default {
                    return Some(BuildFault::BadDefault);
                }
                None
            }
            ObjectLine::Multistate {
                states,
                default,
                ..
            } => {
                if *states < 1 || 65535 < *states {
                    return Some(BuildFault::BadStates);
                }
                if *default < 1 || *states < *default {
                    return Some(BuildFault::BadDefault);
                }
                None
            }
            ObjectLine::Integer { .. } => None,
            ObjectLine::Log {
                capacity,
                interval,
                ..
            } => log_fault(*capacity, *interval),
        }
    }

    /// The first fault of the line after the device's line, if lines before it have the same
    /// identifier or the same name.
    fn fault(&self, device: &DeviceLine, same_id: bool, same_name: bool) -> Option<BuildFault>
        ensures { result ≡ first_of (line_tests device.now self.now same_id same_name) }
    {
        if 4_194_302 < self.instance() {
            return Some(BuildFault::BadInstance);
        }
        if same_id {
            return Some(BuildFault::DuplicateId);
        }
        let name = self.name().octets();
        if !is_name(name) {
            return Some(BuildFault::BadName);
        }
        if name == device.name.octets() || same_name {
            return Some(BuildFault::DuplicateName);
        }
        self.own_fault()
    }

    /// What the object is. A log takes memory for all its records.
    fn body(&self, alloc: Global) -> Result<Body, BuildFault>
        ensures ok { IfOk result (λ body. body ≡ body_of self.now) }
        ensures kept { IfOk result
            (λ body. instance_of self.now < 4194304 → IsBody (id_of self.now) body) }
        ensures err { IfErr result (λ fault. fault ≡ BuildFault.Memory) }
    {
        match self {
            ObjectLine::Binary { default, .. } => Ok(Body::Command(Command::new(
                Range::Binary,
                Setting::Enumerated(*default),
            ))),
            ObjectLine::Multistate {
                states,
                default,
                ..
            } => Ok(Body::Command(Command::new(
                Range::Multistate { states: *states },
                Setting::Unsigned(*default),
            ))),
            ObjectLine::Integer { default, .. } => Ok(Body::Command(Command::new(
                Range::Integer,
                Setting::Signed(*default),
            ))),
            ObjectLine::Log {
                source,
                capacity,
                interval,
                logged,
                ..
            } => match TrendLog::new(alloc, *capacity, *logged) {
                Ok(log) => Ok(Body::Log(Logger {
                    source: *source,
                    interval: *interval,
                    log,
                })),
                Err(_) => Err(BuildFault::Memory),
            },
        }
    }
}

/// An object line with a fault, and the lines before it, which have none.
#[derive(Clone, Copy)]
pub(crate) struct Faulty<'a> {
    pub before: &'a [ObjectLine],
    pub line: &'a ObjectLine,
    pub fault: BuildFault,
}

/// The first object line with a fault, found by comparing each line with all before it.
fn compared_fault<'a>(device: &DeviceLine, lines: &'a [ObjectLine]) -> Option<Faulty<'a>>
    ensures { IsFirstFaulty device.now lines.now result }
{
    for place in 0..lines.len() {
        let line = &lines[place];
        let before = &lines[..place];
        let same_id = has_id(before, line.kind(), line.instance());
        let same_name = has_name(before, line.name().octets());
        if let Some(fault) = line.fault(device, same_id, same_name) {
            return Some(Faulty {
                before,
                line,
                fault,
            });
        }
    }
    None
}

/// Notes the identifier and the name of a line that has no fault.
fn note<'a>(
    ids: &mut IndexSet<ObjectId>,
    names: &mut IndexSet<&'a str>,
    id: ObjectId,
    name: &'a str,
) -> bool
    ensures ids { IsTrue result → ids.new.keys ≡ insert_key is_id ids.old.keys id }
    ensures names { IsTrue result
        → names.new.keys ≡ insert_key (λ a b. bytes_eq a.now b.now) names.old.keys name.entry }
{
    ids.insert(id).is_ok() && names.insert(name).is_ok()
}

/// The first object line with a fault, each line looked up once in tables of identifiers and names
/// to which it is added; `None` if there is no memory for it.
fn looked_up_fault<'a>(
    device: &DeviceLine,
    lines: &'a [ObjectLine],
    ids: &mut IndexSet<ObjectId>,
    names: &mut IndexSet<&'a str>,
) -> Option<Option<Faulty<'a>>>
    ensures { ids.old.keys ≡ [] → names.old.keys ≡ []
        → IfSome result (IsFirstFaulty device.now lines.now) }
{
    for place in 0..lines.len() {
        let line = &lines[place];
        let before = &lines[..place];
        let Some(id) = ObjectId::new(line.kind(), line.instance()) else {
            return Some(Some(Faulty {
                before,
                line,
                fault: BuildFault::BadInstance,
            }));
        };
        let name = line.name().text();
        if let Some(fault) = line.fault(device, ids.contains(&id), names.contains(&name)) {
            return Some(Some(Faulty {
                before,
                line,
                fault,
            }));
        }
        if !note(ids, names, id, name) {
            return None;
        }
    }
    Some(None)
}

/// The first object line with a fault, found by tables in which each line is looked up once;
/// `None` if there is no memory for them.
fn tabled_fault<'a>(
    alloc: Global,
    device: &DeviceLine,
    lines: &'a [ObjectLine],
) -> Option<Option<Faulty<'a>>>
    ensures { IfSome result (IsFirstFaulty device.now lines.now) }
{
    let mut ids: IndexSet<ObjectId> = IndexSet::with_capacity(alloc, lines.len()).ok()?;
    let mut names: IndexSet<&str> = IndexSet::with_capacity(alloc, lines.len()).ok()?;
    looked_up_fault(device, lines, &mut ids, &mut names)
}

/// The first object line with a fault.
pub(crate) fn first_faulty<'a>(
    alloc: Global,
    device: &DeviceLine,
    lines: &'a [ObjectLine],
) -> Option<Faulty<'a>>
    ensures { IsFirstFaulty device.now lines.now result }
{
    match tabled_fault(alloc, device, lines) {
        Some(found) => found,
        None => compared_fault(device, lines),
    }
}

/// The first fault of the object lines; or, if they have none, that there was no memory for the
/// tables in which they are looked up.
fn objects_fault(alloc: Global, device: &DeviceLine, lines: &[ObjectLine]) -> Option<BuildFault>
    ensures { Finds result (objects_fault device.now [] lines.now) }
{
    match tabled_fault(alloc, device, lines) {
        Some(Some(faulty)) => Some(faulty.fault),
        Some(None) => None,
        None => match compared_fault(device, lines) {
            Some(faulty) => Some(faulty.fault),
            None => Some(BuildFault::Memory),
        },
    }
}

/// The first fault of all the lines.
fn build_fault(alloc: Global, device: &DeviceLine, lines: &[ObjectLine]) -> Option<BuildFault>
    ensures { Finds result (build_fault device.now lines.now) }
{
    match device.fault() {
        Some(fault) => Some(fault),
        None => objects_fault(alloc, device, lines),
    }
}

/// Adds the object of a line.
fn add(
    objects: &mut IndexMap<ObjectId, Object>,
    alloc: Global,
    line: &ObjectLine,
) -> Result<(), BuildFault>
    requires within { instance_of line.now < 4194304 }
    requires fresh { lookup (is_id (id_of line.now)) objects.old.entries ≡ None }
    requires kept { AreObjects objects.old.entries }
    ensures ok { OnOk result (objects.new.entries ≡ objects.old.entries ++ entry_of line.now ∷ []) }
    ensures keeps { OnOk result (AreObjects objects.new.entries) }
    ensures err { IfErr result (λ fault. fault ≡ BuildFault.Memory) }
{
    let Some(id) = ObjectId::new(line.kind(), line.instance()) else {
        unreachable!()
    };
    let Ok(name) = line.name().copy(alloc) else {
        return Err(BuildFault::Memory);
    };
    let Ok(body) = line.body(alloc) else {
        return Err(BuildFault::Memory);
    };
    let object = Object { name, body };
    match objects.insert(id, object) {
        Ok(_) => Ok(()),
        Err(_) => Err(BuildFault::Memory),
    }
}

/// The objects of lines that have no fault.
pub(crate) fn objects_of(
    alloc: Global,
    device: &DeviceLine,
    lines: &[ObjectLine],
) -> Result<IndexMap<ObjectId, Object>, BuildFault>
    requires { objects_fault device.now [] lines.now ≡ None }
    ensures ok { IfOk result (λ objects. objects.entries ≡ map entry_of lines.now) }
    ensures kept { IfOk result (λ objects. AreObjects objects.entries) }
    ensures err { IfErr result (λ fault. fault ≡ BuildFault.Memory) }
{
    let Ok(mut objects) = IndexMap::with_capacity(alloc, lines.len()) else {
        return Err(BuildFault::Memory);
    };
    for line in lines {
        add(&mut objects, alloc, line)?;
    }
    Ok(objects)
}

impl Database {
    /// The device that lines describe, or their first fault. If memory runs out, for the tables in
    /// which lines are looked up too, only lines without a fault are refused for it.
    pub fn build(
        alloc: Global,
        device: &DeviceLine,
        lines: &[ObjectLine],
    ) -> Result<Database, BuildFault>
        ensures built { Builds result device.now lines.now }
        ensures sound { IfOk result IsSound }
    {
        if let Some(fault) = build_fault(alloc, device, lines) {
            return Err(fault);
        }
        let objects = objects_of(alloc, device, lines)?;
        match Database::of(alloc, device, objects) {
            Ok(database) => Ok(database),
            Err(_) => Err(BuildFault::Memory),
        }
    }
}
