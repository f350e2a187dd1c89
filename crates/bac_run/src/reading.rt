//! `kept` and `check`.

ghost use Rattle.std.specs.Prelude.{◌≡◌, option_map, unwrap_or};
ghost use Rattle.bac_files.specs.Parts.{part_rules};
ghost use Rattle.bac_socket_notes.specs.Notes.{nothing};
ghost use Rattle.bac_keep_command_line.specs.Printing.{behind_as as router_as, device_as};
ghost use Rattle.bac_reading.specs.Scene.{scene};
ghost use Rattle.bac_tools.specs.Run.{Ends};
ghost use Rattle.bac_run.specs.Faults.{of_read, of_words, read_ending};
ghost use Rattle.bac_run.specs.Reading.{ChecksArchive, ChecksQuietly, PrintsKept, asked_as};
ghost use Rattle.bac_run.specs.Reading.{asked_for, choice_as};
ghost use Rattle.bac_run.specs.Reading.{behind_as, dates_as, dates_between, device_at};

use bac_command_line::{Check, Extent, Kept, Name, Period};
use bac_files::Parts;
use bac_keep_command_line::{BehindRouter, Device, Fault as WordFault, read_device};
use bac_kept::{Behind, Choice, Dates, Place, Words};
use bac_reading::{Asked, Fault as ReadFault, run_check, run_kept};
use bac_tools::{Fault, tell};
use std::alloc::Global;
use std::io::{self, Write};

/// Before the stamp of each record that has a date.
const BEFORE_ALL: &str = "0";

/// Behind it.
const BEHIND_ALL: &str = "~";

/// A fault of what reads an archive, as one of the program.
fn of_read(fault: ReadFault) -> Fault
    ensures { result ≡ of_read fault }
{
    match fault {
        ReadFault::Memory => Fault::Memory,
        ReadFault::Write => Fault::Write,
    }
}

/// A fault of words, as one of the program.
fn of_words(fault: WordFault) -> Fault
    ensures { result ≡ of_words fault }
{
    match fault {
        WordFault::BadValue(word) => Fault::BadValue(word),
        WordFault::LongNumber(word) => Fault::LongNumber(word),
        WordFault::Memory => Fault::Memory,
    }
}

/// A place behind a router.
fn behind_of(behind: &Option<BehindRouter>) -> Option<Behind<'_>>
    ensures { option_map behind_as result ≡ option_map router_as behind.now }
{
    match behind {
        Some(behind) => Some(Behind {
            network: behind.network,
            address: behind.address.as_str(),
        }),
        None => None,
    }
}

/// Where a device is.
fn place_of(device: &Device) -> Place<'_>
    ensures { device_at result device.now.instance ≡ device_as device.now }
{
    Place {
        address: device.address.as_str(),
        behind: behind_of(&device.behind),
    }
}

/// Which logs: those of a device, or the one of it; or all.
fn choice_of(device: &Option<Device>) -> Choice<'_>
    ensures { choice_as result ≡ option_map device_as device.now }
{
    match device {
        Some(device) => match device.instance {
            Some(instance) => Choice::Log(place_of(device), instance),
            None => Choice::Device(place_of(device)),
        },
        None => Choice::All,
    }
}

/// A text, or another one in its place.
fn text_or<'a>(name: &'a Option<Name>, other: &'a str) -> &'a str
    ensures { result.now ≡ unwrap_or name.now other.now }
{
    match name {
        Some(name) => name.as_str(),
        None => other,
    }
}

/// The dates of a period.
fn dates_of(period: &Period) -> Option<Dates<'_>>
    ensures { option_map dates_as result ≡ dates_between period.now.since period.now.until }
{
    if period.since.is_none() && period.until.is_none() {
        return None;
    }
    Some(Dates {
        since: text_or(&period.since, BEFORE_ALL),
        before: text_or(&period.until, BEHIND_ALL),
    })
}

/// What the words ask for, which name this device.
fn asked_of<'a>(kept: &'a Kept, device: &'a Option<Device>) -> Asked<'a>
    ensures { asked_as result ≡ asked_for kept.now (option_map device_as device.now) }
{
    let (dates, last) = match &kept.extent {
        Extent::Dated(period) => (dates_of(period), false),
        Extent::Newest => (None, true),
    };
    Asked {
        file: kept.file.as_str(),
        words: Words {
            choice: choice_of(device),
            dates,
            form: kept.form,
        },
        last,
    }
}

/// The status of `kept` or `check`, whose fault is told.
fn ended<E: Write>(alloc: Global, done: Result<u8, ReadFault>, errors: &mut E) -> u8
    ensures { Ends nothing (read_ending done) (E.contents errors.old) (E.contents errors.new)
        result }
{
    match done {
        Ok(status) => status,
        Err(fault) => tell(alloc, of_read(fault), errors),
    }
}

/// `kept`, and its fault is told.
pub(crate) fn print_and_tell<Q: Parts, O: Write, E: Write>(
    folders: &mut Q,
    alloc: Global,
    kept: &Kept,
    output: &mut O,
    errors: &mut E,
) -> u8
    ensures { PrintsKept (part_rules Q.lists Q.holds Q.bars) kept.now
        (scene folders.old (O.contents output.old) (E.contents errors.old)) result
        (scene folders.new (O.contents output.new) (E.contents errors.new)) }
{
    match read_device(alloc, kept) {
        Ok(device) => {
            folders.wait_for(kept.wait);
            let asked = asked_of(kept, &device);
            let done = run_kept(folders, alloc, &asked, output, errors);
            ended(alloc, done, errors)
        }
        Err(fault) => tell(alloc, of_words(fault), errors),
    }
}

/// `check`, and its fault is told.
fn check_and_tell<Q: Parts, O: Write, E: Write>(
    folders: &mut Q,
    alloc: Global,
    asked: &Check,
    output: &mut O,
    errors: &mut E,
) -> u8
    ensures { ChecksArchive (part_rules Q.lists Q.holds Q.bars) asked.now
        (scene folders.old (O.contents output.old) (E.contents errors.old)) result
        (scene folders.new (O.contents output.new) (E.contents errors.new)) }
{
    folders.wait_for(asked.wait);
    let done = run_check(folders, alloc, asked.file.as_str(), output, errors);
    ended(alloc, done, errors)
}

/// The same; with `--quiet` what it prints goes nowhere.
pub(crate) fn check_job<Q: Parts, O: Write, E: Write>(
    folders: &mut Q,
    alloc: Global,
    asked: &Check,
    output: &mut O,
    errors: &mut E,
) -> u8
    ensures { ChecksQuietly (part_rules Q.lists Q.holds Q.bars) asked.now
        (scene folders.old (O.contents output.old) (E.contents errors.old)) result
        (scene folders.new (O.contents output.new) (E.contents errors.new)) }
{
    if asked.quiet {
        return check_and_tell(folders, alloc, asked, &mut io::sink(), errors);
    }
    check_and_tell(folders, alloc, asked, output, errors)
}
