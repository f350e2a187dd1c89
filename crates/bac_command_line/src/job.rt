//! What the words ask for.

ghost use Rattle.std.specs.Prelude.{◌≡◌};
ghost use Rattle.bac_command_line.specs.Jobs.{is_traced, reads_input, with_groups};

use crate::addresses::Addresses;
use crate::group::Groups;
use crate::instances::Instances;
use crate::name::Name;
use bac_apdu::Route;
use bac_form::Form;
use bac_wire::Address;

/// What the tools that ask one device have in common.
#[derive(Debug, Drop)]
pub struct Asked {
    /// The device: four octets of the host, two of the port.
    pub address: Address,
    /// Our own address; any if it is absent.
    pub local: Option<Address>,
    /// How long to wait for an answer, in milliseconds: 1 to 60,000.
    pub timeout: u32,
    /// How many times to ask again: 0 to 10.
    pub retries: u8,
    /// The device's place behind a router, which then has the address above. Without it, the
    /// device is on this network.
    pub route: Option<Route>,
}

/// A value to write, by its application tag (clause 20.2.1.4).
#[derive(Debug, Drop)]
pub enum Given {
    Null,
    Boolean(bool),
    Unsigned(u64),
    Signed(i64),
    /// A REAL as its four octets (ANSI/IEEE 754).
    Real4([u8; 4]),
    /// A Character String in UTF-8, of at most 1,400 octets.
    Text(Name),
    Enumerated(u32),
}

/// The stations that `bac wi` asks.
#[derive(Debug, Drop)]
pub enum Stations {
    /// Those of the words.
    Listed(Addresses),
    /// Those of the lines of standard input.
    Input,
}

/// The texts of the options of `bac keep`, where they were given: for each log they are read by the
/// rules of `bac log`.
#[derive(Debug, Drop)]
pub struct KeepOptions {
    /// How many batches of a log.
    pub steps: Option<Name>,
    /// How many records a question asks for.
    pub count: Option<Name>,
    /// How long to wait for an answer.
    pub timeout: Option<Name>,
    /// Our own address.
    pub local: Option<Name>,
    /// How many times to ask again.
    pub retries: Option<Name>,
    /// The network of a device behind a router.
    pub dnet: Option<Name>,
    /// The device's address there.
    pub dadr: Option<Name>,
}

/// Which trend logs a file is to keep, as the words say them.
#[derive(Debug, Drop)]
pub struct Keep {
    /// The database file, or a folder of parts.
    pub file: Name,
    /// The devices, and which of its logs of each; each log of the file if there are none. The one
    /// word `-` stands for the devices of standard input.
    pub groups: Groups,
    /// They aren't polled any more.
    pub stop: bool,
    /// How many MiB a part of an archive has when the next one is begun: 1 to 4,096.
    pub part: u32,
    /// How many requests are in flight at once, of those that were sent once, less than 250 ms ago:
    /// 1 to 1,024.
    pub at_once: u32,
    /// How many seconds a file that is in use is waited for: 0 to 3,600.
    pub wait: u32,
    /// Nothing is printed on standard output.
    pub quiet: bool,
    /// Each datagram is told.
    pub trace: bool,
    pub options: KeepOptions,
}

impl Keep {
    /// Whether the devices are those of the lines of standard input.
    pub fn reads_input(&self) -> bool
        ensures { result ≡ reads_input self.now }
    {
        !self.stop && self.groups.are_input()
    }

    /// The same of these devices.
    pub fn with_groups(self, groups: Groups) -> Keep
        ensures { result ≡ with_groups self groups }
    {
        let Keep {
            file,
            stop,
            part,
            at_once,
            wait,
            quiet,
            trace,
            options,
            groups: _groups,
        } = self;
        Keep {
            file,
            groups,
            stop,
            part,
            at_once,
            wait,
            quiet,
            trace,
            options,
        }
    }
}

/// From which stamp on and up to which, each by a front part of it, as `2024-05` for a month. They
/// are compared as texts: a record is of the period if its stamp is `since` or later, and before
/// `until`.
#[derive(Debug, Drop)]
pub struct Period {
    /// From the first record on if it is absent.
    pub since: Option<Name>,
    /// To the last record if it is absent.
    pub until: Option<Name>,
}

/// How much of a trend log is to be printed.
#[derive(Debug, Drop)]
pub enum Extent {
    /// The records of a period.
    Dated(Period),
    /// The newest record alone.
    Newest,
}

/// Which trend logs of a file are to be printed, as the words say them.
#[derive(Debug, Drop)]
pub struct Kept {
    /// The database file, or a folder of parts.
    pub file: Name,
    /// The device; each log of the file if it is absent.
    pub address: Option<Name>,
    /// The log of the device; each if it is absent.
    pub instance: Option<Name>,
    /// The network of a device behind a router, which then has the address. The two are read by
    /// the rules of `bac log`.
    pub dnet: Option<Name>,
    /// The device's address there.
    pub dadr: Option<Name>,
    /// How much of each.
    pub extent: Extent,
    /// In lines, as CSV or as JSON.
    pub form: Form,
    /// How many seconds a file that is in use is waited for: 0 to 3,600.
    pub wait: u32,
}

/// Which archive is to be tested.
#[derive(Debug, Drop)]
pub struct Check {
    /// The database file, or a folder of parts.
    pub file: Name,
    /// How many seconds a file that is in use is waited for: 0 to 3,600.
    pub wait: u32,
    /// Nothing is printed on standard output.
    pub quiet: bool,
}

/// Which devices are to announce themselves (clause 16.10), as the words of `bac wi` say them.
#[derive(Debug, Drop)]
pub struct Discovery {
    pub stations: Stations,
    /// The least instance of a device.
    pub min: Option<u32>,
    /// The greatest.
    pub max: Option<u32>,
    /// The network behind a router whose devices are asked; 65535 is all networks.
    pub dnet: Option<u16>,
    /// Our own address; any if it is absent.
    pub local: Option<Address>,
    /// How long to wait for an answer, in milliseconds: 1 to 60,000.
    pub timeout: u32,
    /// Each datagram is told.
    pub trace: bool,
}

/// Which property is to be read (clause 15.5), as the words of `bac rp` say it.
#[derive(Debug, Drop)]
pub struct PropertyReading {
    pub asked: Asked,
    pub object_type: u16,
    pub instance: u32,
    pub property: u32,
    /// The element of an array; all of it if it is absent.
    pub index: Option<u32>,
    /// REALs and Doubles are printed as decimal numbers, and not as their octets.
    pub numbers: bool,
    /// Each datagram is told.
    pub trace: bool,
}

/// Which property is to be written (clause 15.9), as the words of `bac wp` say it.
#[derive(Debug, Drop)]
pub struct PropertyWriting {
    pub asked: Asked,
    pub object_type: u16,
    pub instance: u32,
    pub property: u32,
    /// 1 to 16; 0 is none.
    pub priority: u8,
    pub given: Given,
    /// The element of an array; all of it if it is absent.
    pub index: Option<u32>,
    /// Each datagram is told.
    pub trace: bool,
}

/// Which records of a trend log are to be read (clause 15.8), as the words of `bac log` say them.
#[derive(Debug, Drop)]
pub struct LogReading {
    pub asked: Asked,
    pub instance: u32,
    /// The number of the first record; the oldest if it is absent.
    pub from: Option<u32>,
    /// How many batches.
    pub steps: u32,
    /// How many records a question asks for: 1 to 100.
    pub count: u8,
    /// In lines, as CSV or as JSON.
    pub form: Form,
    /// Each datagram is told.
    pub trace: bool,
}

/// Which trend logs are to say what they are (clause 12.25), as the words of `bac logs` say them.
#[derive(Debug, Drop)]
pub struct LogListing {
    pub asked: Asked,
    /// Each of the Object_List if there are none.
    pub instances: Instances,
    /// Each datagram is told.
    pub trace: bool,
}

/// Where a device is to be, as the words of `bac serve` say it.
#[derive(Debug, Drop)]
pub struct ServedDevice {
    /// Four octets of the host, two of the port.
    pub address: Address,
    /// How many datagrams it takes.
    pub count: u32,
}

/// A tool with its words and options; an option that wasn't given has its default, or is absent.
/// Each tool that asks over the network has `trace`.
#[derive(Debug, Drop)]
pub enum Job {
    /// `bac replay`
    Replay,
    /// `bac wi`
    Wi(Discovery),
    /// `bac rp`
    Rp(PropertyReading),
    /// `bac wp`
    Wp(PropertyWriting),
    /// `bac log`
    Log(LogReading),
    /// `bac logs`
    Logs(LogListing),
    /// `bac keep`
    Keep(Keep),
    /// `bac kept`
    Kept(Kept),
    /// `bac check`
    Check(Check),
    /// `bac serve`
    Serve(ServedDevice),
}

impl Job {
    /// Each datagram is to be told (`--trace`).
    pub fn is_traced(&self) -> bool
        ensures { result ≡ is_traced self.now }
    {
        match self {
            Job::Wi(discovery) => discovery.trace,
            Job::Rp(reading) => reading.trace,
            Job::Wp(writing) => writing.trace,
            Job::Log(reading) => reading.trace,
            Job::Logs(listing) => listing.trace,
            Job::Keep(keep) => keep.trace,
            Job::Kept(_) | Job::Check(_) | Job::Serve(_) | Job::Replay => false,
        }
    }
}
