//! The words that each tool takes, in the order of the help.

use crate::entries::Entry;
use crate::word::Word;

/// A database.
const FILE: Entry<'static> = Entry::Needed(Word::File, "The database file, or a folder of parts");

/// The device to ask.
const DEVICE: Entry<'static> = Entry::Needed(
    Word::Address,
    "The device: A.B.C.D or A.B.C.D:PORT (port 47808)",
);

/// With the instance, an object.
const OBJECT_TYPE: Entry<'static> = Entry::Needed(
    Word::ObjectType,
    "The object's type, as a number: 0 to 1023",
);

/// An object's instance.
const OBJECT: Entry<'static> = Entry::Needed(Word::Instance, "The object's instance: 0 to 4194303");

/// A property.
const PROPERTY: Entry<'static> = Entry::Needed(
    Word::Property,
    "The property, as a number: 85 is Present_Value",
);

/// How long to wait.
const TIMEOUT: Entry<'static> = Entry::ChoiceOr(
    Word::Timeout,
    "MS",
    "3000",
    "Wait for a reply: 1 to 60000 ms",
);

/// Our own address.
const LOCAL: Entry<'static> = Entry::Choice(
    Word::Local,
    "ADDRESS",
    "Our own address and port; any if left out",
);

/// How long to wait for a file.
const WAIT: Entry<'static> = Entry::ChoiceOr(
    Word::Wait,
    "SECONDS",
    "10",
    "Wait for a file in use: 0 to 3600 s",
);

/// The exit status is all that is wanted.
const QUIET: Entry<'static> = Entry::FlagOr(Word::Quiet, 'q', "Print nothing on standard output");

/// Whether datagrams are told.
const TRACE: Entry<'static> = Entry::Flag(
    Word::Trace,
    "Print each datagram on standard error, in hex digits",
);

/// With the next, a device behind a router.
const DNET: Entry<'static> = Entry::Choice(
    Word::Dnet,
    "N",
    "A network behind a router, with --dadr: 1 to 65534",
);

/// The address there.
const DADR: Entry<'static> = Entry::Choice(
    Word::Dadr,
    "HEX",
    "The device's address there: 2 to 30 hex digits",
);

/// Of a tool that asks a device.
pub(crate) const ASKING: [Entry<'static>; 6] = [
    TIMEOUT,
    LOCAL,
    TRACE,
    Entry::ChoiceOr(Word::Retries, "N", "3", "How many times to retry: 0 to 10"),
    DNET,
    DADR,
];

/// The same without defaults.
pub(crate) const KEEPING: [Entry<'static>; 6] = [
    Entry::Choice(
        Word::Timeout,
        "MS",
        "Wait for a reply: 1 to 60000 ms; 3000 if left out",
    ),
    LOCAL,
    TRACE,
    Entry::Choice(
        Word::Retries,
        "N",
        "How many times to retry: 0 to 10; 3 if left out",
    ),
    DNET,
    DADR,
];

/// Of `bac wi`.
pub(crate) const WI: [Entry<'static>; 7] = [
    Entry::NeededList(
        Word::Address,
        "The devices to ask: A.B.C.D[:PORT], or with /N a network",
    ),
    Entry::Choice(
        Word::Min,
        "N",
        "The lowest instance that is to reply: 0 to 4194303",
    ),
    Entry::Choice(
        Word::Max,
        "N",
        "The highest instance that is to reply: 0 to 4194303",
    ),
    Entry::Choice(
        Word::Dnet,
        "N",
        "A network behind a router: 1 to 65534; 65535 is all",
    ),
    TIMEOUT,
    LOCAL,
    TRACE,
];

/// Of `bac rp`.
pub(crate) const RP: [Entry<'static>; 6] = [
    DEVICE,
    OBJECT_TYPE,
    OBJECT,
    PROPERTY,
    Entry::Choice(
        Word::Index,
        "N",
        "An element of an array; 0 is the number of elements",
    ),
    Entry::Flag(Word::Numbers, "A REAL or a Double as a decimal number"),
];

/// Of `bac wp`.
pub(crate) const WP: [Entry<'static>; 8] = [
    DEVICE,
    OBJECT_TYPE,
    OBJECT,
    PROPERTY,
    Entry::Needed(
        Word::Priority,
        "The priority to write at: 1 to 16, or 0 for none",
    ),
    Entry::Needed(
        Word::Tag,
        "The value's type, as a number: the list is below",
    ),
    Entry::Choice(Word::Index, "N", "An element of an array"),
    Entry::Choice(
        Word::Value,
        "V",
        "The value, as its type wants it; none for TAG 0",
    ),
];

/// Of `bac log`.
pub(crate) const LOG: [Entry<'static>; 7] = [
    DEVICE,
    Entry::Needed(Word::Instance, "The trend log's instance: 0 to 4194303"),
    Entry::Needed(
        Word::From,
        "The number of the first record to fetch, from 1, or oldest",
    ),
    Entry::ChoiceOr(
        Word::Steps,
        "N",
        "1000",
        "Stop after so many replies with records",
    ),
    Entry::ChoiceOr(Word::Records, "N", "100", "Records per request: 1 to 100"),
    Entry::Flag(
        Word::Csv,
        "As CSV, with a first row of names and no last line",
    ),
    Entry::Flag(Word::Json, "As JSON, one object a line and no last line"),
];

/// Of `bac logs`.
pub(crate) const LOGS: [Entry<'static>; 2] = [
    DEVICE,
    Entry::MaybeList(Word::Instance, "The trend logs' instances: 0 to 4194303"),
];

/// Of `bac keep`.
pub(crate) const KEEP: [Entry<'static>; 10] = [
    FILE,
    Entry::Maybe(
        Word::Address,
        "The device: A.B.C.D or A.B.C.D:PORT (port 47808), or -",
    ),
    Entry::MaybeList(
        Word::Instance,
        "Its trend logs' instances: 0 to 4194303; or another ADDRESS",
    ),
    Entry::Choice(
        Word::Steps,
        "N",
        "Stop a log after so many replies with records",
    ),
    Entry::Choice(
        Word::Records,
        "N",
        "Records per request: 1 to 100; 100 if left out",
    ),
    Entry::ChoiceOr(
        Word::Part,
        "MIB",
        "32",
        "A new part at so many MiB: 1 to 4096",
    ),
    Entry::ChoiceOr(
        Word::AtOnce,
        "N",
        "64",
        "Requests in flight at once: 1 to 1024",
    ),
    WAIT,
    Entry::Flag(
        Word::Stop,
        "Stop polling these logs; name them again to resume",
    ),
    QUIET,
];

/// Of `bac kept`.
pub(crate) const KEPT: [Entry<'static>; 11] = [
    FILE,
    Entry::Maybe(
        Word::Address,
        "The device: A.B.C.D or A.B.C.D:PORT (port 47808)",
    ),
    Entry::Maybe(Word::Instance, "The trend log's instance: 0 to 4194303"),
    Entry::Choice(
        Word::Since,
        "STAMP",
        "Only records at or after STAMP, such as 2026-11-30",
    ),
    Entry::Choice(
        Word::Until,
        "STAMP",
        "Only records before STAMP, such as 2026-11-30T08:00",
    ),
    Entry::Flag(Word::Last, "Only the newest record of each log"),
    Entry::Flag(Word::Csv, "As CSV, with a first row of names"),
    Entry::Flag(Word::Json, "As JSON, one object a line"),
    WAIT,
    DNET,
    DADR,
];

/// Of `bac check`.
pub(crate) const CHECK: [Entry<'static>; 3] = [FILE, WAIT, QUIET];

/// Of `bac serve`.
pub(crate) const SERVE: [Entry<'static>; 2] = [
    Entry::Needed(
        Word::Address,
        "Our own address: A.B.C.D or A.B.C.D:PORT (port 47808)",
    ),
    Entry::ChoiceOr(
        Word::Count,
        "N",
        "4294967295",
        "Stop after so many datagrams",
    ),
];
