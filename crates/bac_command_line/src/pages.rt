//! The page of each tool: its name, what the help says of it, and the words that it takes.

use crate::entries::Entry;
use crate::tool_entries::{ASKING, CHECK, KEEP, KEEPING, KEPT, LOG, LOGS, RP, SERVE, WI, WP};

/// A tool, as the help has it.
#[derive(Clone, Copy)]
pub(crate) struct Page<'a> {
    pub name: &'a str,
    pub about: &'a str,
    /// An example, and what stands behind it.
    pub example: &'a str,
    /// The words that it alone takes.
    pub own: &'a [Entry<'a>],
    /// Behind them, those that it shares with other tools.
    pub shared: &'a [Entry<'a>],
}

/// A text, and what the numbers of a refusal mean.
macro_rules! with_refusals {
    ($($text:literal),*) => {
        concat!(
            $($text,)*
            "
  error     1 31 unknown object; 2 32 unknown property;
            2 42 invalid array index; 2 50 property is not an array;
            2 27 read access denied; 2 40 write access denied;
            2 9 invalid data type; 2 37 value out of range;
            2 47 datatype not supported; 5 7 inconsistent parameters;
            5 22 property is not a list; 5 29 service request denied
  reject    0 other; 1 buffer overflow; 2 inconsistent parameters;
            3 invalid parameter data type; 4 invalid tag;
            5 missing required parameter; 6 parameter out of range;
            7 too many arguments; 8 undefined enumeration;
            9 unrecognized service
  abort     0 other; 1 buffer overflow; 2 invalid APDU in this state;
            3 preempted by higher priority task;
            4 segmentation not supported; 5 security error;
            6 insufficient security; 7 window size out of range;
            8 application exceeded reply time; 9 out of resources;
            10 TSM timeout; 11 APDU too long
After abort 1, 4 or 11 the reply is too long for one datagram: read an array in
parts, with --index=0 and on, and a log with --count=20."
        )
    };
}

/// An example, and what the numbers mean that `rp` and `wp` take and print.
macro_rules! with_numbers {
    ($example:literal) => {
        with_refusals!(
            $example,
            "

The numbers in arguments and output, 'error' with its class and its code:

  TYPE      0, 1, 2 Analog Input, Output, Value; 3, 4, 5 Binary Input, Output,
            Value; 8 Device; 13, 14, 19 Multi-state Input, Output, Value;
            20 Trend Log; 45 Integer Value
  PROPERTY  28 Description; 75 Object_Identifier; 76 Object_List;
            77 Object_Name; 79 Object_Type; 81 Out_Of_Service;
            85 Present_Value; 87 Priority_Array; 104 Relinquish_Default;
            111 Status_Flags; 117 Units; 131 Log_Buffer; 133 Enable;
            134 Log_Interval; 141 Record_Count; 145 Total_Record_Count"
        )
    };
}

pub(crate) const REPLAY_PAGE: Page<'static> = Page {
    name: "replay",
    about: "Run the script on standard input against a device in memory",
    example: "Example: bac replay < examples/scripts/walk.script",
    own: &[],
    shared: &[],
};

pub(crate) const WI_PAGE: Page<'static> = Page {
    name: "wi",
    about: "Find devices: send Who-Is to each address and print each I-Am",
    example: "Example: bac wi 192.168.1.20 192.168.1.21:47809 --min=100 --max=199
asks both addresses; only devices 100 to 199 reply. --min alone sets both.
bac wi 192.168.1.0/24 asks each host of that network, /20 to /32; its network
and broadcast addresses only for /31 and /32.
bac wi - < addresses reads addresses from a file: at most 4096, an address or a
network a line.
Devices that reply by broadcast are only heard with --local=0.0.0.0:47808.",
    own: &WI,
    shared: &[],
};

pub(crate) const RP_PAGE: Page<'static> = Page {
    name: "rp",
    about: "Read a property and print its values, one a line",
    example: with_numbers!(
        "Example: bac rp 192.168.1.20 8 123 77
prints the name (property 77) of device 123 (object type 8). Instance 4194303
is whatever device has the address: bac rp 192.168.1.20 8 4194303 76 lists the
objects of one whose instance you don't know. chars(SET,HEX) is a text that
can't be printed: SET 0 is UTF-8 (with quotes or control characters), 1 DBCS,
2 JIS X 0208, 3 UCS-4, 4 UCS-2, 5 ISO 8859-1."
    ),
    own: &RP,
    shared: &ASKING,
};

pub(crate) const WP_PAGE: Page<'static> = Page {
    name: "wp",
    about: "Write a property",
    example: with_numbers!(
        "Example: bac wp 192.168.1.20 5 1 85 8 9 --value=1
writes Enumerated 1 at priority 8 to the present value of binary value 1;
TAG 0 in place of 9 --value=1 relinquishes it. Write --value=-5 with its '='.

TAG is 0 Null, without a value; 1 Boolean, 0 or 1; 2 Unsigned; 3 Signed; 4 REAL,
eight hexadecimal digits; 7 Character String, a text; 9 Enumerated."
    ),
    own: &WP,
    shared: &ASKING,
};

pub(crate) const LOG_PAGE: Page<'static> = Page {
    name: "log",
    about: "Fetch the records of a trend log, each once",
    example: with_refusals!(
        "Example: bac log 192.168.1.20 1 oldest
prints each record that trend log 1 holds, and which number comes next:

  41 2024-05-06T07:08:09.10 enum(0) 0000
  42 2024-05-06T07:09:09.10 enum(1) 0000
  caught up, next 43

bac log 192.168.1.20 1 43 then fetches what was logged since. After 'lost' or
'step limit', too, go on at the next number: no record is lost or comes twice.
A line 'gap 43 50' means that the log no longer held these numbers. After 'bad
reply' standard error says what is wrong with the reply, and after 'caught up'
that the device announced more records but sent none, if it did. --csv and
--json have no last line, so a step limit is status 8.

FLAGS are in-alarm, fault, overridden and out-of-service, each 0 or 1; or - if
the record has none. VALUE is a number, or one of

  enum(N), null    Enumerated N; Null
  real(HEX)        a REAL, as its four octets: 41c80000 is 25
  bits(0110)       a Bit String; bits[N] is one of N bits, more than 32
  any[N]           a value of another type, of which the N octets aren't kept
  status(010)      of the log: log-disabled, buffer-purged, log-interrupted
  failure(C,D)     no value: reading it gave the error of class C and code D
  time-change(HEX) the device's clock was set, by so many seconds (a REAL)

Standard error says what a refusal means. 'error' is printed with its class and
its code:"
    ),
    own: &LOG,
    shared: &ASKING,
};

pub(crate) const LOGS_PAGE: Page<'static> = Page {
    name: "logs",
    about: "List the trend logs of a device, with what they log and hold",
    example: with_refusals!(
        "Example: bac logs 192.168.1.20
reads each trend log in the device's Object_List, one request a property, and
prints a table: a line of names, then a line a log, with tabs between cells.
bac logs 192.168.1.20 1 2 reads trend logs 1 and 2 alone.

  instance  the number that bac log and bac keep take
  name      its Object_Name
  logs      what is logged, as object(0,3).85 for Present_Value of Analog Input
            3; behind that [N] the index of an array, @N the device that has it
  enable    true, or false: nothing is logged
  type      polled, cov (change of value) or triggered
  interval  the seconds between two records of a log that is polled
  records   how many it holds; the next column, buffer, is the most it can hold
  total     how many it ever logged
  stop      true: it stops when it is full; false: the oldest record is dropped

A cell is - if the device refuses, and ? if its reply can't be read. The table
ends at the first request without a reply, unless that was for the whole
Object_List: then its elements are read one by one. If the device refuses its
list, standard error says why. 'error' is printed with its class and its code:"
    ),
    own: &LOGS,
    shared: &ASKING,
};

pub(crate) const KEEP_PAGE: Page<'static> = Page {
    name: "keep",
    about: "Poll trend logs into a database file, each record once",
    example: with_refusals!(
        "Example: bac keep site.db 192.168.1.20 1 2
adds trend logs 1 and 2 of that device to site.db and fetches their records:

  192.168.1.20:47808 1 120 records 0 gaps caught up, next 121
  192.168.1.20:47808 2 88 records 1 gap caught up, next 447

Without INSTANCE it adds every trend log in the device's Object_List. bac keep
site.db polls every log in the file and backfills what was logged since the last
run. Run by a timer, it is the site's historian. sqlite3 can read the file.
More devices may follow, each with its INSTANCEs; one run polls them all:
bac keep site.db 192.168.1.20 1 2 192.168.1.21 192.168.1.22 7
With - instead of ADDRESS, devices are read from standard input, such as the
lines of bac wi:
bac wi 192.168.1.0/24 | bac keep site.db -
With --stop, which takes one ADDRESS, these logs are no longer polled; the file
keeps their records.
A FILE that another program has open is waited for, 10 seconds if --wait is left
out; then the run ends with status 7. With --quiet only faults are printed, on
standard error.

Exit status, the highest of all logs:
  0  every log is caught up
  1  usage, or a bad value
  2  a device didn't reply, or a read, write or socket fault
  3  a device refused, or another one replied
  4  a bad or contradictory reply, or more records announced than sent
  5  out of memory
  6  the file isn't an archive, can't be read or written, or is full
  7  another program has the file open, and --wait is over
  8  a step limit

Standard error says why a log is lost, refused or has a bad reply. 'error' is
printed with its class and its code:"
    ),
    own: &KEEP,
    shared: &KEEPING,
};

pub(crate) const KEPT_PAGE: Page<'static> = Page {
    name: "kept",
    about: "Print the records and gaps in a database file, or a folder",
    example: "Example: bac kept site.db 192.168.1.20 1
prints each record and each gap of trend log 1, in the lines of bac log.
bac kept plant prints those of each part of the folder plant, oldest first.
With --dnet and --dadr it is the device behind the router at ADDRESS.

A STAMP is YYYY-MM-DDTHH:MM:SS.HH by the device's clock, or the front of it, the
year at least. This prints the records of a day, and the gaps between them:
bac kept site.db --since=2026-11-30 --until=2026-12-01
--last, instead of these, prints one line a log: its newest record.

bac kept site.db --csv prints all logs as CSV: address, device, trend_log, name,
source, units, epoch, number, stamp, value, datum, flags. A gap is a row whose
datum is gap FIRST LAST. --json prints an object a line, with these names; a gap
has first, last and doubtful.

Exit status:
  0  done
  1  usage, or a bad value
  2  a write fault
  5  out of memory
  6  a file isn't an archive or can't be read, or a part is missing
  7  another program has a file open, and --wait is over",
    own: &KEPT,
    shared: &[],
};

pub(crate) const CHECK_PAGE: Page<'static> = Page {
    name: "check",
    about: "Check a database file, or a folder, for missing numbers",
    example: "Example: bac check site.db
prints the epochs of each log, with their first and last number, how many
records and gaps they have, and every number that is missing. bac check plant
checks each part of the folder plant, and that it begins where the part before
it ends. With --quiet only the exit status tells.

Exit status:
  0  no number is missing
  1  usage, or a bad value
  2  a write fault
  5  out of memory
  6  a number is missing, a part begins elsewhere, or a file isn't an archive or
     can't be read
  7  another program has a file open, and --wait is over",
    own: &CHECK,
    shared: &[],
};

pub(crate) const SERVE_PAGE: Page<'static> = Page {
    name: "serve",
    about: "Simulate the device that standard input describes, in UTC",
    example: "Example: bac serve 127.0.0.1:47809 < examples/use/plant.conf
where plant.conf has configuration lines of a script: device, binary, log ..",
    own: &SERVE,
    shared: &[],
};
