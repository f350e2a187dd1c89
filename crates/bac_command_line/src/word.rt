//! The words and options of the tools, by their names.

ghost use Rattle.std.specs.Prelude.{◌≡◌, Some};
ghost use Rattle.bac_command_line.specs.Names.{is_number as is_number_of};
ghost use Rattle.bac_command_line.specs.Names.{is_option as is_option_of};
ghost use Rattle.bac_command_line.specs.Names.{name_of};
ghost use Rattle.bac_command_line.specs.Rows.{is_long_text};

use crate::numbers::is_long;
use std::fmt;

/// A word or an option of a tool, as the help shows it.
#[derive(Clone, Copy, Debug, PartialEq, Eq)]
pub enum Word {
    /// The tool itself.
    Tool,
    /// A station: A.B.C.D or A.B.C.D:PORT.
    Address,
    /// An object's type.
    ObjectType,
    /// An object's instance.
    Instance,
    /// A property's number.
    Property,
    /// The priority to write at.
    Priority,
    /// The type of the value to write.
    Tag,
    /// The number of the first record to fetch, or `oldest`.
    From,
    /// A database file.
    File,
    /// An array's index.
    Index,
    /// The value to write.
    Value,
    /// The lowest instance that is to answer.
    Min,
    /// The highest instance that is to answer.
    Max,
    /// How many batches to fetch at most.
    Steps,
    /// How many records a question asks for.
    Records,
    /// How large a part of an archive is when the next one is begun.
    Part,
    /// How many requests are in flight at once.
    AtOnce,
    /// How many seconds a file that is in use is waited for.
    Wait,
    /// How many datagrams to serve.
    Count,
    /// Lines of CSV.
    Csv,
    /// Lines of JSON.
    Json,
    /// Nothing on standard output.
    Quiet,
    /// Logs aren't polled any more.
    Stop,
    /// The stamp from which on records are printed.
    Since,
    /// The stamp up to which they are printed.
    Until,
    /// Of each log the newest record alone.
    Last,
    /// REALs and Doubles as decimal numbers.
    Numbers,
    /// Each datagram is told.
    Trace,
    /// Our own address.
    Local,
    /// How long to wait for an answer, in milliseconds.
    Timeout,
    /// How many times to ask again.
    Retries,
    /// The network of a device behind a router, or of those that are to answer.
    Dnet,
    /// The address of a device on a network behind a router.
    Dadr,
}

impl Word {
    /// The name in the help: of a word in capitals, of an option without its `--`.
    pub fn name<'a>(self) -> &'a str
        ensures { result.now ≡ name_of self }
    {
        match self {
            Word::Tool => "COMMAND",
            Word::Address => "ADDRESS",
            Word::ObjectType => "TYPE",
            Word::Instance => "INSTANCE",
            Word::Property => "PROPERTY",
            Word::Priority => "PRIORITY",
            Word::Tag => "TAG",
            Word::From => "FROM",
            Word::File => "FILE",
            Word::Index => "index",
            Word::Value => "value",
            Word::Min => "min",
            Word::Max => "max",
            Word::Steps => "steps",
            Word::Records => "count",
            Word::Part => "part",
            Word::AtOnce => "at-once",
            Word::Wait => "wait",
            Word::Count => "count",
            Word::Csv => "csv",
            Word::Json => "json",
            Word::Quiet => "quiet",
            Word::Stop => "stop",
            Word::Since => "since",
            Word::Until => "until",
            Word::Last => "last",
            Word::Numbers => "numbers",
            Word::Trace => "trace",
            Word::Local => "local",
            Word::Timeout => "timeout",
            Word::Retries => "retries",
            Word::Dnet => "dnet",
            Word::Dadr => "dadr",
        }
    }

    /// It is written `--NAME=VALUE`, or `--NAME` if it has no value.
    pub fn is_option(self) -> bool
        ensures { result ≡ is_option_of self }
    {
        matches!(
            self,
            Word::Index
                | Word::Value
                | Word::Min
                | Word::Max
                | Word::Steps
                | Word::Records
                | Word::Part
                | Word::AtOnce
                | Word::Wait
                | Word::Count
                | Word::Csv
                | Word::Json
                | Word::Quiet
                | Word::Stop
                | Word::Since
                | Word::Until
                | Word::Last
                | Word::Numbers
                | Word::Trace
                | Word::Local
                | Word::Timeout
                | Word::Retries
                | Word::Dnet
                | Word::Dadr
        )
    }

    /// Its value is a number of at most ten digits.
    pub(crate) fn is_number(self) -> bool
        ensures { result ≡ is_number_of self }
    {
        matches!(
            self,
            Word::ObjectType
                | Word::Instance
                | Word::Property
                | Word::Priority
                | Word::Tag
                | Word::From
                | Word::Index
                | Word::Min
                | Word::Max
                | Word::Steps
                | Word::Records
                | Word::Part
                | Word::AtOnce
                | Word::Wait
                | Word::Count
                | Word::Timeout
                | Word::Retries
                | Word::Dnet
        )
    }

    /// Its value is a number, and this text is digits alone, and more than a number has.
    pub fn is_long(self, text: &str) -> bool
        ensures { result ≡ is_long_text self (Some text.now) }
    {
        self.is_number() && is_long(text.as_bytes())
    }
}

/// As the words are written: TYPE, or `--timeout`.
impl fmt::Display for Word {
    fn fmt<W: fmt::Write>(&self, f: &mut fmt::Formatter<W>) -> fmt::Result {
        if self.is_option() {
            f.write_str("--")?;
        }
        f.write_str(self.name())
    }
}
