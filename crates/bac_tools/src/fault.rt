//! Why a tool doesn't do what it was asked for.

ghost use Rattle.std.specs.Prelude.{◌≡◌};
ghost use Rattle.bac_tools.specs.Faults.{of_query};
ghost use Rattle.bac_tools.specs.Status.{exit_status, exchange_status, list_status, script_status};
ghost use Rattle.bac_tools.specs.Status.{walk_status};

use bac_command_line::{ListFault, Word};
use bac_link::{ExchangeFault, Refusal};
use bac_ports::OpenFault;
use bac_query::QueryFault;
use bac_script::{Refused, ReplayFault};
use bac_walk::{ReplyFlaw, WalkFault, Why};
use bac_wire::Address;

/// Whom no device answered.
#[derive(Clone, Copy)]
pub struct Unanswered {
    /// How many addresses were asked.
    pub asked: usize,
    /// The own address is the one at which broadcasts are heard.
    pub hears_broadcasts: bool,
}

/// Why a tool ends without what it was asked for.
#[derive(Clone, Copy)]
pub enum Fault {
    /// A word isn't text in UTF-8.
    NotText,
    /// A word or an option has a value that it can't have.
    BadValue(Word),
    /// The same of a number that has over ten digits.
    LongNumber(Word),
    /// The job is one of `keep`, `kept` or `check`, whose files are another crate's.
    OtherTool,
    /// The configuration describes no device.
    NoDevice,
    /// A script or a configuration is wrong, or a stream refused while it was played; and what is
    /// to mend.
    Script(Refused),
    /// A socket couldn't be opened.
    Unopened(OpenFault),
    /// A socket failed.
    Socket,
    /// No request could be sent to this address.
    Refused(Address),
    /// No device announced itself.
    NoAnswer(Unanswered),
    /// The addresses to ask couldn't be read from the input.
    List(ListFault),
    /// The answer from this address didn't come, or isn't the ACK that belongs to the request.
    Exchange {
        address: Address,
        fault: ExchangeFault,
    },
    /// This is wrong with the reply that ended a walk; that it was a bad one is on the output.
    Flawed(ReplyFlaw),
    /// A walk ended since no reply came from this address; that it was lost is on the output.
    Silent(Address),
    /// A walk ended since its device refused so; that it did is on the output.
    Declined(Refusal),
    /// The machine's clock can't be read, or its time isn't one that a record could have.
    Clock,
    /// The output refused a write.
    Write,
    /// Out of memory.
    Memory,
}

fn script_status(fault: ReplayFault) -> u8
    ensures { result ≡ script_status fault }
{
    match fault {
        ReplayFault::BadLine(_) | ReplayFault::Build(_) | ReplayFault::TooLong => 1,
        ReplayFault::Read | ReplayFault::Write => 2,
        ReplayFault::Memory => 5,
    }
}

fn exchange_status(fault: ExchangeFault) -> u8
    ensures { result ≡ exchange_status fault }
{
    match fault {
        ExchangeFault::TooLong => 1,
        ExchangeFault::Lost => 2,
        ExchangeFault::Refused(_) => 3,
        ExchangeFault::BadReply => 4,
    }
}

fn list_status(fault: ListFault) -> u8
    ensures { result ≡ list_status fault }
{
    match fault {
        ListFault::BadLine(_) | ListFault::TooMany(_) | ListFault::Empty | ListFault::TooLong => 1,
        ListFault::Read => 2,
        ListFault::Memory => 5,
    }
}

impl Fault {
    /// The program's exit status.
    pub fn status(&self) -> u8
        ensures { result ≡ exit_status self.now }
    {
        match self {
            Fault::NotText | Fault::BadValue(_) | Fault::LongNumber(_) => 1,
            Fault::OtherTool | Fault::NoDevice => 1,
            Fault::Script(refused) => script_status(refused.fault),
            Fault::Unopened(_) | Fault::Socket | Fault::Refused(_) | Fault::NoAnswer(_) => 2,
            Fault::Silent(_) | Fault::Clock | Fault::Write => 2,
            Fault::List(fault) => list_status(*fault),
            Fault::Exchange { fault, .. } => exchange_status(*fault),
            Fault::Declined(_) => 3,
            Fault::Flawed(_) => 4,
            Fault::Memory => 5,
        }
    }

    /// The fault of a tool whose query of this address wasn't done.
    pub(crate) fn of_query(address: Address, fault: QueryFault) -> Fault
        ensures { result ≡ of_query address fault }
    {
        match fault {
            QueryFault::Exchange(fault) => Fault::Exchange { address, fault },
            QueryFault::Write => Fault::Write,
            QueryFault::Memory => Fault::Memory,
        }
    }
}

/// The exit status of a walk that ended so; its line is on the output, whatever it says.
pub(crate) fn walk_status(why: Why) -> u8
    ensures { result ≡ walk_status why }
{
    match why {
        Why::CaughtUp | Why::StepLimit => 0,
        Why::Fault(WalkFault::Lost) => 2,
        Why::Fault(WalkFault::Refused(_)) => 3,
        Why::Fault(WalkFault::BadReply) => 4,
        Why::Memory => 5,
    }
}
