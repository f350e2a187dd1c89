//! Why a tool ends without what it asked for.

ghost use Rattle.std.specs.Prelude.{◌≡◌};

use bac_link::ExchangeFault;
use std::alloc::AllocError;

/// Why a query wasn't done.
#[derive(Clone, Copy)]
pub enum QueryFault {
    /// No ACK came that can be read.
    Exchange(ExchangeFault),
    /// The output refused a write.
    Write,
    /// There was no memory for a text.
    Memory,
}

impl From<AllocError> for QueryFault {
    ghost use Rattle.bac_query.specs.declared.fault.QueryFault.TheVariants.{Memory};

    ghost from_gives = { λ _ fault. fault ≡ Memory };

    fn from(_error: AllocError) -> QueryFault {
        QueryFault::Memory
    }
}
