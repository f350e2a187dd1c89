//! What a run is told, and why it halts.

use bac_archive::Refused;
use bac_drive::Fault;
use bac_plan::{Named, NamingFault, Options, PlanFault};
use sqlite::Error;

/// What a run of keep is told.
#[derive(Drop)]
pub struct Run {
    /// This moment in UTC: that of an archive that it makes.
    pub moment: String,
    /// What words name: it goes on record, and is polled with all that is on record already.
    pub named: Vec<Named>,
    /// How devices are polled.
    pub options: Options,
}

/// Why a run halts.
#[derive(Clone, Copy, Debug, PartialEq, Eq)]
pub enum KeepFault {
    /// The database isn't opened as an archive.
    Refused(Refused),
    /// The archive doesn't tell how it stands.
    Untold(Error),
    /// What words name gets no row.
    Naming(NamingFault),
    /// The rows of what words name aren't put.
    Unput(Error),
    /// No site is made of what the archive tells.
    Plan(PlanFault),
    /// The poll of the site stops.
    Poll(Fault),
}
