//! Why a run over files halts.

use bac_keeping::KeepFault;
use bac_parts::FileFault;

/// Why a run over the files of an archive halts.
#[derive(Clone, Copy)]
pub enum Fault {
    /// The file is no use, or the part that it follows on.
    File(FileFault),
    /// The run over its database halts.
    Run(KeepFault),
}
