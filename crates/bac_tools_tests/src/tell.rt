//! What is told of a script's fault that nobody can say more of: no row can bring it about, since
//! memory has to be refused for what is said. All other texts are in examples/check.

use bac_device::BuildFault;
use bac_script::{Refused, ReplayFault};
use bac_tools::{Fault, tell};
use std::alloc::Global;

/// What is told of it.
const LINE: &[u8] = b"cannot build: duplicate object\n";

/// The exit status of a fault, and whether that line is told of it.
fn told(alloc: Global, fault: Fault) -> (u8, bool) {
    let mut errors = Vec::new(alloc);
    let status = tell(alloc, fault, &mut errors);
    (status, errors.as_slice() == LINE)
}

#[test]
fn what_cannot_be_mended_is_one_line(rt: HostRuntime) {
    let unexplained = Fault::Script(Refused {
        fault: ReplayFault::Build(BuildFault::DuplicateId),
        reason: None,
    });
    assert_eq!(rt; told(rt.alloc(), unexplained), (1, true));
}
