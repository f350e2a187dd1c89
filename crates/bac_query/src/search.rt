//! Which devices are looked for.

use bac_apdu::WhoIs;

/// The devices that are to answer.
#[derive(Clone, Copy)]
pub struct Search {
    /// Those of this network behind a router, 65535 being all networks; without one, those that a
    /// request reaches without a router.
    pub network: Option<u16>,
    /// Those with these instances.
    pub who_is: WhoIs,
}
