//! What is asked of a device.

use bac_link::Request;

/// What is asked of a device next.
#[derive(Clone, Copy, Debug)]
pub enum Question<'a> {
    /// A confirmed request.
    Confirmed(Request<'a>),
    /// A Who-Is to it alone (clause 16.10).
    WhoIs,
    /// Nothing.
    Nothing,
}
