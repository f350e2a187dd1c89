//! How REALs and Doubles are shown.

/// How a REAL or a Double is shown.
#[derive(Clone, Copy)]
pub enum Reals {
    /// By its octets: `real(41c80000)`.
    Octets,
    /// By the shortest decimal number that reads back as it, if it is finite: `25.0`.
    Numbers,
}
