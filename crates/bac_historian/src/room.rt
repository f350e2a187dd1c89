//! What a run has at hand.

/// What a run has at hand beside its files, as it is lent to it.
#[derive(Drop)]
pub struct Room<'p, 'c, 'w, 'v, P, C, W, V> {
    /// What devices are asked over.
    pub port: &'p mut P,
    /// The time that passes.
    pub clock: &'c mut C,
    /// Where the lines of logs go.
    pub output: &'w mut W,
    /// Where what went wrong is told.
    pub errors: &'v mut V,
}
