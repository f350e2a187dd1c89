//! What the tool has of the machine that it runs on.

/// What the tool has of the machine that it runs on beside its files, as it is lent to it.
#[derive(Drop)]
pub struct Machine<'s, 'c, 'w, 'v, S, C, W, V> {
    /// Where ports come from.
    pub sockets: &'s mut S,
    /// The time that passes.
    pub clock: &'c mut C,
    /// Where the lines of trend logs go.
    pub output: &'w mut W,
    /// Where what went wrong is told.
    pub errors: &'v mut V,
}
