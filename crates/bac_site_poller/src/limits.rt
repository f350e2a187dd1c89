//! How many devices are asked at once.

ghost use Rattle.std.specs.Prelude.{◌≡◌, ◌<◌, max};

/// How many requests may be open, and how long each send is waited for. One may be, at least.
#[derive(Clone, Copy)]
pub struct Limits {
    /// How many that were sent once, less than 250 ms ago. One that was sent again, or is older,
    /// has given its place up.
    pub at_once: usize,
    /// How many at one IP address, those that were sent again too.
    pub at_host: usize,
    /// How many at all.
    pub most: usize,
    pub wait_ms: u32,
    ghost some_at_once: { 0 < at_once },
    ghost some_at_host: { 0 < at_host },
    ghost some: { 0 < most },
}

impl Limits {
    /// So many, where 0 stands for 1.
    pub fn new(at_once: usize, at_host: usize, most: usize, wait_ms: u32) -> Limits
        ensures at_once { result.at_once ≡ max at_once 1 }
        ensures at_host { result.at_host ≡ max at_host 1 }
        ensures most { result.most ≡ max most 1 }
        ensures wait { result.wait_ms ≡ wait_ms }
    {
        Limits {
            at_once: at_once.max(1),
            at_host: at_host.max(1),
            most: most.max(1),
            wait_ms,
        }
    }
}
