//! Ids of rows.

ghost use Rattle.std.specs.Prelude.{◌≡◌};
ghost use Rattle.bac_device_poller.specs.Ids.{free_id, ids_behind};

/// The ids of logs that are free in an archive: this one and those above it, up to 65535.
#[derive(Clone, Copy, Debug, PartialEq, Eq)]
pub struct Ids {
    pub next: u32,
}

impl Ids {
    /// The next of them, if one is left.
    pub fn take(&mut self) -> Option<u16>
        ensures value { result ≡ free_id self.old }
        ensures ids { self.new ≡ ids_behind self.old }
    {
        if self.next > 65535 {
            return None;
        }
        let id = self.next as u16;
        self.next += 1;
        Some(id)
    }
}
