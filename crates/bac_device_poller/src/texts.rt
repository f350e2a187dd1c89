//! Texts as columns.

ghost use Rattle.std.specs.Prelude.{◌≡◌, IfOk};
ghost use Rattle.bac_device_poller.specs.Rows.{restart_value, text_as, text_value};

use std::alloc::{AllocError, Global};

/// The text of these octets; none, if they aren't UTF-8.
pub(crate) fn text_in(alloc: Global, octets: &[u8]) -> Result<Option<String>, AllocError>
    ensures { IfOk result (λ text. text_as text ≡ text_value octets.now) }
{
    match std::str::from_utf8(octets) {
        Ok(text) => Ok(Some(String::from_str(alloc, text)?)),
        Err(_) => Ok(None),
    }
}

/// The text of a restart, as it is kept; none, if none is told.
pub(crate) fn restart_in(alloc: Global, restart: &[u8]) -> Result<Option<String>, AllocError>
    ensures { IfOk result (λ text. text_as text ≡ restart_value restart.now) }
{
    match restart {
        [] => Ok(None),
        [_, ..] => text_in(alloc, restart),
    }
}

/// The same text again.
pub(crate) fn copied(text: &Option<String>) -> Result<Option<String>, AllocError>
    ensures { IfOk result (λ copy. text_as copy ≡ text_as text.now) }
{
    match text {
        Some(text) => Ok(Some(text.clone()?)),
        None => Ok(None),
    }
}
