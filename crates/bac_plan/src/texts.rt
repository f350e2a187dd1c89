//! Texts of rows.

ghost use Rattle.std.specs.Prelude.{◌≡◌, IfOk};
ghost use Rattle.bac_device_poller.specs.Rows.{text_as};

use std::alloc::AllocError;

/// The same text again.
pub(crate) fn copied(text: &Option<String>) -> Result<Option<String>, AllocError>
    ensures { IfOk result (λ copy. text_as copy ≡ text_as text.now) }
{
    match text {
        Some(text) => Ok(Some(text.clone()?)),
        None => Ok(None),
    }
}
