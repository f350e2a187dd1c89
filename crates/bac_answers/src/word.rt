//! What a device tells of its restart and of its database, its word.

ghost use Rattle.std.specs.Prelude.{◌≡◌, IfOk, Some};
ghost use Rattle.bac_known.specs.Kept.{told_as};
ghost use Rattle.bac_answers.specs.Values.{told_by};
ghost use Rattle.bac_answers.specs.Word.{is_unspecified, moment_of, restart_of};

use crate::read::told;
use bac_known::{DateTime, Told};
use bac_link::Verdict;
use bac_print::push_hex;
use bac_wire::Datagram;
use std::alloc::{AllocError, Global};

// Whether a part is unspecified.
fn is_unspecified(values: &[u8]) -> bool
    ensures { result ≡ is_unspecified values.now }
{
    values.contains(&255)
}

/// The restart that an answer tells, as it is kept: the octets of its value in hexadecimal digits;
/// none, if it tells none, or one with an unspecified part.
pub fn restart_in(
    alloc: Global,
    verdict: Verdict,
    datagram: &Datagram,
) -> Result<Vec<u8>, AllocError>
    ensures { IfOk result (λ text. text.items ≡ restart_of (told_by verdict datagram.now)) }
{
    let mut text = Vec::new(alloc);
    match told(verdict, datagram) {
        Some(values) => {
            if !is_unspecified(values) {
                push_hex(&mut text, values)?;
            }
        }
        None => {}
    }
    Ok(text)
}

/// The same as a date and time; unknown, if it is none.
pub fn moment_in(verdict: Verdict, datagram: &Datagram) -> DateTime
    ensures { result ≡ moment_of (told_by verdict datagram.now) }
{
    match told(verdict, datagram) {
        Some(values) => {
            if is_unspecified(values) {
                DateTime::unknown()
            } else {
                DateTime::stamped(values)
            }
        }
        None => DateTime::unknown(),
    }
}

// Octets again.
fn copied(alloc: Global, octets: &Vec<u8>) -> Result<Vec<u8>, AllocError>
    ensures { IfOk result (λ copy. copy.items ≡ octets.now.items) }
{
    let mut copy = Vec::new(alloc);
    copy.extend_from_slice(octets.as_slice())?;
    Ok(copy)
}

/// What a device tells, again.
pub fn told_again(alloc: Global, told: &Told) -> Result<Told, AllocError>
    ensures { IfOk result (λ copy. told_as copy ≡ told_as told.now) }
{
    let restart = copied(alloc, &told.restart)?;
    Ok(Told {
        restart,
        moment: told.moment,
        revision: told.revision,
    })
}
