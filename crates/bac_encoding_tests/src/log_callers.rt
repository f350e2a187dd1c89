//! What a caller of `bac_log` can prove from its public contracts alone.
ghost use Rattle.std.specs.Prelude.{◌≡◌, length, IsSomeAnd};
ghost use Rattle.bac_log.specs.Entry.{IsLoggable};
ghost use Rattle.bac_log.specs.Record.{entry_octets};

use bac_log::{Entry, entry_size, read_entry, records_are_read_back, write_entry};
use bac_wire::Datagram;

/// A loggable record fits into an empty datagram and is read back from there, with its size.
pub fn written_and_read(entry: &Entry) -> Option<(Entry, usize)>
    requires { IsLoggable entry.now }
    ensures { IsSomeAnd result (λ x. (x.0 ≡ entry.now) × (x.1 ≡ length (entry_octets entry.now))) }
{
    // For the prover alone: a datagram has room for the record.
    let _size = entry_size(entry);
    let mut out = Datagram::new();
    match write_entry(&mut out, entry) {
        Ok(()) => {}
        Err(_) => unreachable!(),
    }
    // For the prover alone: a law that the contract follows from.
    records_are_read_back();
    read_entry(out.octets())
}
