//! An archive in memory.

ghost use Rattle.std.specs.Prelude.{OnOk};
ghost use Rattle.sqlite.specs.Held.{state};
ghost use Rattle.sqlite.specs.State.{HasCleanDisk};
ghost use Rattle.bac_archive.specs.Schema.{HasArchive};

use bac_archive::{Refused, open};
use sqlite::{Alter, Connection, MemStore};
use std::alloc::Global;

/// Two devices behind one router, each with a log. That of the first has two records and a gap
/// between them, and a record of another epoch; that of the second, which isn't asked any more, has
/// a record without a date and a gap that may be none.
pub(crate) const SITE: &str = "\
    INSERT INTO devices (id, address, dnet, dadr, instance, whole, stopped) VALUES \
    (1, '192.0.2.1:47808', 5, '0a', 11, 0, 0);\
    INSERT INTO devices (id, address, dnet, dadr, instance, whole, stopped) VALUES \
    (2, '192.0.2.1:47808', 5, '0b', 12, 0, 1);\
    INSERT INTO logs (id, device, instance, name, source, units, stopped) VALUES \
    (1, 1, 3, 'zone', 'object(0,1).85', 'enum(62)', 0);\
    INSERT INTO logs (id, device, instance, stopped) VALUES (2, 2, 4, 0);\
    INSERT INTO beginnings (id, number) VALUES (1 << 15, 10);\
    INSERT INTO beginnings (id, number, why) VALUES \
    ((1 << 15) + 1, 1, 'began anew, or dropped records');\
    INSERT INTO beginnings (id, number, why) VALUES (2 << 15, 500, 'counted');\
    INSERT INTO items (id, stamp, value, datum, flags) VALUES \
    ((1 << 47) + 10, '2026-11-29T10:00:00.00', 20.5, 'real(41a40000)', '0000');\
    INSERT INTO items (id, last) VALUES ((1 << 47) + 11, 12);\
    INSERT INTO items (id, stamp, value, datum, flags) VALUES \
    ((1 << 47) + 13, '2026-11-29T10:30:00.00', 21.5, 'real(41ac0000)', '0100');\
    INSERT INTO items (id, stamp, value, datum, flags) VALUES \
    ((1 << 47) + (1 << 32) + 1, '2026-11-29T11:00:00.00', 22.5, 'real(41b40000)', '0000');\
    INSERT INTO items (id, stamp, value, datum, flags) VALUES \
    ((2 << 47) + 500, '*', 23.5, 'real(41bc0000)', '0000');\
    INSERT INTO items (id, last, datum) VALUES ((2 << 47) + 501, 503, 'or began anew');";

/// Takes it as an archive; one is made of what has nothing.
pub(crate) fn take<A: Alter>(conn: &mut Connection<A>) -> Result<(), Refused>
    ensures archive { HasCleanDisk (state A.Store conn.new)
        → OnOk result (HasArchive (state A.Store conn.new).now.schema) }
{
    open(conn, "2026-11-30T00:00:00Z")
}

/// An archive with these rows.
pub(crate) fn archive(alloc: Global, rows: &str) -> Option<Connection<MemStore>> {
    let mut conn = Connection::open_in_memory(alloc).ok()?;
    if take(&mut conn).is_err() || conn.execute_batch(rows).is_err() {
        return None;
    }
    Some(conn)
}
