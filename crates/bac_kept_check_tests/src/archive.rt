//! Archives in files.

use bac_files::{DiskFiles, FolderFiles};
use bac_parts::{FileFault, close_file, open_archive, open_file};
use bac_reading::{Asked, Fault, run_check, run_kept};
use sqlite::{Alter, Connection, Unknown};

/// Two devices behind one router, the second of which fell silent, and three logs. The first log
/// has two records, a gap between them, and a record of another epoch; the second, which isn't
/// asked any more, an undated record; the third, of the silent device, a record.
pub(crate) const SITE: &str = "\
    INSERT INTO devices (id, address, dnet, dadr, instance, whole, stopped, answered) VALUES \
    (1, '192.0.2.1:47808', 5, '0a', 11, 0, 0, '2026-11-30T07:16:23.00');\
    INSERT INTO devices (id, address, dnet, dadr, instance, whole, stopped, answered) VALUES \
    (2, '192.0.2.1:47808', 5, '0b', 12, 0, 0, '2026-11-28T07:16:23.00');\
    INSERT INTO logs (id, device, instance, name, source, units, stopped) VALUES \
    (1, 1, 3, 'zone', 'object(0,1).85', 'enum(62)', 0);\
    INSERT INTO logs (id, device, instance, stopped) VALUES (2, 1, 4, 1);\
    INSERT INTO logs (id, device, instance, stopped) VALUES (3, 2, 4, 0);\
    INSERT INTO beginnings (id, number) VALUES (1 << 15, 10);\
    INSERT INTO beginnings (id, number, why) VALUES ((1 << 15) + 1, 1, 'began anew');\
    INSERT INTO beginnings (id, number) VALUES (2 << 15, 500);\
    INSERT INTO beginnings (id, number) VALUES (3 << 15, 7);\
    INSERT INTO items (id, stamp, value, datum, flags) VALUES \
    ((1 << 47) + 10, '2026-11-29T10:00:00.00', 20.5, 'real(41a40000)', '0000');\
    INSERT INTO items (id, last) VALUES ((1 << 47) + 11, 12);\
    INSERT INTO items (id, stamp, value, datum, flags) VALUES \
    ((1 << 47) + 13, '2026-11-29T10:30:00.00', 21.5, 'real(41ac0000)', '0100');\
    INSERT INTO items (id, stamp, value, datum, flags) VALUES \
    ((1 << 47) + (1 << 32) + 1, '2026-11-29T11:00:00.00', 22.5, 'real(41b40000)', '0000');\
    INSERT INTO items (id, stamp, value, datum, flags) VALUES \
    ((2 << 47) + 500, '*', 23.5, 'real(41bc0000)', '0000');\
    INSERT INTO items (id, stamp, value, datum, flags) VALUES \
    ((3 << 47) + 7, '2026-11-28T06:00:00.00', 1.0, 'enum(1)', '-');";

/// The part that follows on it, as `keep` begins one: its devices, its logs, the last beginning of
/// each and what they have newest, but of the third log nothing; and a record more of the first.
pub(crate) const NEXT: &str = "\
    INSERT INTO devices (id, address, dnet, dadr, instance, whole, stopped, answered) VALUES \
    (1, '192.0.2.1:47808', 5, '0a', 11, 0, 0, '2026-11-30T09:16:23.00');\
    INSERT INTO devices (id, address, dnet, dadr, instance, whole, stopped, answered) VALUES \
    (2, '192.0.2.1:47808', 5, '0b', 12, 0, 0, '2026-11-28T07:16:23.00');\
    INSERT INTO logs (id, device, instance, name, source, units, stopped) VALUES \
    (1, 1, 3, 'zone', 'object(0,1).85', 'enum(62)', 0);\
    INSERT INTO logs (id, device, instance, stopped) VALUES (2, 1, 4, 1);\
    INSERT INTO logs (id, device, instance, stopped) VALUES (3, 2, 4, 0);\
    INSERT INTO beginnings (id, number, why) VALUES ((1 << 15) + 1, 1, 'began anew');\
    INSERT INTO beginnings (id, number) VALUES (2 << 15, 500);\
    INSERT INTO beginnings (id, number) VALUES (3 << 15, 7);\
    INSERT INTO items (id, stamp, value, datum, flags) VALUES \
    ((1 << 47) + (1 << 32) + 1, '2026-11-29T11:00:00.00', 22.5, 'real(41b40000)', '0000');\
    INSERT INTO items (id, stamp, value, datum, flags) VALUES \
    ((1 << 47) + (1 << 32) + 2, '2026-11-29T11:30:00.00', 23.5, 'real(41bc0000)', '0000');\
    INSERT INTO items (id, stamp, value, datum, flags) VALUES \
    ((2 << 47) + 500, '*', 23.5, 'real(41bc0000)', '0000');";

/// Puts rows into an archive, which is made of an empty database.
fn fill<A: Alter>(conn: &mut Connection<A>, rows: &str) -> Result<(), FileFault> {
    open_archive(conn, "2026-11-30T00:00:00Z")?;
    match conn.execute_batch(rows) {
        Ok(()) => Ok(()),
        Err(error) => Err(FileFault::Database(error)),
    }
}

/// Makes an archive with these rows in the file of this name.
pub(crate) fn make(rt: &HostRuntime, path: &str, rows: &str) -> Result<(), FileFault> {
    let mut files = DiskFiles::new(rt, Unknown);
    match open_file(&mut files, path, true) {
        Ok(conn) => {
            let mut conn = conn;
            let filled = fill(&mut conn, rows);
            close_file(&mut files, conn, filled)
        }
        Err(why) => Err(why),
    }
}

/// What a tool printed and told, and its exit status.
#[derive(Drop)]
pub(crate) struct Outcome {
    pub(crate) output: Vec<u8>,
    pub(crate) errors: Vec<u8>,
    pub(crate) status: Result<u8, Fault>,
}

impl Outcome {
    /// Whether it is this.
    pub(crate) fn is(&self, status: u8, output: &str, errors: &str) -> bool {
        let Ok(ended) = self.status else {
            return false;
        };
        ended == status
            && self.output.as_slice() == output.as_bytes()
            && self.errors.as_slice() == errors.as_bytes()
    }
}

/// What `kept` does by these words.
pub(crate) fn kept(rt: &HostRuntime, asked: &Asked<'_>) -> Outcome {
    let mut parts = FolderFiles::new(rt);
    let mut output = Vec::new(rt.alloc());
    let mut errors = Vec::new(rt.alloc());
    let status = run_kept(&mut parts, rt.alloc(), asked, &mut output, &mut errors);
    Outcome {
        output,
        errors,
        status,
    }
}

/// What `check` does of the archive of this name.
pub(crate) fn checked(rt: &HostRuntime, name: &str) -> Outcome {
    let mut parts = FolderFiles::new(rt);
    let mut output = Vec::new(rt.alloc());
    let mut errors = Vec::new(rt.alloc());
    let status = run_check(&mut parts, rt.alloc(), name, &mut output, &mut errors);
    Outcome {
        output,
        errors,
        status,
    }
}
