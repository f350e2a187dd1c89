//! Since when a device is silent.

use crate::archive::archive;
use bac_form::Form;
use bac_kept::{Choice, Lasts, Words};
use sqlite::types::ToSql;
use sqlite::{Connection, MemStore};
use std::alloc::{AllocError, Global};
use std::test::Fail;

/// Two devices, each with a log that has no record. The second one's isn't asked any more.
const PAIR: &str = "\
    INSERT INTO devices (id, address, dnet, dadr, whole, stopped) VALUES \
    (1, '192.0.2.7:47808', 0, '', 0, 0);\
    INSERT INTO devices (id, address, dnet, dadr, whole, stopped) VALUES \
    (2, '192.0.2.8:47808', 0, '', 0, 0);\
    INSERT INTO logs (id, device, instance, stopped) VALUES (1, 1, 5, 0);\
    INSERT INTO logs (id, device, instance, stopped) VALUES (2, 2, 5, 1);";

/// Puts on record when a device answered last.
fn answers(conn: &mut Connection<MemStore>, device: i64, moment: &str) -> bool {
    let sql = "UPDATE devices SET answered = ?2 WHERE id = ?1";
    conn.execute(sql, &[device.to_sql(), moment.to_sql()])
        .is_ok()
}

/// What is printed of the log of the first device, where both answered at these moments.
fn printed(alloc: Global, answered: &str, other: &str) -> Option<Vec<u8>> {
    let mut conn = archive(alloc, PAIR)?;
    if !answers(&mut conn, 1, answered) || !answers(&mut conn, 2, other) {
        return None;
    }
    let words = Words {
        choice: Choice::All,
        dates: None,
        form: Form::Lines,
    };
    let lasts = Lasts::begin(alloc, &mut conn).ok()?;
    let mut output = Vec::new(alloc);
    match lasts.print(alloc, &words, &mut output) {
        Ok(()) => Some(output),
        Err(_) => None,
    }
}

/// The line of that log.
fn line(alloc: Global, answered: &str, is_silent: bool) -> Result<Vec<u8>, AllocError> {
    let mut text = Vec::new(alloc);
    text.extend_from_slice(b"192.0.2.7:47808 5 no record")?;
    if is_silent {
        text.extend_from_slice(b" silent since ")?;
        text.extend_from_slice(answered.as_bytes())?;
    }
    text.extend_from_slice(b"\n")?;
    Ok(text)
}

/// Whether that line is printed.
fn prints(alloc: Global, answered: &str, other: &str, is_silent: bool) -> bool {
    match (
        printed(alloc, answered, other),
        line(alloc, answered, is_silent),
    ) {
        (Some(output), Ok(text)) => output.as_slice() == text.as_slice(),
        _ => false,
    }
}

#[test]
fn tells_who_answered_before_the_hour_before(rt: HostRuntime) -> Result<(), Fail> {
    let rows = [
        ("2026-11-30T10:00:00.00", "2026-11-30T11:59:59.99", false),
        ("2026-11-30T09:59:59.99", "2026-11-30T11:00:00.00", true),
        ("2026-11-29T11:00:00.00", "2026-11-30T11:00:00.00", true),
        // Behind hour 23 comes hour 0 of the day after.
        ("2026-11-29T23:16:23.00", "2026-11-30T00:16:23.00", false),
        ("2026-11-28T23:16:23.00", "2026-11-30T00:16:23.00", true),
        ("2025-11-29T23:16:23.00", "2026-11-30T00:16:23.00", true),
        ("2026-11-29T22:16:23.00", "2026-11-30T00:16:23.00", true),
        ("2026-11-29T23:16:23.00", "2026-11-30T01:16:23.00", true),
        // Months.
        ("2026-11-30T23:16:23.00", "2026-12-01T00:16:23.00", false),
        ("2026-10-30T23:16:23.00", "2026-11-01T00:16:23.00", true),
        ("2026-10-31T23:16:23.00", "2026-11-01T00:16:23.00", false),
        ("2026-10-31T23:16:23.00", "2026-12-01T00:16:23.00", true),
        // February of a common year, a leap year, and a century that isn't one.
        ("2026-02-28T23:16:23.00", "2026-03-01T00:16:23.00", false),
        ("2028-02-28T23:16:23.00", "2028-03-01T00:16:23.00", true),
        ("2028-02-28T23:16:23.00", "2028-02-29T00:16:23.00", false),
        ("2028-02-29T23:16:23.00", "2028-03-01T00:16:23.00", false),
        ("2100-02-28T23:16:23.00", "2100-03-01T00:16:23.00", false),
        // Years.
        ("2026-12-31T23:16:23.00", "2027-01-01T00:16:23.00", false),
        ("2025-12-31T23:16:23.00", "2027-01-01T00:16:23.00", true),
        ("2026-12-30T23:16:23.00", "2027-01-01T00:16:23.00", true),
        // What isn't digits is no hour.
        ("2026-11-*T23:16:23.00", "2026-12-01T00:16:23.00", true),
        ("2026-11-30T*:16:23.00", "2026-11-30T00:16:23.00", true),
        ("*", "2026-11-30T00:16:23.00", true),
        ("2026-11-30T23:16:23.00", "tomorrow", true),
    ];
    for (answered, other, is_silent) in rows {
        assert!(rt; prints(rt.alloc(), answered, other, is_silent));
    }
    Ok(())
}
