//! What is counted of an archive.

use crate::archive::{SITE, archive};
use bac_check::{Ending, Uncounted, check};
use std::alloc::Global;
use std::test::Fail;

/// What a check of an archive of these rows prints, behind a change of them, and how it ends.
fn checked(alloc: Global, change: &str) -> Option<(Vec<u8>, Ending)> {
    let mut conn = archive(alloc, SITE)?;
    if conn.execute_batch(change).is_err() {
        return None;
    }
    let mut output = Vec::new(alloc);
    match check(alloc, &mut conn, &mut output) {
        Ok(ending) => Some((output, ending)),
        Err(_) => None,
    }
}

#[test]
fn counts_a_sound_archive(rt: HostRuntime) -> Result<(), Fail> {
    let Some((text, ending)) = checked(rt.alloc(), "") else {
        return Err(Fail::from("unchecked"));
    };
    let lines = "192.0.2.1:47808/5/0a 3 epoch 0: 10 to 13, 2 records, 1 gap of 2 numbers\n\
        192.0.2.1:47808/5/0a 3 epoch 1: 1 to 1, 1 record, 0 gaps\n\
        192.0.2.1:47808/5/0b 4 epoch 0: 500 to 503, 1 record, 0 gaps, \
        1 doubtful gap of 3 numbers\n";
    assert!(rt; text.as_slice() == lines.as_bytes());
    assert!(rt; ending.status() == 0);
    Ok(())
}

#[test]
fn tells_what_is_missing(rt: HostRuntime) -> Result<(), Fail> {
    // The row of the gap is gone, and the epoch begins two numbers before its first row.
    let change = "DELETE FROM items WHERE id = (1 << 47) + 11;\
        UPDATE beginnings SET number = 8 WHERE id = 1 << 15;";
    let Some((text, ending)) = checked(rt.alloc(), change) else {
        return Err(Fail::from("unchecked"));
    };
    let lines = "192.0.2.1:47808/5/0a 3 epoch 0: 10 to 13, 2 records, 0 gaps\n\
        missing 8-9\n\
        missing 11-12\n\
        192.0.2.1:47808/5/0a 3 epoch 1: 1 to 1, 1 record, 0 gaps\n\
        192.0.2.1:47808/5/0b 4 epoch 0: 500 to 503, 1 record, 0 gaps, \
        1 doubtful gap of 3 numbers\n";
    assert!(rt; text.as_slice() == lines.as_bytes());
    assert!(rt; ending.status() == 6);
    Ok(())
}

#[test]
fn tells_the_rows_of_an_overlap(rt: HostRuntime) -> Result<(), Fail> {
    let change = "INSERT INTO items (id, stamp) VALUES ((1 << 47) + 12, '*');";
    let Some((text, ending)) = checked(rt.alloc(), change) else {
        return Err(Fail::from("no archive"));
    };
    let Ending::Uncounted(why) = ending else {
        return Err(Fail::from("no rows that aren't counted"));
    };
    let Uncounted::Overlap { epoch, before, row } = why else {
        return Err(Fail::from("no overlap"));
    };
    assert!(rt; text.is_empty());
    assert!(rt; epoch == 32_768);
    assert!(rt; before.number == 11 && before.last == Some(12) && !before.doubtful);
    assert!(rt; row.number == 12 && row.last.is_none());
    Ok(())
}
