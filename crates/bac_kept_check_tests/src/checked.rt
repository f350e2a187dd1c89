//! What `check` prints.

use crate::archive::{NEXT, SITE, checked, make};
use std::fs::{create_dir_all, remove_dir_all, write};
use std::test::Fail;

#[test]
fn counts_a_file(rt: HostRuntime) -> Result<(), Fail> {
    create_dir_all(&rt, "check_file")?;
    assert!(rt; make(&rt, "check_file/site.db", SITE).is_ok());
    let whole = checked(&rt, "check_file/site.db");
    remove_dir_all(&rt, "check_file")?;
    let lines = "192.0.2.1:47808/5/0a 3 epoch 0: 10 to 13, 2 records, 1 gap of 2 numbers\n\
        192.0.2.1:47808/5/0a 3 epoch 1: 1 to 1, 1 record, 0 gaps\n\
        192.0.2.1:47808/5/0a 4 epoch 0: 500 to 500, 1 record, 0 gaps\n\
        192.0.2.1:47808/5/0b 4 epoch 0: 7 to 7, 1 record, 0 gaps\n";
    assert!(rt; whole.is(0, lines, ""));
    Ok(())
}

#[test]
fn counts_the_parts_of_a_folder(rt: HostRuntime) -> Result<(), Fail> {
    create_dir_all(&rt, "check_parts")?;
    assert!(rt; make(&rt, "check_parts/000001.db", SITE).is_ok());
    assert!(rt; make(&rt, "check_parts/000002.db", NEXT).is_ok());
    // A run was ended that began the newest part.
    write(&rt, "check_parts/000003.db", b"")?;
    let apart = checked(&rt, "check_parts");
    remove_dir_all(&rt, "check_parts")?;
    let lines = "192.0.2.1:47808/5/0a 3 epoch 0: 10 to 13, 2 records, 1 gap of 2 numbers\n\
        192.0.2.1:47808/5/0a 3 epoch 1: 1 to 2, 2 records, 0 gaps\n\
        192.0.2.1:47808/5/0a 4 epoch 0: 500 to 500, 1 record, 0 gaps\n\
        192.0.2.1:47808/5/0b 4 epoch 0: 7 to 7, 1 record, 0 gaps\n";
    // The newest part has nothing of the last log, so it doesn't go on with it.
    let told =
        "file fault\ncheck_parts/000002.db: it doesn't begin where the part before it ends\n";
    assert!(rt; apart.is(6, lines, told));
    Ok(())
}

#[test]
fn tells_what_is_missing(rt: HostRuntime) -> Result<(), Fail> {
    create_dir_all(&rt, "check_holes")?;
    // The gap of the first log was taken out, and where its epoch begins was lowered.
    let mut rows = String::from_str(rt.alloc(), SITE)?;
    rows.push_str("DELETE FROM items WHERE id = (1 << 47) + 11;")?;
    rows.push_str("UPDATE beginnings SET number = 8 WHERE id = 1 << 15;")?;
    assert!(rt; make(&rt, "check_holes/site.db", rows.as_str()).is_ok());
    let holes = checked(&rt, "check_holes/site.db");
    remove_dir_all(&rt, "check_holes")?;
    let lines = "192.0.2.1:47808/5/0a 3 epoch 0: 10 to 13, 2 records, 0 gaps\n\
        missing 8-9\n\
        missing 11-12\n\
        192.0.2.1:47808/5/0a 3 epoch 1: 1 to 1, 1 record, 0 gaps\n\
        192.0.2.1:47808/5/0a 4 epoch 0: 500 to 500, 1 record, 0 gaps\n\
        192.0.2.1:47808/5/0b 4 epoch 0: 7 to 7, 1 record, 0 gaps\n";
    let told = "file fault\ncheck_holes/site.db: numbers are missing in it\n";
    assert!(rt; holes.is(6, lines, told));
    Ok(())
}

#[test]
fn tells_of_files_that_are_no_archives(rt: HostRuntime) -> Result<(), Fail> {
    create_dir_all(&rt, "check_none")?;
    write(&rt, "check_none/000001.db", b"")?;
    assert!(rt; make(&rt, "check_none/000002.db", NEXT).is_ok());
    let absent = checked(&rt, "check_none/other.db");
    let parts = checked(&rt, "check_none");
    remove_dir_all(&rt, "check_none")?;
    assert!(rt;
        absent.is(
            6,
            "",
            "file fault\ncheck_none/other.db: there is no such file\n"
        )
    );
    let lines = "192.0.2.1:47808/5/0a 3 epoch 1: 1 to 2, 2 records, 0 gaps\n\
        192.0.2.1:47808/5/0a 4 epoch 0: 500 to 500, 1 record, 0 gaps\n\
        192.0.2.1:47808/5/0b 4 epoch 0: nothing\n";
    let told = "file fault\ncheck_none/000001.db: there is nothing in it\n";
    assert!(rt; parts.is(6, lines, told));
    Ok(())
}
