//! The newest record of each log.

use crate::archive::{NEXT, SITE, kept, make};
use bac_form::Form;
use bac_kept::{Choice, Words};
use bac_reading::Asked;
use std::fs::{create_dir_all, remove_dir_all, write};
use std::test::Fail;

/// The newest record of each log.
fn last<'a>(file: &'a str, form: Form) -> Asked<'a> {
    Asked {
        file,
        words: Words {
            choice: Choice::All,
            dates: None,
            form,
        },
        last: true,
    }
}

#[test]
fn prints_the_newest_records_of_a_file(rt: HostRuntime) -> Result<(), Fail> {
    create_dir_all(&rt, "last_file")?;
    assert!(rt; make(&rt, "last_file/site.db", SITE).is_ok());
    let lines = kept(&rt, &last("last_file/site.db", Form::Lines));
    let csv = kept(&rt, &last("last_file/site.db", Form::Csv));
    let json = kept(&rt, &last("last_file/site.db", Form::Json));
    remove_dir_all(&rt, "last_file")?;
    let text = "192.0.2.1:47808/5/0a 3 1 2026-11-29T11:00:00.00 real(41b40000)\n\
        192.0.2.1:47808/5/0b 4 7 2026-11-28T06:00:00.00 enum(1) silent since \
        2026-11-28T07:16:23.00\n";
    assert!(rt; lines.is(0, text, ""));
    let rows = "address,device,trend_log,name,source,units,epoch,number,stamp,value,datum,flags,\
        silent_since\n\
        192.0.2.1:47808/5/0a,11,3,zone,\"object(0,1).85\",enum(62),1,1,2026-11-29T11:00:00.00,\
        22.5,real(41b40000),FFFF,\n\
        192.0.2.1:47808/5/0b,12,4,,,,0,7,2026-11-28T06:00:00.00,1.0,enum(1),-,\
        2026-11-28T07:16:23.00\n";
    assert!(rt; csv.is(0, rows, ""));
    let objects = "{\"address\":\"192.0.2.1:47808/5/0a\",\"device\":11,\"trend_log\":3,\
        \"name\":\"zone\",\"source\":\"object(0,1).85\",\"units\":\"enum(62)\",\"epoch\":1,\
        \"number\":1,\"stamp\":\"2026-11-29T11:00:00.00\",\"value\":22.5,\
        \"datum\":\"real(41b40000)\",\"flags\":\"FFFF\",\"silent_since\":null}\n\
        {\"address\":\"192.0.2.1:47808/5/0b\",\"device\":12,\"trend_log\":4,\"name\":null,\
        \"source\":null,\"units\":null,\"epoch\":0,\"number\":7,\
        \"stamp\":\"2026-11-28T06:00:00.00\",\"value\":1.0,\"datum\":\"enum(1)\",\"flags\":\"-\",\
        \"silent_since\":\"2026-11-28T07:16:23.00\"}\n";
    assert!(rt; json.is(0, objects, ""));
    Ok(())
}

#[test]
fn looks_into_earlier_parts_for_a_record(rt: HostRuntime) -> Result<(), Fail> {
    create_dir_all(&rt, "last_parts")?;
    assert!(rt; make(&rt, "last_parts/000001.db", SITE).is_ok());
    assert!(rt; make(&rt, "last_parts/000002.db", NEXT).is_ok());
    let lines = kept(&rt, &last("last_parts", Form::Lines));
    remove_dir_all(&rt, "last_parts")?;
    let text = "192.0.2.1:47808/5/0a 3 2 2026-11-29T11:30:00.00 real(41bc0000)\n\
        192.0.2.1:47808/5/0b 4 7 2026-11-28T06:00:00.00 enum(1) silent since \
        2026-11-28T07:16:23.00\n";
    assert!(rt; lines.is(0, text, ""));
    Ok(())
}

/// A log with a row of its device, but without a record: its count told where it begins.
const NONE: &str = "\
    INSERT INTO devices (id, address, dnet, dadr, whole, stopped) VALUES \
    (1, '192.0.2.7:47808', 0, '', 0, 0);\
    INSERT INTO devices (id, address, dnet, dadr, whole, stopped, answered) VALUES \
    (2, '192.0.2.8:47808', 0, '', 0, 0, '2026-11-30T00:00:01.00');\
    INSERT INTO logs (id, device, instance, stopped) VALUES (1, 1, 5, 0);\
    INSERT INTO logs (id, device, instance, stopped) VALUES (2, 2, 5, 0);\
    INSERT INTO beginnings (id, number, why) VALUES (2 << 15, 10, 'counted');";

#[test]
fn needs_no_part_for_a_log_without_records(rt: HostRuntime) -> Result<(), Fail> {
    create_dir_all(&rt, "last_none")?;
    // The first part isn't opened, so it isn't told that it is no archive.
    write(&rt, "last_none/000001.db", b"no archive")?;
    assert!(rt; make(&rt, "last_none/000002.db", NONE).is_ok());
    let lines = kept(&rt, &last("last_none", Form::Lines));
    let json = kept(&rt, &last("last_none", Form::Json));
    remove_dir_all(&rt, "last_none")?;
    let text = "192.0.2.7:47808 5 no record never answered\n192.0.2.8:47808 5 no record\n";
    assert!(rt; lines.is(0, text, ""));
    let objects = "{\"address\":\"192.0.2.7:47808\",\"device\":null,\"trend_log\":5,\"name\":null,\
        \"source\":null,\"units\":null,\"epoch\":null,\"number\":null,\"stamp\":null,\
        \"value\":null,\"datum\":null,\"flags\":null,\"silent_since\":\"never answered\"}\n\
        {\"address\":\"192.0.2.8:47808\",\"device\":null,\"trend_log\":5,\"name\":null,\
        \"source\":null,\"units\":null,\"epoch\":null,\"number\":null,\"stamp\":null,\
        \"value\":null,\"datum\":null,\"flags\":null,\"silent_since\":null}\n";
    assert!(rt; json.is(0, objects, ""));
    Ok(())
}
