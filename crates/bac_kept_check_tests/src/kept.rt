//! What `kept` prints.

use crate::archive::{NEXT, SITE, kept, make};
use bac_form::Form;
use bac_kept::{Choice, Dates, Place, Words};
use bac_reading::Asked;
use std::fs::{create_dir_all, remove_dir_all, write};
use std::test::Fail;

/// Each log, in lines.
const ALL: Words<'static> = Words {
    choice: Choice::All,
    dates: None,
    form: Form::Lines,
};

/// The same as CSV.
const CSV: Words<'static> = Words {
    choice: Choice::All,
    dates: None,
    form: Form::Csv,
};

/// The first log.
const ZONE: Choice<'static> = Choice::Log(
    Place {
        address: "192.0.2.1:47808",
        behind: None,
    },
    3,
);

/// What the first part keeps, in lines.
const LINES: &str = "192.0.2.1:47808/5/0a 3\n\
    10 2026-11-29T10:00:00.00 real(41a40000) 0000\n\
    gap 11 12\n\
    13 2026-11-29T10:30:00.00 real(41ac0000) 0100\n\
    began anew\n\
    1 2026-11-29T11:00:00.00 real(41b40000) 0000\n\
    192.0.2.1:47808/5/0a 4 stopped\n\
    500 * real(41bc0000) 0000\n\
    192.0.2.1:47808/5/0b 4\n\
    7 2026-11-28T06:00:00.00 enum(1) -\n";

/// The same as JSON.
const OBJECTS: &str = "\
    {\"address\":\"192.0.2.1:47808/5/0a\",\"device\":11,\"trend_log\":3,\"name\":\"zone\",\
    \"source\":\"object(0,1).85\",\"units\":\"enum(62)\",\"epoch\":0,\"number\":10,\
    \"stamp\":\"2026-11-29T10:00:00.00\",\"value\":20.5,\"datum\":\"real(41a40000)\",\
    \"flags\":\"FFFF\"}\n\
    {\"address\":\"192.0.2.1:47808/5/0a\",\"device\":11,\"trend_log\":3,\"name\":\"zone\",\
    \"source\":\"object(0,1).85\",\"units\":\"enum(62)\",\"epoch\":0,\"first\":11,\"last\":12,\
    \"doubtful\":false}\n\
    {\"address\":\"192.0.2.1:47808/5/0a\",\"device\":11,\"trend_log\":3,\"name\":\"zone\",\
    \"source\":\"object(0,1).85\",\"units\":\"enum(62)\",\"epoch\":0,\"number\":13,\
    \"stamp\":\"2026-11-29T10:30:00.00\",\"value\":21.5,\"datum\":\"real(41ac0000)\",\
    \"flags\":\"FTFF\"}\n\
    {\"address\":\"192.0.2.1:47808/5/0a\",\"device\":11,\"trend_log\":3,\"name\":\"zone\",\
    \"source\":\"object(0,1).85\",\"units\":\"enum(62)\",\"epoch\":1,\"number\":1,\
    \"stamp\":\"2026-11-29T11:00:00.00\",\"value\":22.5,\"datum\":\"real(41b40000)\",\
    \"flags\":\"FFFF\"}\n\
    {\"address\":\"192.0.2.1:47808/5/0a\",\"device\":11,\"trend_log\":4,\"name\":null,\
    \"source\":null,\"units\":null,\"epoch\":0,\"number\":500,\"stamp\":\"*\",\"value\":23.5,\
    \"datum\":\"real(41bc0000)\",\"flags\":\"FFFF\"}\n\
    {\"address\":\"192.0.2.1:47808/5/0b\",\"device\":12,\"trend_log\":4,\"name\":null,\
    \"source\":null,\"units\":null,\"epoch\":0,\"number\":7,\"stamp\":\"2026-11-28T06:00:00.00\",\
    \"value\":1.0,\"datum\":\"enum(1)\",\"flags\":\"-\"}\n";

/// All of an archive.
fn all<'a>(file: &'a str, words: Words<'a>) -> Asked<'a> {
    Asked {
        file,
        words,
        last: false,
    }
}

#[test]
fn prints_a_file(rt: HostRuntime) -> Result<(), Fail> {
    create_dir_all(&rt, "kept_file")?;
    assert!(rt; make(&rt, "kept_file/site.db", SITE).is_ok());
    let lines = kept(&rt, &all("kept_file/site.db", ALL));
    let zone = Words {
        choice: ZONE,
        dates: Some(Dates {
            since: "2026-11-29T10",
            before: "2026-11-29T11",
        }),
        form: Form::Lines,
    };
    let dated = kept(&rt, &all("kept_file/site.db", zone));
    let csv = kept(&rt, &all("kept_file/site.db", CSV));
    remove_dir_all(&rt, "kept_file")?;
    assert!(rt; lines.is(0, LINES, ""));
    let records = "10 2026-11-29T10:00:00.00 real(41a40000) 0000\n\
        gap 11 12\n\
        13 2026-11-29T10:30:00.00 real(41ac0000) 0100\n";
    assert!(rt; dated.is(0, records, ""));
    let rows = "address,device,trend_log,name,source,units,epoch,number,stamp,value,datum,flags\n\
        192.0.2.1:47808/5/0a,11,3,zone,\"object(0,1).85\",enum(62),0,10,2026-11-29T10:00:00.00,\
        20.5,real(41a40000),FFFF\n\
        192.0.2.1:47808/5/0a,11,3,zone,\"object(0,1).85\",enum(62),0,11,,,gap 11 12,\n\
        192.0.2.1:47808/5/0a,11,3,zone,\"object(0,1).85\",enum(62),0,13,2026-11-29T10:30:00.00,\
        21.5,real(41ac0000),FTFF\n\
        192.0.2.1:47808/5/0a,11,3,zone,\"object(0,1).85\",enum(62),1,1,2026-11-29T11:00:00.00,\
        22.5,real(41b40000),FFFF\n\
        192.0.2.1:47808/5/0a,11,4,,,,0,500,*,23.5,real(41bc0000),FFFF\n\
        192.0.2.1:47808/5/0b,12,4,,,,0,7,2026-11-28T06:00:00.00,1.0,enum(1),-\n";
    assert!(rt; csv.is(0, rows, ""));
    Ok(())
}

#[test]
fn prints_json(rt: HostRuntime) -> Result<(), Fail> {
    create_dir_all(&rt, "kept_json")?;
    assert!(rt; make(&rt, "kept_json/site.db", SITE).is_ok());
    let words = Words {
        choice: Choice::All,
        dates: None,
        form: Form::Json,
    };
    let json = kept(&rt, &all("kept_json/site.db", words));
    remove_dir_all(&rt, "kept_json")?;
    assert!(rt; json.is(0, OBJECTS, ""));
    Ok(())
}

#[test]
fn prints_the_parts_of_a_folder(rt: HostRuntime) -> Result<(), Fail> {
    create_dir_all(&rt, "kept_parts")?;
    assert!(rt; make(&rt, "kept_parts/000001.db", SITE).is_ok());
    assert!(rt; make(&rt, "kept_parts/000002.db", NEXT).is_ok());
    let zone = Words {
        choice: ZONE,
        dates: None,
        form: Form::Lines,
    };
    let lines = kept(&rt, &all("kept_parts", zone));
    remove_dir_all(&rt, "kept_parts")?;
    let records = "10 2026-11-29T10:00:00.00 real(41a40000) 0000\n\
        gap 11 12\n\
        13 2026-11-29T10:30:00.00 real(41ac0000) 0100\n\
        began anew\n\
        1 2026-11-29T11:00:00.00 real(41b40000) 0000\n\
        2 2026-11-29T11:30:00.00 real(41bc0000) 0000\n";
    assert!(rt; lines.is(0, records, ""));
    Ok(())
}

#[test]
fn tells_of_parts_that_are_no_use(rt: HostRuntime) -> Result<(), Fail> {
    create_dir_all(&rt, "kept_gone")?;
    assert!(rt; make(&rt, "kept_gone/000001.db", SITE).is_ok());
    assert!(rt; make(&rt, "kept_gone/000003.db", NEXT).is_ok());
    // A run was ended that began the newest part.
    write(&rt, "kept_gone/000004.db", b"")?;
    let lines = kept(&rt, &all("kept_gone", ALL));
    remove_dir_all(&rt, "kept_gone")?;
    let more = "192.0.2.1:47808/5/0a 3\n\
        2 2026-11-29T11:30:00.00 real(41bc0000) 0000\n\
        192.0.2.1:47808/5/0a 4 stopped\n\
        192.0.2.1:47808/5/0b 4\n";
    let mut output = Vec::new(rt.alloc());
    output.extend_from_slice(LINES.as_bytes())?;
    output.extend_from_slice(more.as_bytes())?;
    assert!(rt; matches!(lines.status, Ok(6)));
    assert!(rt; lines.output.as_slice() == output.as_slice());
    let told = "file fault\nkept_gone/000002.db: there is no such file\n";
    assert!(rt; lines.errors.as_slice() == told.as_bytes());
    Ok(())
}

#[test]
fn tells_of_a_file_that_is_no_use(rt: HostRuntime) -> Result<(), Fail> {
    create_dir_all(&rt, "kept_none")?;
    assert!(rt; make(&rt, "kept_none/site.db", SITE).is_ok());
    let absent = kept(&rt, &all("kept_none/other.db", CSV));
    let other = Words {
        choice: Choice::Device(Place {
            address: "192.0.2.9:47808",
            behind: None,
        }),
        dates: None,
        form: Form::Lines,
    };
    let unknown = kept(&rt, &all("kept_none/site.db", other));
    let none = kept(&rt, &all("kept_none", ALL));
    remove_dir_all(&rt, "kept_none")?;
    assert!(rt;
        absent.is(
            6,
            "",
            "file fault\nkept_none/other.db: there is no such file\n"
        )
    );
    assert!(rt;
        unknown.is(
            6,
            "",
            "file fault\nkept_none/site.db: it has no such trend log\n"
        )
    );
    assert!(rt; none.is(6, "", "file fault\nkept_none: there is nothing in it\n"));
    Ok(())
}
