//! What is printed of an archive.

use crate::archive::{SITE, archive, take};
use bac_form::Form;
use bac_kept::{Choice, Dates, Place, Seen, Words, has_names, print_names, print_part};
use sqlite::{Alter, Connection};
use std::alloc::Global;
use std::test::Fail;

/// The first log.
const ZONE: Choice<'static> = Choice::Log(
    Place {
        address: "192.0.2.1:47808",
        behind: None,
    },
    3,
);

/// What a part keeps of these logs, behind what was seen of it.
fn printed<A: Alter>(
    alloc: Global,
    conn: &mut Connection<A>,
    words: &Words<'_>,
    seen: &mut Seen,
) -> Option<Vec<u8>> {
    if take(conn).is_err() {
        return None;
    }
    let mut output = Vec::new(alloc);
    if print_names(alloc, has_names(words.form), &mut output).is_err() {
        return None;
    }
    match print_part(alloc, conn, words, seen, &mut output) {
        Ok(true) => Some(output),
        _ => None,
    }
}

/// Whether this is what an archive of these rows keeps.
fn prints(alloc: Global, rows: &str, words: &Words<'_>, text: &str) -> bool {
    let Some(mut conn) = archive(alloc, rows) else {
        return false;
    };
    let mut seen = Seen::new(alloc);
    match printed(alloc, &mut conn, words, &mut seen) {
        Some(output) => output.as_slice() == text.as_bytes(),
        None => false,
    }
}

/// All of it, in lines.
const ALL: Words<'static> = Words {
    choice: Choice::All,
    dates: None,
    form: Form::Lines,
};

#[test]
fn prints_each_log_and_why_an_epoch_begins(rt: HostRuntime) -> Result<(), Fail> {
    let text = "192.0.2.1:47808/5/0a 3\n\
        10 2026-11-29T10:00:00.00 real(41a40000) 0000\n\
        gap 11 12\n\
        13 2026-11-29T10:30:00.00 real(41ac0000) 0100\n\
        began anew, or dropped records\n\
        1 2026-11-29T11:00:00.00 real(41b40000) 0000\n\
        192.0.2.1:47808/5/0b 4 stopped\n\
        500 * real(41bc0000) 0000\n\
        gap 501 503 or began anew\n";
    assert!(rt; prints(rt.alloc(), SITE, &ALL, text));
    Ok(())
}

#[test]
fn prints_records_of_dates(rt: HostRuntime) -> Result<(), Fail> {
    // A gap is printed between two records alone.
    let rows = [
        (
            "2026-11-29T10:00",
            "2026-11-29T11:00",
            "10 2026-11-29T10:00:00.00 real(41a40000) 0000\n\
            gap 11 12\n13 2026-11-29T10:30:00.00 real(41ac0000) 0100\n",
        ),
        (
            "2026-11-29T10:30",
            "2026-11-29T11:00",
            "13 2026-11-29T10:30:00.00 real(41ac0000) 0100\n",
        ),
        ("2026-11-30", "2026-12-01", ""),
    ];
    for (since, before, text) in rows {
        let words = Words {
            choice: ZONE,
            dates: Some(Dates { since, before }),
            form: Form::Lines,
        };
        assert!(rt; prints(rt.alloc(), SITE, &words, text));
    }
    Ok(())
}

#[test]
fn writes_flags_as_letters(rt: HostRuntime) -> Result<(), Fail> {
    let words = Words {
        choice: ZONE,
        dates: None,
        form: Form::Csv,
    };
    let text = "address,device,trend_log,name,source,units,epoch,number,stamp,value,datum,flags\n\
        192.0.2.1:47808/5/0a,11,3,zone,\"object(0,1).85\",enum(62),0,10,2026-11-29T10:00:00.00,\
        20.5,real(41a40000),FFFF\n\
        192.0.2.1:47808/5/0a,11,3,zone,\"object(0,1).85\",enum(62),0,11,,,gap 11 12,\n\
        192.0.2.1:47808/5/0a,11,3,zone,\"object(0,1).85\",enum(62),0,13,2026-11-29T10:30:00.00,\
        21.5,real(41ac0000),FTFF\n\
        192.0.2.1:47808/5/0a,11,3,zone,\"object(0,1).85\",enum(62),1,1,2026-11-29T11:00:00.00,\
        22.5,real(41b40000),FFFF\n";
    assert!(rt; prints(rt.alloc(), SITE, &words, text));
    Ok(())
}
