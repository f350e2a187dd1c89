//! Jobs that words come to: each tool with its defaults. What no tool takes, and the ends of each
//! range, are in examples/check/words.rows; what is sent for words is in asking.talk.

use bac_command_line::read_words;
use std::alloc::{AllocError, Global};
use std::fmt::Debug;
use std::process::Abort;

/// Puts a word behind the others.
fn push(alloc: Global, words: &mut Vec<String>, word: &str) -> Result<(), AllocError> {
    words.push(String::from_str(alloc, word)?)?;
    Ok(())
}

/// The words of a line, as what starts the program passes them.
fn words_of(alloc: Global, line: &str) -> Result<Vec<String>, AllocError> {
    let mut words = Vec::new(alloc);
    for word in line.split(' ') {
        push(alloc, &mut words, word)?;
    }
    Ok(words)
}

/// The text of a job, if there is one.
fn text<J: Debug + Drop, F: Drop>(alloc: Global, read: Result<J, F>) -> Option<String> {
    match read {
        Ok(job) => format!(in alloc; "{job:?}").ok(),
        Err(_) => None,
    }
}

/// The text of the job that the words of a line come to.
fn told(alloc: Global, line: &str) -> Option<String> {
    let words = words_of(alloc, line).ok()?;
    text(alloc, read_words(alloc, words.as_slice()))
}

/// The words of a line come to this.
fn comes_to(rt: &(impl Abort + AllocGlobal), line: &str, wanted: &str) {
    let told = told(rt.alloc(), line).expect(rt, "a job");
    assert_eq!(rt; told.as_str(), wanted);
}

/// Each row has a line, its words with a blank between them, and what they come to.
fn compare(rt: &(impl Abort + AllocGlobal), rows: &[(&str, &str)]) {
    for (line, wanted) in rows {
        comes_to(rt, line, wanted);
    }
}

#[test]
fn asks_devices_by_default(rt: HostRuntime) {
    compare(
        &rt,
        &[
            (
                "bac wi 10.0.0.1",
                "Wi(Discovery { stations: Listed(Addresses { list: [[10, 0, 0, 1, 186, 192]] }), \
                 min: None, max: None, dnet: None, local: None, timeout: 3000, trace: false })",
            ),
            (
                "bac rp 10.0.0.1 8 123 77",
                "Rp(PropertyReading { asked: Asked { address: [10, 0, 0, 1, 186, 192], \
                 local: None, timeout: 3000, retries: 3, route: None }, object_type: 8, \
                 instance: 123, property: 77, index: None, numbers: false, trace: false })",
            ),
            (
                "bac wp 10.0.0.1 5 1 85 8 0",
                "Wp(PropertyWriting { asked: Asked { address: [10, 0, 0, 1, 186, 192], \
                 local: None, timeout: 3000, retries: 3, route: None }, object_type: 5, \
                 instance: 1, property: 85, priority: 8, given: Null, index: None, trace: false })",
            ),
            (
                "bac log 10.0.0.1 1 oldest",
                "Log(LogReading { asked: Asked { address: [10, 0, 0, 1, 186, 192], local: None, \
                 timeout: 3000, retries: 3, route: None }, instance: 1, from: None, steps: 1000, \
                 count: 100, form: Lines, trace: false })",
            ),
        ],
    );
}

#[test]
fn keeps_and_serves_by_default(rt: HostRuntime) {
    compare(
        &rt,
        &[
            ("bac replay", "Replay"),
            (
                "bac keep a.db",
                "Keep(Keep { file: Name { text: \"a.db\" }, groups: Groups { list: [] }, \
                 stop: false, part: 32, at_once: 64, wait: 10, quiet: false, \
                 trace: false, options: KeepOptions { steps: None, count: None, timeout: None, \
                 local: None, retries: None, dnet: None, dadr: None } })",
            ),
            (
                "bac kept a.db",
                "Kept(Kept { file: Name { text: \"a.db\" }, address: None, instance: None, \
                 dnet: None, dadr: None, extent: Dated(Period { since: None, until: None }), \
                 form: Lines, wait: 10 })",
            ),
            (
                "bac check a.db",
                "Check(Check { file: Name { text: \"a.db\" }, wait: 10, quiet: false })",
            ),
            (
                "bac serve 10.0.0.1",
                "Serve(ServedDevice { address: [10, 0, 0, 1, 186, 192], count: 4294967295 })",
            ),
        ],
    );
}
