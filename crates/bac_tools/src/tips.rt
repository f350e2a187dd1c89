//! What `clap` advises, where it doesn't hold for our words.

use std::alloc::{AllocError, Global};

/// How a tip of `clap` begins that has a word passed behind `--`, where no tool takes one.
const BEHIND_DASHES: &str = "  tip: to pass '";

/// What can be done in its place.
const IN_ITS_PLACE: &str = "  tip: the tool's --help has its options; a value that begins with '-' \
                            stands behind '=', as --value=-5";

/// Appends a line, or what can be done in place of such a tip.
fn push_line(told: &mut String, line: &str) -> Result<(), AllocError> {
    if line.starts_with(BEHIND_DASHES) {
        told.push_str(IN_ITS_PLACE)?;
    } else {
        told.push_str(line)?;
    }
    told.push('\n')
}

/// The text with what can be done in place of such a tip.
pub(crate) fn with_true_tips(alloc: Global, text: &str) -> Result<String, AllocError> {
    let mut told = String::new(alloc);
    for line in text.lines() {
        push_line(&mut told, line)?;
    }
    Ok(told)
}
