//! A word that a command takes, with what the help says of it.

ghost use Rattle.std.specs.Prelude.{◌≡◌, map, IfOk, false};
ghost use Rattle.clap.specs.Words.{rule_of};
ghost use Rattle.bac_command_line.specs.Commands.{flag, maybe, option, Extends};
ghost use Rattle.bac_command_line.specs.Entries.{rule_in};

use crate::word::Word;
use clap::{Arg, ArgAction, Command};
use std::alloc::{AllocError, Global};

/// A word of a command, and behind it its value's name, its default and its help, as it has them.
#[derive(Clone, Copy)]
pub(crate) enum Entry<'a> {
    /// A word that has to be there.
    Needed(Word, &'a str),
    /// One such word or more.
    NeededList(Word, &'a str),
    /// A word that may be there.
    Maybe(Word, &'a str),
    /// Any number of such words.
    MaybeList(Word, &'a str),
    /// An option `--NAME`.
    Flag(Word, &'a str),
    /// The same with a letter: `-N`.
    FlagOr(Word, char, &'a str),
    /// An option `--NAME=VALUE`.
    Choice(Word, &'a str, &'a str),
    /// The same with a default.
    ChoiceOr(Word, &'a str, &'a str, &'a str),
}

/// A word that may be there.
fn word_of<'a>(alloc: Global, word: Word, help: &'a str) -> Arg<'a>
    ensures rule { rule_of result ≡ maybe word }
    ensures local { result.global ≡ false }
{
    Arg::new(alloc, word.name()).help(help)
}

/// An option `--NAME=VALUE`.
fn option<'a>(alloc: Global, word: Word, value: &'a str, help: &'a str) -> Arg<'a>
    ensures rule { rule_of result ≡ option word }
    ensures local { result.global ≡ false }
{
    word_of(alloc, word, help)
        .long(word.name())
        .value_name(value)
}

/// An option `--NAME`.
fn flag<'a>(alloc: Global, word: Word, help: &'a str) -> Arg<'a>
    ensures rule { rule_of result ≡ flag word }
    ensures local { result.global ≡ false }
{
    word_of(alloc, word, help)
        .long(word.name())
        .action(ArgAction::SetTrue)
}

/// The word as `clap` takes it.
fn arg_of<'a>(alloc: Global, entry: Entry<'a>) -> Arg<'a>
    ensures rule { rule_of result ≡ rule_in entry.entry }
    ensures local { result.global ≡ false }
{
    match entry {
        Entry::Needed(word, help) => word_of(alloc, word, help).required(true),
        Entry::NeededList(word, help) => word_of(alloc, word, help).required(true).num_args(1..),
        Entry::Maybe(word, help) => word_of(alloc, word, help),
        Entry::MaybeList(word, help) => word_of(alloc, word, help).num_args(0..),
        Entry::Flag(word, help) => flag(alloc, word, help),
        Entry::FlagOr(word, letter, help) => flag(alloc, word, help).short(letter),
        Entry::Choice(word, value, help) => option(alloc, word, value, help),
        Entry::ChoiceOr(word, value, default, help) => {
            option(alloc, word, value, help).default_value(default)
        }
    }
}

/// The command with more words, in this order.
pub(crate) fn with_entries<'a>(
    alloc: Global,
    command: Command<'a>,
    entries: &[Entry<'a>],
) -> Result<Command<'a>, AllocError>
    ensures { IfOk result (Extends command.entry (map rule_in entries.now)) }
{
    let mut command = command;
    for entry in entries {
        command = command.arg(arg_of(alloc, *entry))?;
    }
    Ok(command)
}
