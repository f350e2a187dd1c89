//! What a user of the program needs, proved from its public contract alone.

ghost use Rattle.std.specs.Prelude.{◌≡◌, ◌⊎◌, ℕ, map, Some};
ghost use Rattle.std.specs.Io.KnownBytes.{Keeps};
ghost use Rattle.std.specs.String.{string_bytes};
ghost use Rattle.bac_form.specs.declared.form.Form.TheVariants.{Lines};
ghost use Rattle.bac_tools.specs.Run.{AskFor, walk_from};
ghost use Rattle.bac_ports.specs.Sockets.{UsesSocket, own_address, socket_rules};
ghost use Rattle.bac_query.specs.Finding.{console};
ghost use Rattle.bac_tools_tests.specs.Logging.{IsCut, IsExplained, IsLogged, IsLoggedAtRest};
ghost use Rattle.bac_command_line.specs.declared.job.Job.TheVariants.{Log};
ghost use Rattle.bac_command_line.specs.declared.job.LogReading.{LogReading as AnyLogReading};

use crate::streams::Short;
use bac_tools::{Clock, Heeds, run};
use std::alloc::Global;
use std::io::{Read, Write};

/// If the words ask for a log and the status is 0, one socket was opened, what is printed came over
/// it, and nothing more was done with it until it was closed: it is what a log held, if the replies
/// say what one log holds.
pub fn logged<S: Heeds, I: Read, O: Write, E: Write, C: Clock>(
    sockets: &mut S,
    alloc: Global,
    words: &[String],
    input: &mut I,
    output: &mut O,
    errors: &mut E,
    clock: &mut C,
) -> u8
    ensures { (said : AnyLogReading) → said.form ≡ Lines → AskFor (map string_bytes words.now)
        (Log said) → result ≡ 0 → UsesSocket
        (socket_rules S.opens S.closes S.Socket.sends S.Socket.receives S.Socket.receives_within)
        (own_address said.asked.local) said.asked.timeout sockets.old
        (λ port last. IsLogged (socket_rules S.opens S.closes S.Socket.sends S.Socket.receives
        S.Socket.receives_within) said.asked (walk_from said.instance said.from said.count)
        (console port (O.contents output.old)) (console last (O.contents output.new))) sockets.new }
{
    run(sockets, alloc, words, input, output, errors, clock)
}

/// Over a log that doesn't change, with status 0 and steps enough, what is printed are exactly the
/// records from a number on that the log holds, and that there are no more.
pub fn logged_at_rest<S: Heeds, I: Read, O: Write, E: Write, C: Clock>(
    sockets: &mut S,
    alloc: Global,
    words: &[String],
    input: &mut I,
    output: &mut O,
    errors: &mut E,
    clock: &mut C,
) -> u8
    ensures { (said : AnyLogReading) (number : ℕ) → said.form ≡ Lines → said.from ≡ Some number
        → AskFor (map string_bytes words.now) (Log said) → result ≡ 0 → UsesSocket
        (socket_rules S.opens S.closes S.Socket.sends S.Socket.receives S.Socket.receives_within)
        (own_address said.asked.local) said.asked.timeout sockets.old
        (λ port last. IsLoggedAtRest
        (socket_rules S.opens S.closes S.Socket.sends S.Socket.receives S.Socket.receives_within)
        said.asked (walk_from said.instance (Some number) said.count) said.steps
        (console port (O.contents output.old)) (console last (O.contents output.new))) sockets.new }
{
    run(sockets, alloc, words, input, output, errors, clock)
}

/// If the words ask for a log and the status is 4, one socket was opened, a reply to the walk's
/// last question came over it, and what is told is wrong with that reply.
pub fn bad_reply_explained<S: Heeds, I: Read, O: Write, E: Write, C: Clock>(
    sockets: &mut S,
    alloc: Global,
    words: &[String],
    input: &mut I,
    output: &mut O,
    errors: &mut E,
    clock: &mut C,
) -> u8
    ensures { (said : AnyLogReading) → said.form ≡ Lines
        → AskFor (map string_bytes words.now) (Log said)
        → result ≡ 4 → UsesSocket (socket_rules S.opens S.closes S.Socket.sends S.Socket.receives
        S.Socket.receives_within) (own_address said.asked.local) said.asked.timeout sockets.old
        (λ port last. IsExplained (socket_rules S.opens S.closes S.Socket.sends
        S.Socket.receives S.Socket.receives_within) said.asked
        (walk_from said.instance said.from said.count) last (E.contents errors.old)
        (E.contents errors.new)) sockets.new }
{
    run(sockets, alloc, words, input, output, errors, clock)
}

/// Whatever the output refuses, and however the walk ends: what is printed is a front part of what
/// came, in its order. Nothing is written behind what was refused.
pub fn printed_in_order<S: Heeds, I: Read, O: Write, E: Write, C: Clock>(
    sockets: &mut S,
    alloc: Global,
    words: &[String],
    input: &mut I,
    output: &mut O,
    errors: &mut E,
    clock: &mut C,
) -> u8
    ensures { (said : AnyLogReading) → said.form ≡ Lines
        → AskFor (map string_bytes words.now) (Log said)
        → Keeps (O.contents output.old) (O.contents output.new)
        ⊎ UsesSocket (socket_rules S.opens S.closes S.Socket.sends S.Socket.receives
        S.Socket.receives_within) (own_address said.asked.local) said.asked.timeout sockets.old
        (λ port last. IsCut (socket_rules S.opens S.closes S.Socket.sends S.Socket.receives
        S.Socket.receives_within) said.asked (walk_from said.instance said.from said.count) port
        (O.contents output.old) (O.contents output.new)) sockets.new }
{
    run(sockets, alloc, words, input, output, errors, clock)
}

/// The same of a writer that refuses at a given octet: what it was given up to there is a front
/// part of what came, and it is given nothing else.
pub fn printed_until_refused<S: Heeds, I: Read, E: Write, C: Clock>(
    sockets: &mut S,
    alloc: Global,
    words: &[String],
    input: &mut I,
    output: &mut Short,
    errors: &mut E,
    clock: &mut C,
) -> u8
    ensures { (said : AnyLogReading) → said.form ≡ Lines
        → AskFor (map string_bytes words.now) (Log said)
        → (output.new.text.items ≡ output.old.text.items)
        ⊎ UsesSocket (socket_rules S.opens S.closes S.Socket.sends S.Socket.receives
        S.Socket.receives_within) (own_address said.asked.local) said.asked.timeout sockets.old
        (λ port last. IsCut (socket_rules S.opens S.closes S.Socket.sends S.Socket.receives
        S.Socket.receives_within) said.asked (walk_from said.instance said.from said.count) port
        (Some output.old.text.items) (Some output.new.text.items)) sockets.new }
{
    printed_in_order(sockets, alloc, words, input, output, errors, clock)
}
