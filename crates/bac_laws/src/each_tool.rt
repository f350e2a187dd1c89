//! What each tool does over its sockets and prints, whatever comes.

ghost use Rattle.std.specs.Prelude.{◌≡◌, ◌≢◌, ℕ, List, [], Some, false, map};
ghost use Rattle.std.specs.String.{string_bytes};
ghost use Rattle.bac_files.specs.Parts.{part_rules};
ghost use Rattle.bac_socket_notes.specs.Ports.{Event};
ghost use Rattle.bac_ports.specs.Sockets.{socket_rules};
ghost use Rattle.bac_print.specs.Output.{Held};
ghost use Rattle.bac_run.specs.Reading.{is_newest};
ghost use Rattle.bac_run.specs.Setup.{IsPrinted};
ghost use Rattle.bac_tools.specs.Run.{AskFor};
ghost use Rattle.bac_command_line.specs.declared.job.Check.{Check as CheckWords};
ghost use Rattle.bac_command_line.specs.declared.job.Discovery.{Discovery as FindWords};
ghost use Rattle.bac_command_line.specs.declared.job.Job.TheVariants as job;
ghost use Rattle.bac_command_line.specs.declared.job.Kept.{Kept as KeptWords};
ghost use Rattle.bac_command_line.specs.declared.job.LogListing.{LogListing as ListWords};
ghost use Rattle.bac_command_line.specs.declared.job.LogReading.{LogReading as LogWords};
ghost use Rattle.bac_command_line.specs.declared.job.PropertyReading.{PropertyReading as ReadWords};
ghost use Rattle.bac_command_line.specs.declared.job.PropertyWriting.{PropertyWriting as WriteJob};
ghost use Rattle.bac_command_line.specs.declared.job.ServedDevice.{ServedDevice as ServeWords};
ghost use Rattle.bac_laws.specs.Asked.{PrintsWhatCame, ReadsOnce, WritesOnce};
ghost use Rattle.bac_laws.specs.Checked.{FindsEach, FindsWhole};
ghost use Rattle.bac_laws.specs.Events.{CanBeCaptured, IsCaptured};
ghost use Rattle.bac_laws.specs.Found.{FindsWhatCame};
ghost use Rattle.bac_laws.specs.Listed.{ListsWhatCame};
ghost use Rattle.bac_laws.specs.Played.{PlaysScript};
ghost use Rattle.bac_laws.specs.Printed.{AsksFew};
ghost use Rattle.bac_laws.specs.Parts.{LeavesArchive};
ghost use Rattle.bac_laws.specs.Rows.{PrintsEach};
ghost use Rattle.bac_laws.specs.Served.{AnswersOnly, ServesDevice};

use bac_check::whole_has_each;
use bac_drive::Clock as WaitClock;
use bac_run::{Console, Machine, Parts, run};
use bac_tools::Clock;
use bac_trace::Tracing;
use sqlite::Start;
use std::alloc::Global;
use std::io::{Read, Write};

/// There are sockets that have a capture, so what is said of each capture is said of something.
pub fn sockets_can_be_captured()
    ensures { CanBeCaptured }
{}

/// `wp` makes one WriteProperty, with the object, property, index, value and priority of its words,
/// of the device that they name, the same octets each time, and sends nothing else. It prints
/// `written` and ends with 0 only where a SimpleACK of it came from that device.
pub fn wp_writes_once<
    S: Tracing,
    F: Start,
    G: Start,
    Q: Parts,
    I: Read,
    O: Write,
    E: Write,
    C: Clock,
    W: WaitClock + Copy,
>(
    machine: &mut Machine<'_, S, F, G, Q, C>,
    console: &mut Console<I, O, E>,
    alloc: Global,
    waits: W,
    words: &[String],
) -> u8
where
    W: Drop,
    ensures { (said : WriteJob) → AskFor (map string_bytes words.now) (job.Wp said)
        → (es : List Event) × IsCaptured (socket_rules S.opens S.closes S.Socket.sends
        S.Socket.receives S.Socket.receives_within) S.traces machine.old.sockets
        machine.new.sockets es
        × WritesOnce said es (O.contents console.old.output)
        (O.contents console.new.output) result }
{
    run(machine, console, alloc, waits, words)
}

/// `rp` makes one ReadProperty of the device that its words name, and sends nothing else. What it
/// prints, where it ends with 0, are the values of the ACK that came from that device last.
pub fn rp_prints_what_came<
    S: Tracing,
    F: Start,
    G: Start,
    Q: Parts,
    I: Read,
    O: Write,
    E: Write,
    C: Clock,
    W: WaitClock + Copy,
>(
    machine: &mut Machine<'_, S, F, G, Q, C>,
    console: &mut Console<I, O, E>,
    alloc: Global,
    waits: W,
    words: &[String],
) -> u8
where
    W: Drop,
    ensures asks { (said : ReadWords) → AskFor (map string_bytes words.now) (job.Rp said)
        → (es : List Event) × IsCaptured (socket_rules S.opens S.closes S.Socket.sends
        S.Socket.receives S.Socket.receives_within) S.traces machine.old.sockets
        machine.new.sockets es
        × ReadsOnce said es (O.contents console.old.output)
        (O.contents console.new.output) result }
    ensures prints { (said : ReadWords) → AskFor (map string_bytes words.now) (job.Rp said)
        → result ≡ 0 → (es : List Event) × IsCaptured (socket_rules S.opens S.closes S.Socket.sends
        S.Socket.receives S.Socket.receives_within) S.traces machine.old.sockets
        machine.new.sockets es
        × PrintsWhatCame said es (O.contents console.old.output)
        (O.contents console.new.output) }
{
    run(machine, console, alloc, waits, words)
}

/// `wi` sends the Who-Is of its words alone, once to each station, and prints a line for each I-Am
/// that comes, in the order in which they came. It ends with 0 only where no send was refused.
pub fn wi_prints_what_came<
    S: Tracing,
    F: Start,
    G: Start,
    Q: Parts,
    I: Read,
    O: Write,
    E: Write,
    C: Clock,
    W: WaitClock + Copy,
>(
    machine: &mut Machine<'_, S, F, G, Q, C>,
    console: &mut Console<I, O, E>,
    alloc: Global,
    waits: W,
    words: &[String],
) -> u8
where
    W: Drop,
    ensures { (said : FindWords) → AskFor (map string_bytes words.now) (job.Wi said)
        → (es : List Event) × IsCaptured (socket_rules S.opens S.closes S.Socket.sends
        S.Socket.receives S.Socket.receives_within) S.traces machine.old.sockets
        machine.new.sockets es
        × FindsWhatCame said es (O.contents console.old.output)
        (O.contents console.new.output) result }
{
    run(machine, console, alloc, waits, words)
}

/// `serve` sends answers alone: each right behind the datagram that it answers, to who asked, and
/// one at most. Of all that comes, what the device of the script on the input has a reply to is
/// answered by that reply.
pub fn serve_answers_only<
    S: Tracing,
    F: Start,
    G: Start,
    Q: Parts,
    I: Read,
    O: Write,
    E: Write,
    C: Clock,
    W: WaitClock + Copy,
>(
    machine: &mut Machine<'_, S, F, G, Q, C>,
    console: &mut Console<I, O, E>,
    alloc: Global,
    waits: W,
    words: &[String],
) -> u8
where
    W: Drop,
    ensures { (said : ServeWords) → AskFor (map string_bytes words.now) (job.Serve said)
        → (es : List Event) × IsCaptured (socket_rules S.opens S.closes S.Socket.sends
        S.Socket.receives S.Socket.receives_within) S.traces machine.old.sockets
        machine.new.sockets es
        × AnswersOnly said es (O.contents console.old.output)
        (O.contents console.new.output) result
        × ((script : List ℕ) → I.remaining console.old.input ≡ Some script
        → ServesDevice said script es result) }
{
    run(machine, console, alloc, waits, words)
}

/// `log` asks twice for each of its steps at most, and twice more, each as often again as its
/// retries say.
pub fn log_asks_few<
    S: Tracing,
    F: Start,
    G: Start,
    Q: Parts,
    I: Read,
    O: Write,
    E: Write,
    C: Clock,
    W: WaitClock + Copy,
>(
    machine: &mut Machine<'_, S, F, G, Q, C>,
    console: &mut Console<I, O, E>,
    alloc: Global,
    waits: W,
    words: &[String],
) -> u8
where
    W: Drop,
    ensures { (said : LogWords) → AskFor (map string_bytes words.now) (job.Log said)
        → (es : List Event) × IsCaptured (socket_rules S.opens S.closes S.Socket.sends
        S.Socket.receives S.Socket.receives_within) S.traces machine.old.sockets
        machine.new.sockets es × AsksFew said es }
{
    run(machine, console, alloc, waits, words)
}

/// `logs` of logs that its words name prints a line for each, up to one to whose question no answer
/// came; each cell is what came from the device to the question for it, and nothing else is sent.
/// Where it ends with 0, all lines are there.
pub fn logs_prints_what_came<
    S: Tracing,
    F: Start,
    G: Start,
    Q: Parts,
    I: Read,
    O: Write,
    E: Write,
    C: Clock,
    W: WaitClock + Copy,
>(
    machine: &mut Machine<'_, S, F, G, Q, C>,
    console: &mut Console<I, O, E>,
    alloc: Global,
    waits: W,
    words: &[String],
) -> u8
where
    W: Drop,
    ensures { (said : ListWords) → AskFor (map string_bytes words.now) (job.Logs said)
        → said.instances ≢ []
        → (es : List Event) × IsCaptured (socket_rules S.opens S.closes S.Socket.sends
        S.Socket.receives S.Socket.receives_within) S.traces machine.old.sockets
        machine.new.sockets es
        × ListsWhatCame said es (O.contents console.old.output)
        (O.contents console.new.output) result }
{
    run(machine, console, alloc, waits, words)
}

/// `kept` that ends with 0, but of the newest records alone, prints what the archive keeps, which
/// is a file or a folder of parts: of each log that is chosen the line that names it, and a line
/// for each of its items. Where it ends with 1 it prints nothing and opens no file. However it
/// ends, what it finds is left as it was.
pub fn kept_prints_its_rows<
    S: Tracing,
    F: Start,
    G: Start,
    Q: Parts,
    I: Read,
    O: Write,
    E: Write,
    C: Clock,
    W: WaitClock + Copy,
>(
    machine: &mut Machine<'_, S, F, G, Q, C>,
    console: &mut Console<I, O, E>,
    alloc: Global,
    waits: W,
    words: &[String],
) -> u8
where
    W: Drop,
    ensures prints { (said : KeptWords) → AskFor (map string_bytes words.now) (job.Kept said)
        → is_newest said.extent ≡ false → result ≡ 0
        → PrintsEach (part_rules Q.lists Q.holds Q.bars) said (O.contents console.old.output)
        (O.contents console.new.output) machine.old.folders machine.new.folders }
    ensures unfit { (said : KeptWords) → AskFor (map string_bytes words.now) (job.Kept said)
        → result ≡ 1 → (O.contents console.new.output ≡ O.contents console.old.output)
        × (machine.new.folders ≡ machine.old.folders) }
    ensures leaves { (said : KeptWords) → AskFor (map string_bytes words.now) (job.Kept said)
        → (machine.new.files ≡ machine.old.files)
        × LeavesArchive (part_rules Q.lists Q.holds Q.bars) said.file machine.old.folders
        machine.new.folders }
{
    run(machine, console, alloc, waits, words)
}

/// `check` that ends with 0 found an archive, which is a file or a folder of parts, and no number
/// of an epoch of its logs is missing; what it prints, unless the words ask for quiet, is what is
/// counted there. Of a file each number is in one row, and in no other. However it ends, what it
/// finds is left as it was.
pub fn check_finds_each_number<
    S: Tracing,
    F: Start,
    G: Start,
    Q: Parts,
    I: Read,
    O: Write,
    E: Write,
    C: Clock,
    W: WaitClock + Copy,
>(
    machine: &mut Machine<'_, S, F, G, Q, C>,
    console: &mut Console<I, O, E>,
    alloc: Global,
    waits: W,
    words: &[String],
) -> u8
where
    W: Drop,
    ensures finds { (said : CheckWords) → AskFor (map string_bytes words.now) (job.Check said)
        → result ≡ 0 → (before : Held) × (after : Held)
        × IsPrinted said.quiet (O.contents console.old.output) (O.contents console.new.output)
        before after × FindsEach (part_rules Q.lists Q.holds Q.bars) said.file before after
        machine.old.folders machine.new.folders }
    ensures whole { (said : CheckWords) → AskFor (map string_bytes words.now) (job.Check said)
        → result ≡ 0
        → FindsWhole (part_rules Q.lists Q.holds Q.bars) said.file machine.old.folders
        machine.new.folders }
    ensures leaves { (said : CheckWords) → AskFor (map string_bytes words.now) (job.Check said)
        → (machine.new.files ≡ machine.old.files)
        × LeavesArchive (part_rules Q.lists Q.holds Q.bars) said.file machine.old.folders
        machine.new.folders }
{
    whole_has_each();
    run(machine, console, alloc, waits, words)
}

/// `replay` prints the text of the script on its input, or a front part of it, and leaves files
/// alone.
pub fn replay_prints_its_script<
    S: Tracing,
    F: Start,
    G: Start,
    Q: Parts,
    I: Read,
    O: Write,
    E: Write,
    C: Clock,
    W: WaitClock + Copy,
>(
    machine: &mut Machine<'_, S, F, G, Q, C>,
    console: &mut Console<I, O, E>,
    alloc: Global,
    waits: W,
    words: &[String],
) -> u8
where
    W: Drop,
    ensures prints { AskFor (map string_bytes words.now) job.Replay → (script : List ℕ)
        → I.remaining console.old.input ≡ Some script
        → PlaysScript script (O.contents console.old.output)
        (O.contents console.new.output) result }
    ensures leaves { AskFor (map string_bytes words.now) job.Replay
        → (machine.new.files ≡ machine.old.files) × (machine.new.folders ≡ machine.old.folders) }
{
    run(machine, console, alloc, waits, words)
}
