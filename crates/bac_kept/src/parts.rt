//! What a part of an archive keeps is printed, behind what was printed of the parts before it.

ghost use Rattle.std.specs.Prelude.{◌≡◌, IfErr, IfOk, OnErr, OnOk, List, map, length, nat_lt};
ghost use Rattle.std.specs.Io.KnownBytes.{Appends};
ghost use Rattle.sqlite.specs.State.{HasCleanDisk, IsUnchanged, Survives};
ghost use Rattle.sqlite.specs.Held.{state};
ghost use Rattle.bac_archive.specs.Ask.{IsAsWas, IsLeft};
ghost use Rattle.bac_archive.specs.Known.{IsKnown};
ghost use Rattle.bac_archive.specs.Schema.{HasArchive, OverArchive};
ghost use Rattle.bac_print.specs.Output.{AppendsPart};
ghost use Rattle.bac_kept.specs.Faults.{EndsBy, EndsText, FailsOnItems, FailsOnLogs};
ghost use Rattle.bac_kept.specs.Faults.{FailsToPrint, IsLeftAs};
ghost use Rattle.bac_kept.specs.Items.{range_of};
ghost use Rattle.bac_kept.specs.Parts.{HasFront, PrintsFront, PrintsLog, PrintsLogs, PrintsPart};
ghost use Rattle.bac_kept.specs.Parts.{PrintsSome, head_text};
ghost use Rattle.bac_kept.specs.Shown.{shown_logs, told_of};

use crate::fault::Fault;
use crate::items::print_items;
use crate::seen::Seen;
use crate::shown::{ShownLog, has_heads, print_head, shown_logs};
use crate::words::Words;
use bac_archive::read_known;
use bac_form::Form;
use sqlite::{Alter, Connection};
use std::alloc::Global;
use std::io::Write;

/// Prints the line that names a log, where lines stand behind such.
fn print_name<O: Write>(
    alloc: Global,
    shown: &ShownLog<'_>,
    words: &Words<'_>,
    heads: bool,
    output: &mut O,
) -> Result<(), Fault>
    ensures ok { OnOk result (Appends (O.contents output.old) (O.contents output.new)
        (head_text words.now heads (told_of shown.now))) }
    ensures err { OnErr result (AppendsPart (O.contents output.old) (O.contents output.new)
        (head_text words.now heads (told_of shown.now))) }
    ensures fault { IfErr result EndsText }
{
    match words.form {
        Form::Lines if heads => print_head(alloc, shown, output),
        _ => Ok(()),
    }
}

/// Prints what an archive keeps of a log, behind what was seen of it.
fn print_log<A: Alter, O: Write>(
    alloc: Global,
    conn: &mut Connection<A>,
    shown: &ShownLog<'_>,
    words: &Words<'_>,
    heads: bool,
    seen: &mut Seen,
    output: &mut O,
) -> Result<(), Fault>
    ensures ok { OverArchive (state A.Store conn.old) (state A.Store conn.new)
        (OnOk result ((text : List _) × PrintsLog words.now heads (told_of shown.now)
        ((state A.Store conn.old).now.trees 5) seen.old text seen.new
        × Appends (O.contents output.old) (O.contents output.new) text)) }
    ensures err { OverArchive (state A.Store conn.old) (state A.Store conn.new)
        (OnErr result ((text : List _) × HasFront words.now heads (told_of shown.now)
        ((state A.Store conn.old).now.trees 5) seen.old text
        × AppendsPart (O.contents output.old) (O.contents output.new) text)) }
    ensures same { OverArchive (state A.Store conn.old) (state A.Store conn.new)
        (OnOk result (IsUnchanged (state A.Store conn.old) (state A.Store conn.new))) }
    ensures left { OverArchive (state A.Store conn.old) (state A.Store conn.new)
        (IsLeftAs A.Store conn.old conn.new) }
    ensures crash { HasArchive (state A.Store conn.old).now.schema
        → Survives (state A.Store conn.old) (state A.Store conn.new) (λ _. ⊥) }
    ensures clean { HasCleanDisk (state A.Store conn.new) → HasCleanDisk (state A.Store conn.old) }
    ensures fault { OverArchive (state A.Store conn.old) (state A.Store conn.new)
        (IfErr result (EndsBy (FailsOnItems A.Store
        (range_of shown.now.log.now.id words.now.dates) conn.old conn.new))) }
{
    print_name(alloc, shown, words, heads, output)?;
    let behind = seen.newest(shown.log.id);
    let newest = print_items(alloc, conn, shown, words, behind, output)?;
    match seen.note(shown.log.id, newest) {
        Ok(()) => Ok(()),
        Err(_) => Err(Fault::Memory),
    }
}

/// Prints what an archive keeps of logs, one after the other, behind what was seen of them.
fn print_logs<A: Alter, O: Write>(
    alloc: Global,
    conn: &mut Connection<A>,
    all: &[ShownLog<'_>],
    words: &Words<'_>,
    heads: bool,
    seen: &mut Seen,
    output: &mut O,
) -> Result<(), Fault>
    ensures ok { OverArchive (state A.Store conn.old) (state A.Store conn.new)
        (OnOk result ((text : List _) × PrintsLogs words.now heads (map told_of all.now)
        ((state A.Store conn.old).now.trees 5) seen.old text seen.new
        × Appends (O.contents output.old) (O.contents output.new) text)) }
    ensures err { OverArchive (state A.Store conn.old) (state A.Store conn.new)
        (OnErr result ((text : List _) × PrintsSome words.now heads (map told_of all.now)
        ((state A.Store conn.old).now.trees 5) seen.old text
        × AppendsPart (O.contents output.old) (O.contents output.new) text)) }
    ensures same { OverArchive (state A.Store conn.old) (state A.Store conn.new)
        (OnOk result (IsAsWas A.Store conn.old conn.new)) }
    ensures left { OverArchive (state A.Store conn.old) (state A.Store conn.new)
        (IsLeftAs A.Store conn.old conn.new) }
    ensures crash { OverArchive (state A.Store conn.old) (state A.Store conn.new)
        (Survives (state A.Store conn.old) (state A.Store conn.new) (λ _. ⊥)) }
    ensures clean { HasCleanDisk (state A.Store conn.new) → HasCleanDisk (state A.Store conn.old) }
    ensures fault { OverArchive (state A.Store conn.old) (state A.Store conn.new)
        (IfErr result (EndsBy (FailsOnLogs A.Store words.now.dates (map told_of all.now)
        conn.old conn.new))) }
{
    for shown in all {
        print_log(alloc, conn, shown, words, heads, seen, output)?;
    }
    Ok(())
}

/// Prints what a part of an archive keeps of the logs that were chosen: of each what lies behind
/// what was seen of it. Answers whether one of its logs was chosen.
pub fn print_part<A: Alter, O: Write>(
    alloc: Global,
    conn: &mut Connection<A>,
    words: &Words<'_>,
    seen: &mut Seen,
    output: &mut O,
) -> Result<bool, Fault>
    requires { HasCleanDisk (state A.Store conn.old)
        → HasArchive (state A.Store conn.old).now.schema }
    // The text of its logs, by rising ids, each once; by it and its parts an archive has no other.
    ensures ok { HasCleanDisk (state A.Store conn.new)
        → IfOk result (λ any. (known : _) × IsKnown (state A.Store conn.old).now.trees known
        × (any ≡ nat_lt 0 (length (shown_logs known words.now.choice))) × (text : List _)
        × PrintsPart words.now (state A.Store conn.old).now.trees known seen.old text seen.new
        × Appends (O.contents output.old) (O.contents output.new) text) }
    // After a fault a front of it, or nothing.
    ensures err { HasCleanDisk (state A.Store conn.new)
        → OnErr result ((text : List _) × PrintsFront words.now
        (state A.Store conn.old).now.trees seen.old text
        × AppendsPart (O.contents output.old) (O.contents output.new) text) }
    ensures same { HasCleanDisk (state A.Store conn.new)
        → OnOk result (IsUnchanged (state A.Store conn.old) (state A.Store conn.new)) }
    // Whatever comes of it, nothing is committed; an error may take back what wasn't.
    ensures left { HasCleanDisk (state A.Store conn.new)
        → IsLeft (state A.Store conn.old) (state A.Store conn.new) }
    ensures crash { HasCleanDisk (state A.Store conn.new)
        → Survives (state A.Store conn.old) (state A.Store conn.new) (λ _. ⊥) }
    ensures clean { HasCleanDisk (state A.Store conn.new) → HasCleanDisk (state A.Store conn.old) }
    ensures fault { HasCleanDisk (state A.Store conn.new)
        → IfErr result (EndsBy (FailsToPrint A.Store words.now.dates conn.old conn.new)) }
{
    let known = match read_known(alloc, conn) {
        Ok(known) => known,
        Err(error) => return Err(Fault::Database(error)),
    };
    let Ok(all) = shown_logs(alloc, &known, words.choice) else {
        return Err(Fault::Memory);
    };
    let all = all.as_slice();
    let heads = has_heads(words.choice, all);
    print_logs(alloc, conn, all, words, heads, seen, output)?;
    Ok(!all.is_empty())
}
