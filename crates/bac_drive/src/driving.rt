//! The loop.

ghost use Rattle.std.specs.Prelude.{◌≡◌, ◌≢◌, Err, IfErr, IfOk, OnErr, OnOk, IsTrue};
ghost use Rattle.std.specs.Io.KnownBytes.{Appends};
ghost use Rattle.sqlite.specs.Held.{state};
ghost use Rattle.sqlite.specs.State.{HasCleanDisk, Survives};
ghost use Rattle.sqlite.specs.Effect.{Database};
ghost use Rattle.bac_archive.specs.Put.{FailsToPut, IsPut};
ghost use Rattle.bac_archive.specs.Schema.{HasArchive};
ghost use Rattle.bac_print.specs.Output.{AppendsPart};
ghost use Rattle.bac_drive.specs.Happens.{IsStopped, Leaves, Runs, StaysSettled, Stops, Takes};
ghost use Rattle.bac_drive.specs.Happens.{acting, scene};

use crate::clock::Clock;
use crate::machine::{Machine, Next};
use bac_archive::{Put, put};
use bac_ports::Port;
use bac_print::{WriteRefused, write_text};
use sqlite::{Alter, Connection, Error};
use std::alloc::Global;
use std::io::Write;

/// Why a machine isn't driven to its end.
#[derive(Clone, Copy, Debug, PartialEq, Eq)]
pub enum Fault {
    /// There is no memory for what it wants next.
    Memory,
    /// The archive gave up on rows.
    Archive(Error),
    /// The output refused a text.
    Output,
    /// The errors refused one.
    Errors,
    /// It never ends.
    Unending,
}

/// Rows are put in an archive, all of them or none.
fn keep<S: Alter>(conn: &mut Connection<S>, puts: &[Put]) -> Result<(), Error>
    requires { HasCleanDisk (state S.Store conn.old)
        → HasArchive (state S.Store conn.old).now.schema }
    ensures kept { HasCleanDisk (state S.Store conn.new)
        → OnOk result
        (IsPut (state S.Store conn.old).now (state S.Store conn.new).now puts.now) }
    ensures neither { HasCleanDisk (state S.Store conn.new)
        → IsTrue (state S.Store conn.new).is_open
        → OnErr result ((state S.Store conn.new).now ≡ (state S.Store conn.old).now) }
    ensures cause { HasCleanDisk (state S.Store conn.new)
        → IfErr result (FailsToPut S.Store conn.old puts.now) }
    ensures settled { StaysSettled (state S.Store conn.old) (state S.Store conn.new) result }
    ensures crash { Survives (state S.Store conn.old) (state S.Store conn.new)
        (λ trees. (db : Database) × IsPut (state S.Store conn.old).now db puts.now
        × (trees ≡ db.trees)) }
{
    // What brought nothing waits for no commit.
    if puts.is_empty() {
        return Ok(());
    }
    put(conn, puts)
}

/// Writes a text, and flushes the output: a line is seen at once, though the run goes on for hours.
fn show<W: Write>(output: &mut W, text: &[u8]) -> Result<(), WriteRefused>
    ensures ok { OnOk result (Appends (W.contents output.old) (W.contents output.new) text.now) }
    ensures err { OnErr result
        (AppendsPart (W.contents output.old) (W.contents output.new) text.now) }
{
    if write_text(output, text).is_err() || output.flush().is_err() {
        return Err(WriteRefused);
    }
    Ok(())
}

/// Does one thing that a machine wants: whether it has ended.
fn step<M: Machine, P: Port, C: Clock, S: Alter, W: Write, V: Write>(
    alloc: Global,
    machine: &mut M,
    port: &mut P,
    clock: &mut C,
    conn: &mut Connection<S>,
    output: &mut W,
    errors: &mut V,
) -> Result<bool, Fault>
    requires { HasCleanDisk (state S.Store conn.old)
        → HasArchive (state S.Store conn.old).now.schema }
    ensures takes { HasCleanDisk (state S.Store conn.new)
        → IfOk result (Takes
        (acting M.gives M.hears M.reads P.sends P.receives_within C.reads)
        (scene machine.old port.old clock.old (state S.Store conn.old).now
        (W.contents output.old) (V.contents errors.old))
        (scene machine.new port.new clock.new (state S.Store conn.new).now
        (W.contents output.new) (V.contents errors.new))) }
    ensures stops { HasCleanDisk (state S.Store conn.new)
        → IfErr result (IsStopped S.Store
        (acting M.gives M.hears M.reads P.sends P.receives_within C.reads)
        (scene machine.old port.old clock.old (state S.Store conn.old).now
        (W.contents output.old) (V.contents errors.old))
        (scene machine.new port.new clock.new (state S.Store conn.new).now
        (W.contents output.new) (V.contents errors.new)) (state S.Store conn.new).is_open) }
    ensures ends { result ≢ Err Fault.Unending }
    ensures settled { StaysSettled (state S.Store conn.old) (state S.Store conn.new) result }
    ensures crash { Survives (state S.Store conn.old) (state S.Store conn.new)
        (Leaves (acting M.gives M.hears M.reads P.sends P.receives_within C.reads)
        (scene machine.old port.old clock.old (state S.Store conn.old).now
        (W.contents output.old) (V.contents errors.old))) }
{
    match machine.next(alloc) {
        Ok(Next::Send(datagram, to)) => {
            let _answer = port.send(datagram.octets(), to);
            Ok(false)
        }
        Ok(Next::Wait(within)) => {
            machine.hear(port.receive_within(within));
            Ok(false)
        }
        Ok(Next::Read) => {
            machine.read(clock.now());
            Ok(false)
        }
        Ok(Next::Keep(puts)) => match keep(conn, puts.as_slice()) {
            Ok(()) => Ok(false),
            Err(error) => Err(Fault::Archive(error)),
        },
        Ok(Next::Print(text)) => match show(output, text.as_slice()) {
            Ok(()) => Ok(false),
            Err(_) => Err(Fault::Output),
        },
        Ok(Next::Warn(text)) => match write_text(errors, text.as_slice()) {
            Ok(()) => Ok(false),
            Err(_) => Err(Fault::Errors),
        },
        Ok(Next::End) => Ok(true),
        Err(_) => Err(Fault::Memory),
    }
}

/// Does what a machine wants, one thing after the other, until it has ended: sends and waits over
/// the port, reads the clock, puts rows in the archive, each batch in one transaction, and writes
/// to the output and the errors.
pub fn drive<M: Machine, P: Port, C: Clock, S: Alter, W: Write, V: Write>(
    alloc: Global,
    machine: &mut M,
    port: &mut P,
    clock: &mut C,
    conn: &mut Connection<S>,
    output: &mut W,
    errors: &mut V,
) -> Result<(), Fault>
    requires { HasCleanDisk (state S.Store conn.old)
        → HasArchive (state S.Store conn.old).now.schema }
    // There are events, which are what the machine makes of what came, and lead from the port, the
    // clock, the archive and the texts before to those after.
    ensures runs { HasCleanDisk (state S.Store conn.new)
        → OnOk result (Runs
        (acting M.gives M.hears M.reads P.sends P.receives_within C.reads)
        (scene machine.old port.old clock.old (state S.Store conn.old).now
        (W.contents output.old) (V.contents errors.old))
        (scene machine.new port.new clock.new (state S.Store conn.new).now
        (W.contents output.new) (V.contents errors.new))) }
    // So it is after a fault, up to what failed, and nothing else is done: the archive has what was
    // put by then, and if it gave up, then on the next batch.
    ensures stops { HasCleanDisk (state S.Store conn.new)
        → IfErr result (Stops S.Store
        (acting M.gives M.hears M.reads P.sends P.receives_within C.reads)
        (scene machine.old port.old clock.old (state S.Store conn.old).now
        (W.contents output.old) (V.contents errors.old))
        (scene machine.new port.new clock.new (state S.Store conn.new).now
        (W.contents output.new) (V.contents errors.new)) (state S.Store conn.new).is_open) }
    // Nothing that it put is left uncommitted.
    ensures settled { StaysSettled (state S.Store conn.old) (state S.Store conn.new) result }
    // Killed at any moment, it leaves the archive behind such events.
    ensures crash { Survives (state S.Store conn.old) (state S.Store conn.new)
        (Leaves (acting M.gives M.hears M.reads P.sends P.receives_within C.reads)
        (scene machine.old port.old clock.old (state S.Store conn.old).now
        (W.contents output.old) (V.contents errors.old))) }
{
    for done in 0..u64::MAX {
        match step(alloc, machine, port, clock, conn, output, errors) {
            Ok(false) => {}
            Ok(true) => return Ok(()),
            Err(fault) => return Err(fault),
        }
    }
    Err(Fault::Unending)
}
