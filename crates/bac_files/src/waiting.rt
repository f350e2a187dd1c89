//! A file that another program has open is waited for.

ghost use Rattle.std.specs.Prelude.{◌≡◌, ◌↔◌, ◌≤◌, Bool, Err, IsTrue};
ghost use Rattle.bac_ports.specs.Sockets.{socket_rules};
ghost use Rattle.bac_files.specs.Waiting.{AsksAgain, Waits, WaitsWhileInUse, at_wait};

use bac_ports::{Heard, Port, SocketFault, Sockets};
use bac_wire::Address;

/// How many milliseconds it waits at most before it asks again.
const STEP: u32 = 100;

/// How many such steps are a second.
const STEPS: u32 = 10;

/// This machine itself, and any free port: nobody knows it, so nothing comes.
const OWN: Address = [127, 0, 0, 1, 0, 0];

/// A file that another program may have open.
///
/// What an ask is, is a relation that each implementor names itself.
pub(crate) trait Shared {
    /// What an ask is: the file before it, the answer, the file behind it.
    ghost asks: { Self → Bool → Self → Type 0 };

    /// Whether another program has it open.
    fn is_in_use(&mut self) -> bool
        ensures { asks self.old result self.new };
}

/// Whether a wait has failed.
fn has_failed(heard: &Result<Heard, SocketFault>) -> bool
    ensures { IsTrue result ↔ (heard.now ≡ Err SocketFault.Failed) }
{
    match heard {
        Err(SocketFault::Failed) => true,
        Err(SocketFault::Timeout) => false,
        Ok(_) => false,
    }
}

/// Waits and asks again, up to so many times, as long as the file is in use. Nothing is sent.
fn ask_again<U: Shared, P: Port>(file: &mut U, port: &mut P, most: u32) -> bool
    ensures { AsksAgain U.asks P.receives_within most (at_wait file.old port.old) result
        (at_wait file.new port.new) }
{
    for step in 0..most {
        let heard = port.receive_within(STEP);
        if has_failed(&heard) {
            return true;
        }
        if !file.is_in_use() {
            return false;
        }
    }
    true
}

/// Waits for a file that is in use, over a port of its own.
fn wait<U: Shared, S: Sockets>(file: &mut U, sockets: &mut S, seconds: u32) -> bool
    requires { seconds ≤ 3600 }
    ensures { Waits U.asks (socket_rules S.opens S.closes S.Socket.sends S.Socket.receives
        S.Socket.receives_within) seconds file.old sockets.old result file.new sockets.new }
{
    match sockets.open(OWN, STEP) {
        Ok(mut port) => {
            let still = ask_again(file, &mut port, seconds * STEPS);
            sockets.close(port);
            still
        }
        Err(_) => true,
    }
}

/// Whether another program has a file open, also behind a wait: it waits a tenth of a second at
/// most and asks again, for so many seconds at most. It waits over a port of its own, over which
/// nothing is sent; without one it doesn't wait.
pub(crate) fn stays_in_use<U: Shared, S: Sockets>(
    file: &mut U,
    sockets: &mut S,
    seconds: u32,
) -> bool
    requires { seconds ≤ 3600 }
    ensures { WaitsWhileInUse U.asks (socket_rules S.opens S.closes S.Socket.sends S.Socket.receives
        S.Socket.receives_within) seconds file.old sockets.old result file.new sockets.new }
{
    if !file.is_in_use() {
        return false;
    }
    wait(file, sockets, seconds)
}
