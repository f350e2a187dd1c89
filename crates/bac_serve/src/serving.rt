//! Serving a device: what comes is handled, and what it answers is sent.

ghost use Rattle.std.specs.Prelude.{◌≡◌};
ghost use Rattle.bac_serve.specs.Serving.{Answers, Serves, ServesNext, ServesOne, Ticks};
ghost use Rattle.bac_serve.specs.Serving.{receiver_of, server};

use crate::clock::Clock;
use bac_device::{Device, Receiver};
use bac_ports::{Heard, Port, SocketFault};
use bac_wire::Address;

/// How often a datagram is waited for: without an end, as far as anyone sees.
const WAITS: u64 = u64::MAX;

/// Receives once. The device's clock goes to the clock's time, if there is one that isn't
/// earlier; then the device handles the datagram, and its reply is sent, to the sender or to the
/// address in a Forwarded-NPDU. Answers whether a reply was sent.
///
/// A datagram over 1501 octets is dropped. After a refused receive the device is as it was; after a
/// refused send it has handled the datagram.
pub fn serve_one<P: Port, C: Clock>(
    port: &mut P,
    device: &mut Device,
    clock: &mut C,
) -> Result<bool, SocketFault>
    ensures { ServesOne P.sends P.receives C.tells (server port.old device.old clock.old) result
        (server port.new device.new clock.new) }
{
    let heard = port.receive()?;
    answer(port, device, clock, heard)
}

/// Serves so many datagrams, answered or not. While nothing comes in the port's time, the device's
/// clock goes on. A refused receive is the end, a refused send isn't: whoever forwards a datagram
/// names the address that its answer goes to.
#[tactic(auto, unfolding(crate::specs::Serving::Serves))]
pub fn serve<P: Port, C: Clock>(
    port: &mut P,
    device: &mut Device,
    clock: &mut C,
    count: u32,
) -> Result<(), SocketFault>
    ensures { Serves P.sends P.receives C.tells count (server port.old device.old clock.old) result
        (server port.new device.new clock.new) }
{
    for served in 0..count {
        serve_next(port, device, clock, WAITS)?;
    }
    Ok(())
}

/// Waits for a datagram, at most so many times, and handles it.
#[tactic(auto, unfolding(crate::specs::Serving::ServesNext))]
fn serve_next<P: Port, C: Clock>(
    port: &mut P,
    device: &mut Device,
    clock: &mut C,
    waits: u64,
) -> Result<(), SocketFault>
    ensures { ServesNext P.sends P.receives C.tells waits (server port.old device.old clock.old)
        result (server port.new device.new clock.new) }
{
    for waited in 0..waits {
        match port.receive() {
            Ok(heard) => {
                let _ = answer(port, device, clock, heard);
                return Ok(());
            }
            Err(SocketFault::Timeout) => tick(device, clock),
            Err(SocketFault::Failed) => return Err(SocketFault::Failed),
        }
    }
    Err(SocketFault::Timeout)
}

/// Handles what came, and sends the reply.
fn answer<P: Port, C: Clock>(
    port: &mut P,
    device: &mut Device,
    clock: &mut C,
    heard: Heard,
) -> Result<bool, SocketFault>
    ensures { Answers P.sends C.tells heard (server port.old device.old clock.old) result
        (server port.new device.new clock.new) }
{
    let Heard { from, datagram } = heard;
    tick(device, clock);
    let Some(datagram) = datagram else {
        return Ok(false);
    };
    let Some(reply) = device.handle(datagram.octets()) else {
        return Ok(false);
    };
    port.send(reply.datagram.octets(), receiver(reply.to, from))?;
    Ok(true)
}

/// The device's clock goes to the clock's time, if there is one that isn't earlier.
fn tick<C: Clock>(device: &mut Device, clock: &mut C)
    ensures { Ticks C.tells clock.old device.old clock.new device.new }
{
    if let Some(now) = clock.now() {
        let _ = device.advance(now);
    }
}

fn receiver(to: Receiver, sender: Address) -> Address
    ensures { result ≡ receiver_of to sender }
{
    match to {
        Receiver::Sender => sender,
        Receiver::Address(address) => address,
    }
}
