//! The tool that is a device.

ghost use Rattle.std.specs.Prelude.{◌≡◌, ◌⊎◌, Ok, Err, Some, None, IfOk, IfErr, IfSome};
ghost use Rattle.bac_objects.specs.Build.{build_fault, built as built_of};
ghost use Rattle.bac_print.specs.Output.{AppendsPart};
ghost use Rattle.bac_tools.specs.Serving.{IsConfigured, IsServed, IsUnbuilt, Serves, service};
ghost use Rattle.bac_ports.specs.Sockets.{socket_rules};
ghost use Rattle.bac_tools.specs.Streams.{streams};
ghost use Rattle.bac_tools.specs.Texts.{serving_line};

use crate::fault::Fault;
use crate::telling::{announcement, say};
use bac_device::{Device, misfit};
use bac_ports::{OpenFault, Sockets};
use bac_script::{
    Configuration, ConfigurationText, Reason, Refused, ReplayFault, read_configuration_explained,
    unfit_line,
};
use bac_serve::{Clock, idle_wait};
use bac_wire::Address;
use std::alloc::Global;
use std::io::{Read, Write};

/// Reads the configuration to its end; beside it its text.
fn configured<I: Read>(alloc: Global, input: &mut I) -> Result<(Configuration, Vec<u8>), Fault>
    ensures ok { IfOk result (λ read. IsConfigured (I.remaining input.old) (I.remaining input.new)
        (Ok read.0) × IfSome (I.remaining input.old) (λ script. read.1.items ≡ script)) }
    ensures err { IfErr result
        (λ fault. IsConfigured (I.remaining input.old) (I.remaining input.new) (Err fault)) }
{
    match read_configuration_explained(alloc, input) {
        Ok(read) => {
            let ConfigurationText {
                configuration,
                text,
            } = read;
            match configuration {
                Some(configuration) => Ok((configuration, text)),
                None => Err(Fault::NoDevice),
            }
        }
        Err(refused) => Err(Fault::Script(refused)),
    }
}

/// Why the lines of a text make no device: the first line that has a fault, or that memory ran out,
/// if none has.
fn unfit(alloc: Global, configuration: &Configuration, text: &[u8]) -> Fault
    ensures { IsUnbuilt (Some text.now) configuration.now.device configuration.now.objects.items
        result }
{
    match misfit(alloc, &configuration.device, &configuration.objects) {
        Some(misfit) => Fault::Script(Refused {
            fault: ReplayFault::Build(misfit.fault),
            reason: Some(Reason::Device(unfit_line(text, misfit))),
        }),
        None => Fault::Memory,
    }
}

/// Builds the device that a text describes. The text is let go.
fn built(alloc: Global, configuration: &Configuration, text: Vec<u8>) -> Result<Device, Fault>
    ensures ok { IfOk result (λ device. (build_fault configuration.now.device
        configuration.now.objects.items ≡ None)
        × (device ≡ built_of configuration.now.device configuration.now.objects.items)) }
    ensures err { IfErr result
        (IsUnbuilt (Some text.items) configuration.now.device configuration.now.objects.items) }
{
    match Device::build(alloc, &configuration.device, &configuration.objects) {
        Ok(device) => Ok(device),
        Err(_) => Err(unfit(alloc, configuration, &text)),
    }
}

/// The socket of a server at an address; each receive waits so long at most. That it is up is told.
fn open_socket<S: Sockets, E: Write>(
    sockets: &mut S,
    alloc: Global,
    address: Address,
    wait: u32,
    errors: &mut E,
) -> Result<S::Socket, Fault>
    ensures ok { IfOk result (λ port. S.opens sockets.old address wait (Ok port) sockets.new
        × AppendsPart (E.contents errors.old) (E.contents errors.new) (serving_line address)) }
    ensures err { IfErr result (λ fault. (errors.new ≡ errors.old)
        × (((fault ≡ Fault.Memory) × (sockets.new ≡ sockets.old))
        ⊎ ((why : OpenFault) × (fault ≡ Fault.Unopened why)
        × S.opens sockets.old address wait (Err why) sockets.new))) }
{
    // The memory for the line comes first: a socket that is open is told.
    let Ok(line) = announcement(alloc, address) else {
        return Err(Fault::Memory);
    };
    match sockets.open(address, wait) {
        Ok(port) => {
            say(&line, errors);
            Ok(port)
        }
        Err(why) => Err(Fault::Unopened(why)),
    }
}

/// Where a device is served: its address, and how many milliseconds a receive waits at most.
#[derive(Clone, Copy)]
struct Place {
    address: Address,
    wait: u32,
}

/// Is this device at a place, until so many datagrams have come.
fn serve_at<S: Sockets, E: Write, C: Clock>(
    sockets: &mut S,
    alloc: Global,
    place: Place,
    count: u32,
    device: &mut Device,
    errors: &mut E,
    clock: &mut C,
) -> Result<u8, Fault>
    ensures { IsServed
        (socket_rules S.opens S.closes S.Socket.sends S.Socket.receives S.Socket.receives_within)
        C.tells (service device.old place.address place.wait count)
        (streams None None (E.contents errors.old) sockets.old clock.old) result
        (streams None None (E.contents errors.new) sockets.new clock.new) }
{
    let mut port = open_socket(sockets, alloc, place.address, place.wait, errors)?;
    let served = bac_serve::serve(&mut port, device, clock, count);
    sockets.close(port);
    match served {
        Ok(()) => Ok(0),
        Err(_) => Err(Fault::Socket),
    }
}

/// Is the device that the input describes, until so many datagrams have come.
pub(crate) fn serve<S: Sockets, I: Read, E: Write, C: Clock>(
    sockets: &mut S,
    alloc: Global,
    address: Address,
    count: u32,
    input: &mut I,
    errors: &mut E,
    clock: &mut C,
) -> Result<u8, Fault>
    ensures { Serves
        (socket_rules S.opens S.closes S.Socket.sends S.Socket.receives S.Socket.receives_within)
        C.tells address count
        (streams (I.remaining input.old) None (E.contents errors.old) sockets.old clock.old) result
        (streams (I.remaining input.new) None (E.contents errors.new) sockets.new clock.new) }
{
    let read = configured(alloc, input)?;
    let (configuration, text) = read;
    let mut device = built(alloc, &configuration, text)?;
    let wait = idle_wait(&configuration.objects);
    let place = Place { address, wait };
    serve_at(sockets, alloc, place, count, &mut device, errors, clock)
}
