//! What the lines so far have made, and what one line does.

ghost use Rattle.std.specs.Prelude.{◌≡◌, ◌++◌, [], None, OnOk, IfErr};
ghost use Rattle.bac_objects.specs.Build.{Refuses};
ghost use Rattle.bac_script.specs.Session.{answer_text, clock_text, end_fault, happens, on_device};
ghost use Rattle.bac_script.specs.Session.{on_event, on_line, on_object, receiver_text};
ghost use Rattle.bac_script.specs.Session.{sample_text, step};
ghost use Rattle.bac_script.specs.Views.{Meets, event_of, line_of, state_of};

use crate::replay::fault::LineFault;
use crate::replay::walk::{Local, print_walk};
use crate::script::hexadecimal::LONGEST;
use crate::script::line::{Event, Line, is_silent};
use bac_device::{BuildFault, Device, DeviceLine, ObjectLine, Receiver, SampleFault};
use bac_print::{push_address, push_hex, push_number};
use bac_wire::Datagram;
use std::alloc::{AllocError, Global};

/// What the lines so far have made.
#[derive(Drop)]
pub(crate) enum Session {
    /// No device line.
    Empty,
    /// A device line, the object lines after it, and no event.
    Described(DeviceLine, Vec<ObjectLine>),
    /// A device to which events happen, and the transactions of the clients that walk its logs.
    Running(Device, Local),
}

/// What each line uses anew: room for a datagram that is received, for the reply to it, and for
/// what the line prints.
#[derive(Drop)]
pub(crate) struct Scratch {
    received: [u8; LONGEST],
    reply: Datagram,
    text: Vec<u8>,
}

impl Scratch {
    /// With nothing in it.
    pub(crate) fn new(alloc: Global) -> Scratch {
        Scratch {
            received: [0; LONGEST],
            reply: Datagram::new(),
            text: Vec::new(alloc),
        }
    }

    /// What the last line printed.
    pub(crate) fn text(&self) -> &[u8]
        ensures { result.now ≡ self.now.text.items }
    {
        self.text.as_slice()
    }
}

/// How often the walks of a script ask again.
const RETRIES: u8 = 3;

/// Writes to whom an answer goes, if it isn't who sent what it answers.
fn push_receiver(text: &mut Vec<u8>, to: Receiver) -> Result<(), AllocError>
    ensures { OnOk result (text.new.items ≡ text.old.items ++ receiver_text to) }
{
    match to {
        Receiver::Sender => Ok(()),
        Receiver::Address(address) => {
            text.extend_from_slice(b" to ")?;
            push_address(text, address)
        }
    }
}

/// Writes what a reply of these octets to this receiver prints, and what none does.
fn push_answer(text: &mut Vec<u8>, to: Option<Receiver>, octets: &[u8]) -> Result<(), AllocError>
    ensures { OnOk result (text.new.items ≡ text.old.items ++ answer_text to octets.now) }
{
    match to {
        Some(to) => {
            text.extend_from_slice(b"tx ")?;
            push_hex(text, octets)?;
            push_receiver(text, to)?;
            text.extend_from_slice(b"\n")
        }
        None => text.extend_from_slice(b"none\n"),
    }
}

/// Writes what an advance of the clock prints, if it isn't set back.
fn push_advance(text: &mut Vec<u8>, count: Option<usize>) -> Result<(), AllocError>
    ensures { OnOk result (text.new.items ≡ text.old.items ++ clock_text count) }
{
    match count {
        Some(count) => {
            text.extend_from_slice(b"sampled ")?;
            push_number(text, count as u64)?;
            text.extend_from_slice(b"\n")
        }
        None => text.extend_from_slice(b"clock back\n"),
    }
}

/// Writes what a sample on demand prints, whether the log takes it or not.
fn push_sample(text: &mut Vec<u8>, taken: Result<u32, SampleFault>) -> Result<(), AllocError>
    ensures { OnOk result (text.new.items ≡ text.old.items ++ sample_text taken) }
{
    match taken {
        Ok(number) => {
            text.extend_from_slice(b"number ")?;
            push_number(text, u64::from(number))?;
            text.extend_from_slice(b"\n")
        }
        Err(SampleFault::NoSuchLog) => text.extend_from_slice(b"refused: no such log\n"),
        Err(SampleFault::Disabled) => text.extend_from_slice(b"refused: disabled\n"),
        Err(SampleFault::CycleFull) => text.extend_from_slice(b"refused: cycle full\n"),
    }
}

/// Writes what an event at a device prints.
fn happen(
    device: &mut Device,
    local: &mut Local,
    alloc: Global,
    event: &Event,
    reply: &mut Datagram,
    text: &mut Vec<u8>,
) -> Result<(), AllocError>
    requires { text.old.items ≡ [] }
    ensures { OnOk result (happens device.old (event_of event.now) ≡ (text.new.items, device.new)) }
{
    match event {
        Event::Received(octets) => {
            let to = device.answer_into(octets, reply);
            push_answer(text, to, reply.octets())
        }
        Event::Clocked(stamp) => match device.advance(*stamp) {
            Ok(count) => push_advance(text, Some(count)),
            Err(_) => push_advance(text, None),
        },
        Event::Sampled(instance) => {
            let taken = device.sample(*instance);
            push_sample(text, taken)
        }
        Event::Walked(words) => {
            let lines = print_walk(alloc, device, local, *words)?;
            text.extend_from_slice(lines.as_slice())
        }
    }
}

impl Session {
    /// Plays a device line.
    fn play_device(&mut self, alloc: Global, line: DeviceLine) -> Result<(), LineFault>
        ensures { Meets (λ _. ([], state_of self.new)) result (on_device (state_of self.old) line) }
    {
        match self {
            Session::Empty => {
                *self = Session::Described(line, Vec::new(alloc));
                Ok(())
            }
            _ => Err(LineFault::Bad),
        }
    }

    /// Plays an object line.
    fn play_object(&mut self, line: ObjectLine) -> Result<(), LineFault>
        ensures { Meets (λ _. ([], state_of self.new)) result (on_object (state_of self.old) line) }
    {
        match self {
            Session::Described(_, lines) => match lines.push(line) {
                Ok(()) => Ok(()),
                Err(_) => Err(LineFault::Memory),
            },
            _ => Err(LineFault::Bad),
        }
    }

    /// Plays an event, and writes what it prints.
    fn play_event(
        &mut self,
        alloc: Global,
        event: &Event,
        reply: &mut Datagram,
        text: &mut Vec<u8>,
    ) -> Result<(), LineFault>
        requires { text.old.items ≡ [] }
        ensures { Meets (λ _. (text.new.items, state_of self.new)) result
            (on_event (state_of self.old) (event_of event.now)) }
    {
        match self {
            Session::Empty => Err(LineFault::Bad),
            Session::Described(device, lines) => {
                let mut device = match Device::build(alloc, device, lines.as_slice()) {
                    Ok(device) => device,
                    Err(fault) => return Err(LineFault::of_build(fault)),
                };
                let mut local = Local::new(RETRIES);
                match happen(&mut device, &mut local, alloc, event, reply, text) {
                    Ok(()) => {
                        *self = Session::Running(device, local);
                        Ok(())
                    }
                    Err(_) => Err(LineFault::Memory),
                }
            }
            Session::Running(device, local) => {
                match happen(device, local, alloc, event, reply, text) {
                    Ok(()) => Ok(()),
                    Err(_) => Err(LineFault::Memory),
                }
            }
        }
    }

    /// Plays one line, and writes what it prints.
    fn play(
        &mut self,
        alloc: Global,
        line: Line,
        reply: &mut Datagram,
        text: &mut Vec<u8>,
    ) -> Result<(), LineFault>
        requires { text.old.items ≡ [] }
        ensures { Meets (λ _. (text.new.items, state_of self.new)) result
            (on_line (state_of self.old) (line_of line.entry)) }
    {
        match line {
            Line::Device(words) => self.play_device(alloc, words),
            Line::Object(line) => self.play_object(line),
            Line::Happens(event) => self.play_event(alloc, &event, reply, text),
        }
    }

    /// Plays the line that a text says. What it prints is the text of the scratch.
    #[tactic(auto, unfolding(crate::specs::Session::step))]
    pub(crate) fn play_text(
        &mut self,
        alloc: Global,
        text: &[u8],
        scratch: &mut Scratch,
    ) -> Result<(), LineFault>
        ensures { Meets (λ _. (scratch.new.text.items, state_of self.new)) result
            (step (state_of self.old) text.now) }
    {
        scratch.text.clear();
        if is_silent(text) {
            return Ok(());
        }
        match Line::read(alloc, text, &mut scratch.received) {
            Ok(Some(line)) => self.play(alloc, line, &mut scratch.reply, &mut scratch.text),
            Ok(None) => Err(LineFault::Bad),
            Err(_) => Err(LineFault::Memory),
        }
    }

    /// Builds the device at the end of a script, if no event has.
    pub(crate) fn finish(&self, alloc: Global) -> Result<(), BuildFault>
        ensures ok { OnOk result (end_fault (state_of self.now) ≡ None) }
        ensures err { IfErr result (λ fault. Refuses fault (end_fault (state_of self.now))) }
    {
        if let Session::Described(device, lines) = self {
            Device::build(alloc, device, lines.as_slice())?;
        }
        Ok(())
    }
}
