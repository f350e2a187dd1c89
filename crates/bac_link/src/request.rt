//! Confirmed requests as datagrams.

ghost use Rattle.std.specs.Prelude.{◌≡◌, ◌↔◌, OnOk, IsErr};
ghost use Rattle.bac_wire.specs.Datagram.{Writes};
ghost use Rattle.bac_apdu.specs.Adding.{Adds};
ghost use Rattle.bac_apdu.specs.Npdu.{maybe_place_of};
ghost use Rattle.bac_apdu.specs.Route.{IsWay};
ghost use Rattle.bac_link.specs.Path.{towards};
ghost use Rattle.bac_link.specs.Requests.{service_of, parameters_of, has_result as has_result_of};
ghost use Rattle.bac_link.specs.Requests.{hops_to, request_apdu, request_octets, IsSendable};
ghost use Rattle.bac_link.specs.Requests.{IsTooLong};

use bac_apdu::choice::{READ_PROPERTY, READ_RANGE, WRITE_PROPERTY};
use bac_apdu::{
    Apdu, Far, Npdu, ReadProperty, ReadRange, WriteProperty, begin_datagram, end_datagram,
    write_apdu,
};
use bac_wire::{Datagram, Full};

/// The most octets that an APDU may have, which is also what a request says that it takes.
const MAX_APDU: usize = 1476;

/// A confirmed request.
#[derive(Clone, Copy, Debug)]
pub enum Request<'a> {
    ReadProperty(ReadProperty),
    WriteProperty(WriteProperty<'a>),
    ReadRange(ReadRange),
}

impl<'a> Request<'a> {
    pub(crate) fn service(&self) -> u8
        ensures { result ≡ service_of self.now }
    {
        match self {
            Request::ReadProperty(_) => READ_PROPERTY,
            Request::WriteProperty(_) => WRITE_PROPERTY,
            Request::ReadRange(_) => READ_RANGE,
        }
    }

    /// Whether the service is acknowledged with a result.
    pub(crate) fn has_result(&self) -> bool
        ensures { result ≡ has_result_of self.now }
    {
        match self {
            Request::ReadProperty(_) => true,
            Request::WriteProperty(_) => false,
            Request::ReadRange(_) => true,
        }
    }

    #[tactic(auto, unfolding(crate::specs::Requests::parameters_of))]
    fn write(&self, out: &mut Datagram) -> Result<(), Full>
        requires { IsSendable self.now }
        ensures { Writes out.old (parameters_of self.now) result out.new }
    {
        match self {
            Request::ReadProperty(request) => request.write(out),
            Request::WriteProperty(request) => request.write(out),
            Request::ReadRange(request) => request.write(out),
        }
    }
}

/// Appends the APDU of a request.
#[tactic(auto, unfolding(crate::specs::Requests::request_apdu, bac_apdu::specs::Apdu::apdu_octets))]
fn add_apdu(out: &mut Datagram, invoke: u8, request: &Request) -> Result<(), Full>
    requires { IsSendable request.now }
    ensures { Adds out.old (request_apdu invoke request.now) result out.new }
{
    write_apdu(
        out,
        &Apdu::Confirmed {
            segmented: false,
            max_response: MAX_APDU as u16,
            invoke,
            service: request.service(),
            parameters: &[],
        },
    )?;
    request.write(out)
}

/// How many routers a request may pass (clause 6.2.3).
const MOST_HOPS: u8 = 255;

/// How many routers a request to a destination may pass.
fn hops_to(dest: Option<Far>) -> u8
    ensures { result ≡ hops_to (maybe_place_of dest.entry) }
{
    match dest {
        Some(_) => MOST_HOPS,
        None => 0,
    }
}

/// Writes the datagram that carries the request to one device, in place of what `out` holds: on
/// this network, or at a place behind a router. Nothing else is cleared or moved for it.
#[tactic(auto, unfolding(crate::specs::Requests::request_octets))]
pub(crate) fn write_request(
    out: &mut Datagram,
    invoke: u8,
    dest: Option<Far>,
    request: &Request,
) -> Result<(), Full>
    requires sendable { IsSendable request.now }
    requires way { IsWay (maybe_place_of dest) }
    ensures ok { OnOk result
        (out.new ≡ request_octets (towards (maybe_place_of dest.entry)) invoke request.now) }
    ensures full { IsErr result ↔ IsTooLong request.now }
{
    let npdu = Npdu {
        network: false,
        reply: true,
        priority: 0,
        dest,
        source: None,
        hops: hops_to(dest),
    };
    out.cut(0);
    match begin_datagram(out, &npdu) {
        Ok(()) => {}
        Err(_) => unreachable!(),
    }
    let heads = out.octets().len();
    add_apdu(out, invoke, request)?;
    if out.octets().len() - heads > MAX_APDU {
        return Err(Full);
    }
    end_datagram(out, 0);
    Ok(())
}
