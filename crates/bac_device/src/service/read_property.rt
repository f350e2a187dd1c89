//! ReadProperty (clause 15.5).

ghost use Rattle.std.specs.Prelude.{◌≡◌, ◌≤◌, false};
ghost use Rattle.bac_apdu.specs.Apdu.{Complex};
ghost use Rattle.bac_apdu.specs.Service.ReadProperty.{read_property_at};
ghost use Rattle.bac_objects.specs.Reading.{read_of};
ghost use Rattle.bac_device.specs.Answer.{ack_octets, answer_read, own_id, read_said};
ghost use Rattle.bac_device.specs.Reply.{datagram_octets, limited};

use crate::device::Device;
use crate::reply::{abort, begin_with, end_within, error, reject};
use bac_apdu::choice::READ_PROPERTY;
use bac_apdu::{Apdu, ReadProperty, ReadPropertyAck};
use bac_objects::Refused;
use bac_wire::{Datagram, ObjectId};

/// The ACK with these values, if it has at most `limit` octets, else an Abort.
fn acknowledge(
    out: &mut Datagram,
    limit: u16,
    invoke: u8,
    object: ObjectId,
    request: &ReadProperty,
    values: &[u8],
)
    requires { limit ≤ 1476 }
    ensures { out.new ≡ datagram_octets (limited limit invoke
        (Complex false invoke 12
        (ack_octets object request.now.property request.now.index values.now))) }
{
    let head = Apdu::Complex {
        segmented: false,
        invoke,
        service: READ_PROPERTY,
        parameters: &[],
    };
    begin_with(out, &head);
    let ack = ReadPropertyAck {
        object,
        property: request.property,
        index: request.index,
        values,
    };
    match ack.write(out) {
        Ok(()) => end_within(out, limit, invoke),
        Err(_) => abort(out, invoke),
    }
}

impl Device {
    /// The identifier that an ACK has: the device's own if the device is asked.
    fn own_id(&self, id: ObjectId) -> ObjectId
        ensures { result ≡ own_id self.now id }
    {
        if self.database.is_here(id) {
            self.database.id()
        } else {
            id
        }
    }

    /// Reads the property, and writes its ACK, Error or Abort in place of what `out` holds.
    fn read_said(&self, out: &mut Datagram, limit: u16, invoke: u8, request: &ReadProperty)
        requires { limit ≤ 1476 }
        ensures { out.new ≡ datagram_octets
            (read_said self.now limit invoke request.now (read_of self.now request.now)) }
    {
        let mut values = Datagram::new();
        match self.database.read_into(request, &mut values) {
            Ok(()) => acknowledge(
                out,
                limit,
                invoke,
                self.own_id(request.object),
                request,
                values.octets(),
            ),
            Err(Refused::Fault(fault)) => error(out, invoke, READ_PROPERTY, fault),
            Err(Refused::TooLong) => abort(out, invoke),
        }
    }

    /// The answer to a ReadProperty, in place of what `out` holds.
    pub(crate) fn answer_read(&self, out: &mut Datagram, limit: u16, invoke: u8, parameters: &[u8])
        requires { limit ≤ 1476 }
        ensures { out.new ≡ datagram_octets
            (answer_read self.now limit invoke (read_property_at parameters.now)) }
    {
        match ReadProperty::read(parameters) {
            Ok(request) => self.read_said(out, limit, invoke, &request),
            Err(reason) => reject(out, invoke, reason.code()),
        }
    }
}
