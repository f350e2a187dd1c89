//! WriteProperty (clause 15.9).

ghost use Rattle.std.specs.Prelude.{◌≡◌};
ghost use Rattle.bac_apdu.specs.Service.WriteProperty.{write_property_at};
ghost use Rattle.bac_device.specs.Answer.{answer_write};
ghost use Rattle.bac_device.specs.Reply.{datagram_octets};

use crate::device::Device;
use crate::reply::{error, reject, simple};
use bac_apdu::WriteProperty;
use bac_apdu::choice::WRITE_PROPERTY;
use bac_wire::Datagram;

impl Device {
    /// The answer to a WriteProperty, in place of what `out` holds, and what the device is after
    /// it.
    pub(crate) fn answer_write(&mut self, out: &mut Datagram, invoke: u8, parameters: &[u8])
        ensures apdu { out.new
            ≡ datagram_octets (answer_write self.old invoke (write_property_at parameters.now)).0 }
        ensures state { self.new
            ≡ (answer_write self.old invoke (write_property_at parameters.now)).1 }
    {
        match WriteProperty::read(parameters) {
            Ok(request) => match self.database.write(&request) {
                Ok(()) => simple(out, invoke, WRITE_PROPERTY),
                Err(fault) => error(out, invoke, WRITE_PROPERTY, fault),
            },
            Err(reason) => reject(out, invoke, reason.code()),
        }
    }
}
