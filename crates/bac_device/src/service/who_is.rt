//! Who-Is and I-Am (clause 16.10).

ghost use Rattle.std.specs.Prelude.{◌≡◌, [], is_some};
ghost use Rattle.bac_apdu.specs.Service.WhoIs.{who_is_at};
ghost use Rattle.bac_device.specs.Answer.{announced, asks_for, i_am_apdu};
ghost use Rattle.bac_device.specs.Reply.{datagram_octets, said_octets};

use crate::device::Device;
use crate::reply::{begin_with, end};
use bac_apdu::choice::I_AM;
use bac_apdu::{Apdu, IAm, WhoIs};
use bac_wire::Datagram;

/// No segmentation in either direction (clause 21, BACnetSegmentation).
const NO_SEGMENTATION: u32 = 3;

impl Device {
    /// Its I-Am as a whole datagram, in place of what `out` holds.
    fn announce(&self, out: &mut Datagram)
        ensures { out.new ≡ datagram_octets (i_am_apdu self.now) }
    {
        let head = Apdu::Unconfirmed {
            service: I_AM,
            parameters: &[],
        };
        begin_with(out, &head);
        let announcement = IAm {
            device: self.database.id(),
            max_apdu: u64::from(self.database.reply_size()),
            segmentation: NO_SEGMENTATION,
            vendor: u64::from(self.database.vendor()),
        };
        announcement.write(out).unwrap();
        end(out);
    }

    /// Whether limits ask for this device.
    fn is_asked(&self, limits: Option<(u32, u32)>) -> bool
        ensures { result ≡ asks_for self.now.instance limits }
    {
        let instance = self.database.instance();
        match limits {
            Some((low, high)) => low <= instance && instance <= high,
            None => true,
        }
    }

    /// The answer to a Who-Is, and whether there is one: if it asks for this device.
    pub(crate) fn answer_who_is(&self, out: &mut Datagram, parameters: &[u8]) -> bool
        requires { out.old ≡ [] }
        ensures answered { result ≡ is_some (announced self.now (who_is_at parameters.now)) }
        ensures apdu { out.new ≡ said_octets (announced self.now (who_is_at parameters.now)) }
    {
        match WhoIs::read(parameters) {
            Some(who_is) => {
                let asked = self.is_asked(who_is.limits);
                if asked {
                    self.announce(out);
                }
                asked
            }
            None => false,
        }
    }
}
