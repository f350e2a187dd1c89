//! ReadRange (clause 15.8).

ghost use Rattle.std.specs.Prelude.{◌≡◌, ◌≤◌, None};
ghost use Rattle.bac_apdu.specs.Service.ReadRange.{read_range_at};
ghost use Rattle.bac_log.specs.Ack.{log_buffer};
ghost use Rattle.bac_objects.specs.Records.{records_of};
ghost use Rattle.bac_device.specs.Answer.{answer_range, range_said, records_said};
ghost use Rattle.bac_device.specs.Reply.{datagram_octets};

use crate::device::Device;
use crate::reply::{abort, begin, end_within, error, reject};
use bac_apdu::ReadRange;
use bac_apdu::choice::READ_RANGE;
use bac_log::TrendLog;
use bac_wire::Datagram;

/// The answer of a log: as many of the records asked for as fit, or an Abort if not one does.
fn log_answer(out: &mut Datagram, log: &TrendLog, limit: u16, invoke: u8, request: &ReadRange)
    requires limit { limit ≤ 1476 }
    requires buffer { request.now.property ≡ log_buffer }
    requires index { request.now.index ≡ None }
    ensures { out.new ≡ datagram_octets
        (records_said limit invoke request.now.object request.now.extent log.now) }
{
    begin(out);
    match log.answer_into(invoke, request, limit as usize, out) {
        Ok(_) => end_within(out, limit, invoke),
        Err(_) => abort(out, invoke),
    }
}

impl Device {
    /// Finds the log, and writes its ACK, Error or Abort in place of what `out` holds.
    fn range_said(&self, out: &mut Datagram, limit: u16, invoke: u8, request: &ReadRange)
        requires { limit ≤ 1476 }
        ensures { out.new ≡ datagram_octets
            (range_said limit invoke request.now (records_of self.now request.now)) }
    {
        match self.database.records(request) {
            Ok(log) => log_answer(out, log, limit, invoke, request),
            Err(fault) => error(out, invoke, READ_RANGE, fault),
        }
    }

    /// The answer to a ReadRange, in place of what `out` holds.
    pub(crate) fn answer_range(&self, out: &mut Datagram, limit: u16, invoke: u8, parameters: &[u8])
        requires { limit ≤ 1476 }
        ensures { out.new
            ≡ datagram_octets (answer_range self.now limit invoke (read_range_at parameters.now)) }
    {
        match ReadRange::read(parameters) {
            Ok(request) => self.range_said(out, limit, invoke, &request),
            Err(reason) => reject(out, invoke, reason.code()),
        }
    }
}
