//! Whose records a ReadRange asks for (clause 15.8).

ghost use Rattle.std.specs.Prelude.{◌≡◌};
ghost use Rattle.bac_wire.specs.Chain.{Gives};
ghost use Rattle.bac_objects.specs.Properties.{device_table, row};
ghost use Rattle.bac_objects.specs.Records.{buffer_of, device_refusal, object_records, records_of};
ghost use Rattle.bac_objects.specs.Writing.{checked};

use crate::database::Database;
use crate::fault::Fault;
use crate::object::{Body, Object};
use crate::property_id::LOG_BUFFER;
use crate::writing::checked;
use bac_apdu::ReadRange;
use bac_log::TrendLog;

impl Body {
    /// The log whose records a property shows.
    fn buffer(&self, property: u32) -> Result<&TrendLog, Fault>
        ensures { Gives (λ log. log.now) result (buffer_of property self.now) }
    {
        match self {
            Body::Command(_) => Err(Fault::NotList),
            Body::Log(logger) => {
                if property == LOG_BUFFER {
                    Ok(&logger.log)
                } else {
                    Err(Fault::NotList)
                }
            }
        }
    }
}

impl Object {
    /// The log whose records a request asks for.
    fn records(&self, request: &ReadRange) -> Result<&TrendLog, Fault>
        ensures { Gives (λ log. log.now) result (object_records request.now self.now) }
    {
        checked(
            &self.property(request.object, request.property),
            request.index,
        )?;
        self.body.buffer(request.property)
    }
}

impl Database {
    /// Why the device itself has no records.
    fn device_refusal(&self, request: &ReadRange) -> Fault
        ensures { result ≡ device_refusal
            (checked (row request.now.property (device_table self.now)) request.now.index) }
    {
        match checked(&self.property(request.property), request.index) {
            Ok(()) => Fault::NotList,
            Err(fault) => fault,
        }
    }

    /// The log whose records a request asks for. The first fault decides: no such object, no such
    /// property, an index into what is no array, a property without records (clause 15.8.2).
    pub fn records(&self, request: &ReadRange) -> Result<&TrendLog, Fault>
        ensures { Gives (λ log. log.now) result (records_of self.now request.now) }
    {
        if self.is_device(request.object) {
            return Err(self.device_refusal(request));
        }
        match self.object(request.object) {
            Some(object) => object.records(request),
            None => Err(Fault::UnknownObject),
        }
    }
}
