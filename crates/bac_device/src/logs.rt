//! Laws of a device's trend logs. Each function does nothing: what it ensures is the law.

ghost use Rattle.std.specs.Prelude.{◌≡◌, ◌<◌, ◌≤◌, ℕ, List, Option, Ok, Some, None, min};
ghost use Rattle.bac_wire.specs.Primitive.{Id};
ghost use Rattle.bac_wire.specs.Stamp.{CivilTime};
ghost use Rattle.bac_apdu.specs.Npdu.{Place};
ghost use Rattle.bac_apdu.specs.Route.{IsWay};
ghost use Rattle.bac_apdu.specs.Service.Extent.{IsExtent};
ghost use Rattle.bac_apdu.specs.declared.service.extent.Extent.{Extent as AnyExtent};
ghost use Rattle.bac_log.specs.TrendLog.{IsLog, Log};
ghost use Rattle.bac_objects.specs.Build.{built};
ghost use Rattle.bac_objects.specs.Sampling.{log_id, log_of, sampled, ticked};
ghost use Rattle.bac_objects.specs.Sound.{HasLogs};
ghost use Rattle.bac_objects.specs.State.{State};
ghost use Rattle.bac_objects.specs.declared.fault.Fault.TheVariants as Fault;
ghost use Rattle.bac_objects.specs.declared.lines.DeviceLine.{DeviceLine};
ghost use Rattle.bac_objects.specs.declared.lines.ObjectLine.{ObjectLine};
ghost use Rattle.bac_device.specs.Answer.{answer, records_ack, records_said};
ghost use Rattle.bac_device.specs.Logs.{Keeps, OtherWritesLeaveLogs, SamplesAppend, TicksAppend};
ghost use Rattle.bac_device.specs.Logs.{RangesAreAnswered, RangesAreNotAborted, question_octets};
ghost use Rattle.bac_device.specs.Reply.{error, reply};
ghost use Rattle.bac_device.specs.declared.reply.Receiver.TheVariants as Receiver;

/// A datagram, a sample and the passing of time move each trend log by at most one step, and leave
/// the device's identifier, its reply size and the identifiers of its objects.
pub fn logs_move_by_steps()
    ensures answer { (d : State) (datagram : List ℕ) → Keeps d (answer d datagram).1 }
    ensures sample { (d : State) (instance : ℕ) (said : ℕ × State) → sampled d instance ≡ Ok said
        → Keeps d said.1 }
    ensures advance { (d : State) (stamp : CivilTime) → Keeps d (ticked d stamp) }
{}

/// A sample on demand appends what the log's source shows at the device's clock, and leaves every
/// other log.
pub fn samples_append()
    ensures { SamplesAppend }
{}

/// As the clock goes on, each log that is due and enabled appends what its source showed before,
/// while sequence numbers are left; every other log stays.
pub fn ticks_append()
    ensures { TicksAppend }
{}

/// A datagram that is no WriteProperty to a log leaves its records as they are.
pub fn other_writes_leave_logs()
    ensures { OtherWritesLeaveLogs }
{}

/// In a device that was built of lines each object of the type Trend Log has records.
pub fn built_devices_have_logs()
    ensures { (device : DeviceLine) (lines : List ObjectLine) → HasLogs (built device lines) }
{}

/// A question for the records of a log of the device is answered by that log, within the reply size
/// and 1476 octets, and changes nothing.
pub fn questions_are_answered()
    ensures { (d : State) (source : Option Place) (n : ℕ) (log : Log) (invoke : ℕ)
        (extent : AnyExtent) → IsWay source → log_of d n ≡ Some log → IsExtent extent
        → answer d (question_octets source invoke n extent)
        ≡ (
          Some (reply (record { to = Receiver.Sender; place = source })
              (records_said (min 1476 d.reply_size) invoke (log_id n) extent log)),
          d,
        ) }
{}

/// A question for the records of a log that isn't there is answered by the Error object,
/// unknown-object, and changes nothing.
pub fn questions_for_no_log_are_refused()
    ensures { (d : State) (source : Option Place) (n : ℕ) (invoke : ℕ) (extent : AnyExtent)
        → IsWay source → HasLogs d → log_of d n ≡ None → n < 4194304 → IsExtent extent
        → answer d (question_octets source invoke n extent)
        ≡ (
          Some (reply (record { to = Receiver.Sender; place = source })
              (error invoke 26 Fault.UnknownObject)),
          d,
        ) }
{}

/// An answer of 44 octets holds a record of any log, so no question for records is answered by an
/// Abort if the limit is that high, and a device's reply size is.
pub fn records_fit()
    ensures { (limit invoke : ℕ) (object : Id) (extent : AnyExtent) (log : Log) → IsLog log
        → 44 ≤ limit
        → records_said limit invoke object extent log ≡ records_ack limit invoke object extent log }
{}

/// No unsegmented ReadRange is ever answered by an Abort, however small the answer that it takes:
/// to this device alone it is answered by the records that fit, the first error, or a Reject.
pub fn read_ranges_are_not_aborted()
    ensures never { RangesAreNotAborted }
    ensures answered { RangesAreAnswered }
{}
