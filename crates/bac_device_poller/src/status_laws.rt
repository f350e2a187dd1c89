//! What the status of a device's poll says, whoever answers.

ghost use Rattle.bac_device_poller.specs.StatusLaws.{LogsAreCounted, StatusIsTold};

/// The status of a device's poll never falls, and rises only with what is told, or as the device is
/// left. It is no less than that of why it is.
pub fn status_is_told()
    ensures { StatusIsTold }
{}

/// A log whose poll ends leaves no less than the status of how it does.
pub fn logs_are_counted()
    ensures { LogsAreCounted }
{}
