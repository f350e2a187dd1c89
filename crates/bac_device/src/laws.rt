//! Laws of what a device answers. Each function does nothing: what it ensures is the law.

ghost use Rattle.bac_device.specs.Laws.{AcceptedWritesStand, AcksAreReadBack};
ghost use Rattle.bac_device.specs.Laws.{BuiltObjectsAreCommanded};
ghost use Rattle.bac_device.specs.Laws.{ObjectListKeepsTheOrderOfLines, OthersChangeNothing};
ghost use Rattle.bac_device.specs.Laws.{ReadsAreAnswered, RefusalsChangeNothing, WritesAreAnswered};
ghost use Rattle.bac_device.specs.Run.{RunsAreJoined, RunsOfDatagrams};

/// A datagram that isn't answered by a SimpleACK changes nothing, nor does one that is no
/// WriteProperty to this device alone.
pub fn refusals_change_nothing()
    ensures refused { RefusalsChangeNothing }
    ensures other { OthersChangeNothing }
{}

/// A WriteProperty to this device alone that is accepted is answered by SimpleACK, and the device
/// is then the one with what was written.
pub fn writes_are_answered()
    ensures { WritesAreAnswered }
{}

/// After any datagrams, each slot of an object has what the last accepted write to it set, and its
/// present value is that of the first slot that isn't Null.
pub fn accepted_writes_stand()
    ensures { AcceptedWritesStand }
{}

/// After any datagrams to a device that was built of lines, each object has at each priority what
/// the last accepted write at it set, else Null, and its present value is that of the least
/// priority that isn't Null, else its line's default.
pub fn built_objects_are_commanded()
    ensures { BuiltObjectsAreCommanded }
{}

/// After any datagrams to a device that was built of lines, its object list has the device and then
/// the objects in the order of their lines.
pub fn object_list_keeps_the_order_of_lines()
    ensures { ObjectListKeepsTheOrderOfLines }
{}

/// What an ACK has is read back.
pub fn acks_are_read_back()
    ensures { AcksAreReadBack }
{}

/// A ReadProperty to this device alone is answered by the ACK with the values that are read, within
/// the limit: so what stands after writes is what is sent.
pub fn reads_are_answered()
    ensures { ReadsAreAnswered }
{}

/// A run of datagrams, samples and clock steps is that of its first events and then that of the
/// rest, so each event finds what those before it left; datagrams alone leave what the other laws
/// say of them.
pub fn runs_are_joined()
    ensures joined { RunsAreJoined }
    ensures datagrams { RunsOfDatagrams }
{}
