//! What a device's poll sends, and whom it asks no more, whoever answers. Each function does
//! nothing: what it ensures is the law.

ghost use Rattle.bac_device_poller.specs.Laws.{SendsQuestions};
ghost use Rattle.bac_device_poller.specs.Silence.{AsksNoMore, EndedAreOut, EndsAsTold, EndsSilent};
ghost use Rattle.bac_device_poller.specs.Silence.{LostStopsNone, PollsOnce, WaitsOnce};
ghost use Rattle.bac_device_poller.specs.Silence.{WaitsOnceFirst};

/// What is sent to ask is the question of the device's poll, to the device.
pub fn sends_questions()
    ensures { SendsQuestions }
{}

/// A device that falls silent, once it told who it is, is waited for once, and for one wait more,
/// however many logs it has: it is sent a question with its repeats, and the next one once; its
/// whole Object_List and how many elements that has are one question. One that never answers is
/// sent its first question with its repeats.
pub fn waits_once()
    ensures once { WaitsOnce }
    ensures first { WaitsOnceFirst }
{}

/// Where that isn't answered either, nothing more is asked of it, and each log that waits is told
/// as not asked.
pub fn ends_silent()
    ensures { EndsSilent }
{}

/// A log that is lost, while its device answers, stops no other: the next one is polled.
pub fn lost_stops_none()
    ensures { LostStopsNone }
{}

/// A device whose poll has ended is sent nothing more.
pub fn asks_no_more()
    ensures ends { EndsAsTold }
    ensures ended { AsksNoMore }
{}

/// Each log is polled once, in its turn: one whose poll has ended isn't asked again.
pub fn polls_once()
    ensures ended { EndedAreOut }
    ensures once { PollsOnce }
{}
