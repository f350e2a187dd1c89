//! Laws of invoke IDs that go on. Each function does nothing: what it ensures is the law.

ghost use Rattle.bac_invoke_ids.specs.Laws.{AnswersSayTheSame, AnswersStay, AsksAreBelow};
ghost use Rattle.bac_invoke_ids.specs.Laws.{LateAnswersAreNone, QuestionsGoOn, QuestionsStay};
ghost use Rattle.bac_invoke_ids.specs.Several.{SeveralGoOn};

use crate::ports::OnwardPort;
use bac_ports::Port;

/// A question is sent as the same request with another invoke ID.
pub fn questions_stay()
    ensures { QuestionsStay }
{}

/// An answer says the same as it is taken as it did when it came, with another invoke ID.
pub fn answers_say_the_same()
    ensures { AnswersSayTheSame }
{}

/// A datagram answers a question, as it is taken over a port, exactly if it answers what was sent
/// for that question, as it came.
pub fn answers_stay()
    ensures { AnswersStay }
{}

/// Questions whose invoke IDs go on by one are sent with IDs that go on by one behind the last
/// question before the port was opened.
pub fn questions_go_on()
    ensures { QuestionsGoOn }
{}

/// Several devices are asked over one port, beside one another: each of their questions is sent
/// with the ID that is its number among those to its device behind the last one before the port was
/// opened, and the next port goes on behind the device that was asked most.
pub fn several_go_on()
    ensures { SeveralGoOn }
{}

/// An answer to a question that was asked before a port was opened, which comes late or once more,
/// isn't taken for an answer to one of the questions over that port, unless 256 were asked from the
/// one to the other (clause 5.4.4).
pub fn late_answers_are_none()
    ensures { LateAnswersAreNone }
{}

/// What is asked over such a port is asked over the port below, with another invoke ID, and has the
/// same answer but for that.
pub fn asks_are_below<P: Port>()
    ensures { AsksAreBelow ⟦<OnwardPort<P> as Port>⟧.sends ⟦<OnwardPort<P> as Port>⟧.receives
        P.sends P.receives }
{}
