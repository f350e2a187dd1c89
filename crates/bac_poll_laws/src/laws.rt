//! Laws of polls. Each function does nothing: what it ensures is the law.

ghost use Rattle.bac_poll_laws.specs.Asks.{AsksOnceMore};
ghost use Rattle.bac_poll_laws.specs.Backwards.{BackwardsAreFew, NoneIsBegunAgain};
ghost use Rattle.bac_poll_laws.specs.Bounds.{QuestionsAreBounded};
ghost use Rattle.bac_poll_laws.specs.ByHeld.{QuestionsByHeld};
ghost use Rattle.bac_poll_laws.specs.ByRecords.{QuestionsByRecords};
ghost use Rattle.bac_poll_laws.specs.Caught.{PollsDeliver};
ghost use Rattle.bac_poll_laws.specs.Empty.{EmptyEnds};
ghost use Rattle.bac_poll_laws.specs.Firsts.{FirstsDeliver};
ghost use Rattle.bac_poll_laws.specs.Gaps.{GapsAreGone};
ghost use Rattle.bac_poll_laws.specs.Held.{HeldIsKept};
ghost use Rattle.bac_poll_laws.specs.Laws.{BeginsStanding, EachShownOnce, EpochsAreWhole};
ghost use Rattle.bac_poll_laws.specs.Logged.{KeptIsLogged, SaidIsShown};
ghost use Rattle.bac_poll_laws.specs.Questions.{QuestionsAreFew};

/// Whatever is answered, each number comes once, from the one that comes next or the beginning of
/// an epoch up to the one that comes next then; and each record that is kept was shown.
pub fn each_shown_once()
    ensures { EachShownOnce }
{}

/// A poll of a log stands where its rows do.
pub fn begins_standing()
    ensures { BeginsStanding }
{}

/// Whatever is answered, one answer after the other, what is kept of an epoch covers each number
/// once, from its first up to the one that comes next.
pub fn epochs_are_whole()
    ensures { EpochsAreWhole }
{}

/// A reply by the standard shows none but records that the log holds.
pub fn said_is_shown()
    ensures { SaidIsShown }
{}

/// Where a device answers by the standard, of a log that goes on, each record that is kept is an
/// entry of the log under its number; and each number comes once.
pub fn kept_is_logged()
    ensures { KeptIsLogged }
{}

/// Where a device says what its log holds, of a log that goes on, what a gap that isn't doubtful
/// covers isn't held when it is put.
pub fn gaps_are_gone()
    ensures { GapsAreGone }
{}

/// A log whose newest known record is shown as it is known is asked once where nothing is newer,
/// and once more for each reply with news, of which nothing that is known is kept.
pub fn asks_once_more()
    ensures { AsksOnceMore }
{}

/// Where a device says what its log holds, of a log that goes on, a poll delivers the log from the
/// ordinal on at which its rows stand: each ordinal once, in a record of it that was held, or in a
/// gap that lies over what was gone, or is doubtful and lies over records that came. A poll that
/// ends as caught up has delivered it up to the newest record that was held at the moment of the
/// last answer by which records were kept, or of one behind it.
pub fn polls_deliver()
    ensures { PollsDeliver }
{}

/// A log that goes on, and whose newest known record is shown as it is known, costs one question
/// more than there are replies with news; two more at most where LAST_ITEM isn't set.
pub fn questions_are_few()
    ensures { QuestionsAreFew }
{}

/// Whatever is answered, a log that stands in its rows costs twenty-one questions at most, one of
/// which nothing is kept yet three; and one more for each question backwards, three where that is
/// begun again, and seventeen for each answer by which records are kept.
pub fn questions_are_bounded()
    ensures { QuestionsAreBounded }
{}

/// Where a device says what its log holds, of a log that goes on, a poll from where its rows stand
/// costs twenty-one questions at most, one more for each that is backwards, and seventeen for each
/// record that is kept.
pub fn questions_by_records()
    ensures { QuestionsByRecords }
{}

/// Where replies show none but records that the log holds, a log that goes on costs
/// 21 + 17 k + 12 (k + 1) h questions at most from where its rows stand, and
/// 3 + 17 k + 4 (3 k + 1) h in a first run: k records are kept, and h ordinals lie from the oldest
/// to the newest that it held.
pub fn questions_by_held()
    ensures { QuestionsByHeld }
{}

/// Where a device says what its log holds, of a log that goes on, each two questions backwards, one
/// after the other, bring an older record, down to the oldest that was held.
pub fn backwards_are_few()
    ensures { BackwardsAreFew }
{}

/// A poll of such a log never begins them again because the first of what came is another record
/// by then.
pub fn none_is_begun_again()
    ensures { NoneIsBegunAgain }
{}

/// Of a log that goes on, a poll that ends as caught up, with no new epoch and no doubtful gap, has
/// kept each record once that the log held then, from the ordinal on at which its rows stood, and
/// that wasn't dropped by the last answer.
pub fn held_is_kept()
    ensures { HeldIsKept }
{}

/// Where a device says what its log holds, of a log that goes on, a poll that knows no record of
/// it, in a first run or of a new epoch, delivers it from the beginning of the epoch on.
pub fn firsts_deliver()
    ensures { FirstsDeliver }
{}

/// A first run of a log that shows no record keeps none, and ends behind two questions, if nothing
/// was logged, and else behind three: as caught up, at the number behind the count; where the count
/// is refused, and a run before put a beginning on record by it, as a log that shows none.
pub fn empty_ends()
    ensures { EmptyEnds }
{}
