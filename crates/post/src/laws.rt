//! What the kept numbers are. The functions do nothing: each one's contract is a law.

ghost use Rattle.post.specs.Laws.{InboxIsExact, InboxRises, WaitingIsExact, WaitingRises, AnswersAreExact, AnswersRise};

/// The numbers that wait for a receiver are those of its messages that have not come and are not lost, rising.
pub fn inbox_is_exact()
    ensures exact { InboxIsExact }
    ensures rising { InboxRises }
{}

/// The numbers that wait on a direction are those of its messages that have not come and are not lost, rising.
pub fn waiting_is_exact()
    ensures exact { WaitingIsExact }
    ensures rising { WaitingRises }
{}

/// The numbers of the answers to a call are those of the messages that answer it, rising.
pub fn answers_are_exact()
    ensures exact { AnswersAreExact }
    ensures rising { AnswersRise }
{}
