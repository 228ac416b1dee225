//! What keeps messages between declared tablets. The functions do nothing: each one's contract is a law.

ghost use Rattle.arrivals.specs.Laws.{SentIsAddressed, ChangedIsAddressed, AckIsAddressed, OfferIsAddressed};

/// The tablets of all messages stay declared where one more is sent between declared tablets, and where a message changes that keeps
/// what it carries.
pub fn messages_stay_addressed()
    ensures sent { SentIsAddressed }
    ensures changed { ChangedIsAddressed }
{}

/// What is offered goes between declared tablets, and so does the acknowledgement of an entry that did.
pub fn offers_are_addressed()
    ensures offer { OfferIsAddressed }
    ensures ack { AckIsAddressed }
{}
