//! What a resumable command acts through.

ghost use Rattle.std.specs.Prelude.{◌≡◌, List, IfOk, OnOk, OnErr};
ghost use Rattle.shard_calls.specs.declared.group.Group.{Group};
ghost use Rattle.courses.specs.Sound.{IsFounded};
ghost use Rattle.turns.specs.Turns.{Shown, Released, Ended, span_of, OnlyOthers, OneMore, DidOrWaits, Looked, LookedToGiveUp};

use courses::Want;
use shard_base::OutOfMemory;
use shard_calls::{CommandAnswer, Deed, Outcome, Why};

/// Why a floor makes no more events.
#[derive(Clone, Copy, Debug, PartialEq, Eq)]
pub enum Halt {
    /// Memory ran out.
    OutOfMemory,
    /// There is no room for a further event.
    Full,
}

impl From<OutOfMemory> for Halt {
    fn from(_want: OutOfMemory) -> Halt {
        Halt::OutOfMemory
    }
}

/// What a command acts through. Others may make events before each call's own; where a call answers an `Err`, they alone did.
pub trait Floor {
    /// The steps that it has shown.
    ghost shown: { Self → List Shown };

    /// Whose tablets it acts on. That stays.
    ghost group: { Self → Group };

    /// Does what is wanted, and gives the deed, or none where the command's entry cannot be told of yet. In a call that is wanted `until`
    /// is a timeout in milliseconds, to which the floor adds the clock.
    fn does(&mut self, command: u64, want: &Want) -> Result<Option<Deed>, Halt>
        requires founded { IsFounded (group self.old) (span_of command (shown self.old)) want.now }
        ensures ok { IfOk result (λ done. DidOrWaits command (shown self.old) (shown self.new) want.now done) }
        ensures err { OnErr result (OnlyOthers command (shown self.old) (shown self.new)) }
        ensures group { group self.new ≡ group self.old };

    /// What the call has come to. It makes no event of the command.
    fn receive(&mut self, command: u64, message: u64) -> Result<Option<Outcome>, Halt>
        ensures ok { IfOk result (λ found. Looked command (shown self.old) (shown self.new) message found) }
        ensures err { OnErr result (OnlyOthers command (shown self.old) (shown self.new)) }
        ensures group { group self.new ≡ group self.old };

    /// Waits no longer for the call, if it is out and there is a cause.
    fn give_up(&mut self, command: u64, message: u64) -> Result<Option<Why>, Halt>
        ensures ok { IfOk result (λ why. LookedToGiveUp command (shown self.old) (shown self.new) message why) }
        ensures err { OnErr result (OnlyOthers command (shown self.old) (shown self.new)) }
        ensures group { group self.new ≡ group self.old };

    /// Frees the lock.
    fn release(&mut self, command: u64) -> Result<(), Halt>
        ensures ok { OnOk result (OneMore command (shown self.old) (shown self.new) (Released command)) }
        ensures err { OnErr result (OnlyOthers command (shown self.old) (shown self.new)) }
        ensures group { group self.new ≡ group self.old };

    /// Ends the command.
    fn end(&mut self, command: u64, answer: &CommandAnswer) -> Result<(), Halt>
        ensures ok { OnOk result (OneMore command (shown self.old) (shown self.new) (Ended command answer.now)) }
        ensures err { OnErr result (OnlyOthers command (shown self.old) (shown self.new)) }
        ensures group { group self.new ≡ group self.old };
}
