//! The same once more, of what a command was replied and answered.

ghost use Rattle.std.specs.Prelude.{◌≡◌, IfOk};
ghost use Rattle.shard_calls.specs.declared.answer.Answer.TheVariants as answers;

use gtid_sets::GtidSet;
use shard_base::OutOfMemory;
use shard_calls::{Answer, Seen, Stand};
use topo_lock::LockTaken;

fn copy_status(
    seen: u64,
    promised: u64,
    stand: &Stand,
    newest: u64,
    position: &GtidSet,
) -> Result<Answer, OutOfMemory>
    ensures { IfOk result (λ copy. copy ≡ answers.Status seen promised stand.now newest position.now) }
{
    let position = position.copy()?;
    Ok(Answer::Status {
        seen,
        promised,
        stand: *stand,
        newest,
        position,
    })
}

fn copy_stopped(newest: u64, position: &GtidSet) -> Result<Answer, OutOfMemory>
    ensures { IfOk result (λ copy. copy ≡ answers.Stopped newest position.now) }
{
    let position = position.copy()?;
    Ok(Answer::Stopped { newest, position })
}

fn copy_demoted(newest: u64, position: &GtidSet) -> Result<Answer, OutOfMemory>
    ensures { IfOk result (λ copy. copy ≡ answers.Demoted newest position.now) }
{
    let position = position.copy()?;
    Ok(Answer::Demoted { newest, position })
}

fn copy_promoted(position: &GtidSet) -> Result<Answer, OutOfMemory>
    ensures { IfOk result (λ copy. copy ≡ answers.Promoted position.now) }
{
    let position = position.copy()?;
    Ok(Answer::Promoted { position })
}

fn copy_not_caught_up(missing: &GtidSet) -> Result<Answer, OutOfMemory>
    ensures { IfOk result (λ copy. copy ≡ answers.NotCaughtUp missing.now) }
{
    let missing = missing.copy()?;
    Ok(Answer::NotCaughtUp { missing })
}

fn copy_errant(extra: &GtidSet) -> Result<Answer, OutOfMemory>
    ensures { IfOk result (λ copy. copy ≡ answers.Errant extra.now) }
{
    let extra = extra.copy()?;
    Ok(Answer::Errant { extra })
}

/// The same answer once more.
pub(crate) fn copy_answer(answer: &Answer) -> Result<Answer, OutOfMemory>
    ensures { IfOk result (λ copy. copy ≡ answer.now) }
{
    match answer {
        Answer::Status {
            seen,
            promised,
            stand,
            newest,
            position,
        } => copy_status(*seen, *promised, stand, *newest, position),
        Answer::Stopped { newest, position } => copy_stopped(*newest, position),
        Answer::Demoted { newest, position } => copy_demoted(*newest, position),
        Answer::Promoted { position } => copy_promoted(position),
        Answer::Joined => Ok(Answer::Joined),
        Answer::Feeding => Ok(Answer::Feeding),
        Answer::Holds => Ok(Answer::Holds),
        Answer::Told => Ok(Answer::Told),
        Answer::NotTold => Ok(Answer::NotTold),
        Answer::Kept { stand } => Ok(Answer::Kept { stand: *stand }),
        Answer::StaleTerm { seen } => Ok(Answer::StaleTerm { seen: *seen }),
        Answer::PromisedAhead { promised } => Ok(Answer::PromisedAhead {
            promised: *promised,
        }),
        Answer::NotCaughtUp { missing } => copy_not_caught_up(missing),
        Answer::Errant { extra } => copy_errant(extra),
        Answer::NotStanding { newest } => Ok(Answer::NotStanding { newest: *newest }),
    }
}

/// The same once more, of what was read.
pub(crate) fn copy_seen(seen: &Seen) -> Result<Seen, OutOfMemory>
    ensures { IfOk result (λ copy. copy ≡ seen.now) }
{
    let drained = seen.drained.copied()?;
    Ok(Seen {
        recorded: seen.recorded,
        intent: seen.intent,
        drained,
    })
}

/// The same reply to a Read once more.
pub(crate) fn copy_read(reply: &Result<Seen, u64>) -> Result<Result<Seen, u64>, OutOfMemory>
    ensures { IfOk result (λ copy. copy ≡ reply.now) }
{
    match reply {
        Ok(seen) => {
            let seen = copy_seen(seen)?;
            Ok(Ok(seen))
        }
        Err(term) => Ok(Err(*term)),
    }
}

/// The same reply to a Take once more.
pub(crate) fn copy_taken(reply: &Result<u64, LockTaken>) -> Result<u64, LockTaken>
    ensures { result ≡ reply.now }
{
    match reply {
        Ok(term) => Ok(*term),
        Err(held) => Err(*held),
    }
}

/// The same reply to an Intend, a Record or a Drain once more.
pub(crate) fn copy_set(reply: &Result<(), u64>) -> Result<(), u64>
    ensures { result ≡ reply.now }
{
    match reply {
        Ok(()) => Ok(()),
        Err(term) => Err(*term),
    }
}
