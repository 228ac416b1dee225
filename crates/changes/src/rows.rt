ghost use Rattle.std.specs.Prelude.{◌≡◌, ◌^◌, true, IsOk, OnErr, IfOk};
ghost use Rattle.shard_calls.specs.Table.{meets};
ghost use Rattle.shard_state.specs.State.{data_of, config_in, seen};
ghost use Rattle.changes.specs.Few.{AreFew};
ghost use Rattle.changes.specs.Sound.{AreSound, Fits};
ghost use Rattle.changes.specs.Makes.{Makes, IsFound, takes_no_memory};

use crate::beginning::{begin, end};
use crate::calls::{offer, send, tell};
use crate::delivery::deliver;
use crate::found::Found;
use crate::lock::{drain, intend, lapse, read, release, set_record, take};
use crate::network::{cut, give_up, lose, mend, tick};
use crate::writes::{crash, restart, write, write_local};
use shard_base::OutOfMemory;
use shard_calls::{Event, Reply};
use shard_state::Fields;

/// Changes the fields as the event's row does, and gives its reply. Want of memory changes nothing.
///
/// `found` has what the condition of a GiveUp, an Offer or a Tell has found. What an Offer sends, and what a Tell is told, is taken out of it.
pub fn change(fields: &mut Fields, event: &Event, found: &mut Found) -> Result<Reply, OutOfMemory>
    requires met { meets (config_in (data_of fields.old)) (seen (data_of fields.old)) event.now ≡ true }
    requires few { AreFew (2 ^ 20) (seen (data_of fields.old)) }
    requires sound { AreSound (config_in (data_of fields.old)) (seen (data_of fields.old)) }
    requires fits { Fits (data_of fields.old) }
    requires found { IsFound (seen (data_of fields.old)) event.now found.old }
    ensures made { IfOk result (λ reply. Makes (data_of fields.old) (data_of fields.new) event.now reply) }
    ensures err { OnErr result (data_of fields.new ≡ data_of fields.old) }
    ensures kept { takes_no_memory event.now ≡ true → IsOk result }
{
    match event {
        Event::Begin { actor, command } => begin(fields, actor, command),
        Event::Take { command } => take(fields, *command),
        Event::Read { command } => read(fields, *command),
        Event::Intend { command, alias } => intend(fields, *command, alias),
        Event::Record { command, alias } => set_record(fields, *command, alias),
        Event::Drain { command, alias } => drain(fields, *command, alias),
        Event::Release { command } => Ok(release(fields, *command)),
        Event::Lapse => Ok(lapse(fields)),
        Event::Send {
            command,
            alias,
            call,
        } => send(fields, *command, alias, call),
        Event::Deliver { message } => deliver(fields, *message),
        Event::GiveUp { command, message } => {
            Ok(give_up(fields, *command, *message, found.why))
        },
        Event::Offer { alias } => offer(fields, alias, found.offer.take()),
        Event::Write { command, alias } => write(fields, *command, alias),
        Event::Tell { command } => tell(fields, *command, found.told.take()),
        Event::Local { alias } => write_local(fields, alias),
        Event::Crash { alias, keep } => Ok(crash(fields, alias, *keep)),
        Event::Restart { alias } => Ok(restart(fields, alias)),
        Event::Cut { x, y } => cut(fields, x, y),
        Event::Mend { x, y } => Ok(mend(fields, x, y)),
        Event::Lose { message } => Ok(lose(fields, *message)),
        Event::Tick { ms } => Ok(tick(fields, *ms)),
        Event::End { command, answer } => Ok(end(fields, *command, answer)),
    }
}
