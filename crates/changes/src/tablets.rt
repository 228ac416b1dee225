//! What becomes of one tablet that is found by its alias.

ghost use Rattle.std.specs.Prelude.{◌≡◌, ◌≤◌, ℕ, List, true, false, length, OnOk, OnErr, IfOk, IfSome, Some};
ghost use Rattle.shard_names.specs.Tablets.{tablet_of, is_declared};
ghost use Rattle.shard_names.specs.declared.tablet.Tablet.{Tablet};
ghost use Rattle.gtid_sets.specs.Logs.{greatest_number, next_gtid};
ghost use Rattle.shard_calls.specs.Stands.{is_down, primary_term};
ghost use Rattle.shard_calls.specs.Begins.{shown_of};
ghost use Rattle.shard_calls.specs.Tablets.{after_crash, restarts, writes_local, writes};
ghost use Rattle.shard_calls.specs.Writes.{written_reply};
ghost use Rattle.tablet_manager.specs.Managed.{state_of, SameTablet};
ghost use Rattle.shard_state.specs.State.{state_at, tablets_of};
ghost use Rattle.changes.specs.Places.{Changes, Becomes};

use gtid_sets::Gtid;
use shard_base::OutOfMemory;
use shard_calls::{Reply, Shown, Stand, Written};
use shard_names::Alias;
use shard_state::find_manager;
use tablet_manager::Manager;

/// The tablet goes down. It takes no memory.
pub(crate) fn crash_at(managers: &mut Vec<Manager>, alias: &Alias)
    requires { is_declared (tablets_of managers.old.items) alias.now ≡ true }
    ensures { Changes managers.old.items managers.new.items alias.now (after_crash (state_at managers.old.items alias.now)) }
{
    match find_manager(managers, alias) {
        Some(at) => managers[at].crash(),
        None => unreachable!(),
    }
}

fn restart_in(manager: &mut Manager)
    ensures state { state_of manager.new ≡ (restarts (state_of manager.old)).state }
    ensures who { SameTablet manager.old manager.new }
{
    let _up = manager.restart();
}

/// The tablet comes up.
pub(crate) fn restart_at(managers: &mut Vec<Manager>, alias: &Alias)
    requires { is_declared (tablets_of managers.old.items) alias.now ≡ true }
    ensures { Changes managers.old.items managers.new.items alias.now (restarts (state_at managers.old.items alias.now)).state }
{
    match find_manager(managers, alias) {
        Some(at) => restart_in(&mut managers[at]),
        None => unreachable!(),
    }
}

/// What came of a write.
fn written_reply(written: &Written) -> Reply
    ensures { result ≡ written_reply written.now }
{
    match written {
        Written::Entry(gtid) => Reply::Wrote { gtid: *gtid },
        Written::NotPrimary(stand) => Reply::NotPrimary {
            stand: stand.standing(),
        },
    }
}

/// An entry is written at the tablet itself.
pub(crate) fn write_local_at(
    managers: &mut Vec<Manager>,
    alias: &Alias,
) -> Result<Reply, OutOfMemory>
    requires declared { is_declared (tablets_of managers.old.items) alias.now ≡ true }
    requires numbered { (server : List ℕ) → greatest_number server (state_at managers.old.items alias.now).log ≤ 9223372036854775805 }
    ensures state { OnOk result (Becomes managers.old.items managers.new.items alias.now (λ me s. (writes_local me s).state)) }
    ensures reply { IfOk result (λ reply. (me : Tablet) → tablet_of (tablets_of managers.old.items) alias.now ≡ Some me → reply ≡ written_reply (writes_local me (state_at managers.old.items alias.now)).says) }
    ensures err { OnErr result (managers.new.items ≡ managers.old.items) }
{
    match find_manager(managers, alias) {
        Some(at) => {
            let written = managers[at].local_write()?;
            Ok(written_reply(&written))
        }
        None => unreachable!(),
    }
}

/// How the tablet stands, and what its log has.
pub(crate) fn show(managers: &[Manager], alias: &Alias) -> Result<Shown, OutOfMemory>
    requires declared { is_declared (tablets_of managers.now) alias.now ≡ true }
    ensures { IfOk result (λ shown. shown ≡ shown_of (state_at managers.now alias.now)) }
{
    match find_manager(managers, alias) {
        Some(at) => {
            let manager = &managers[at];
            let position = manager.log().held().copy()?;
            Ok(Shown {
                stand: *manager.stand(),
                position,
            })
        }
        None => unreachable!(),
    }
}

/// The term in which it is the primary.
pub(crate) fn primary_term(stand: &Stand) -> Option<u64>
    ensures { result ≡ primary_term stand.now }
{
    match stand {
        Stand::Primary { term } => Some(*term),
        _ => None,
    }
}

/// How the tablet stands.
pub(crate) fn stand_at(managers: &[Manager], alias: &Alias) -> Stand
    requires declared { is_declared (tablets_of managers.now) alias.now ≡ true }
    ensures { result ≡ (state_at managers.now alias.now).stand }
{
    match find_manager(managers, alias) {
        Some(at) => *managers[at].stand(),
        None => unreachable!(),
    }
}

/// How many entries the tablet's log has.
pub(crate) fn count_at(managers: &[Manager], alias: &Alias) -> usize
    requires declared { is_declared (tablets_of managers.now) alias.now ≡ true }
    ensures { result ≡ length (state_at managers.now alias.now).log }
{
    match find_manager(managers, alias) {
        Some(at) => managers[at].log().entries().len(),
        None => unreachable!(),
    }
}

/// The transaction that the tablet writes next.
pub(crate) fn next_gtid(managers: &[Manager], alias: &Alias) -> Gtid
    requires declared { is_declared (tablets_of managers.now) alias.now ≡ true }
    requires numbered { (server : List ℕ) → greatest_number server (state_at managers.now alias.now).log ≤ 9223372036854775805 }
    ensures { (me : Tablet) → tablet_of (tablets_of managers.now) alias.now ≡ Some me → result ≡ next_gtid me.server (state_at managers.now alias.now).log }
{
    match find_manager(managers, alias) {
        Some(at) => {
            let manager = &managers[at];
            Gtid {
                server: manager.me().server,
                number: manager.last_number() + 1,
            }
        }
        None => unreachable!(),
    }
}

/// A client's write.
pub(crate) fn write_at(
    managers: &mut Vec<Manager>,
    alias: &Alias,
    client: u32,
    number: u64,
) -> Result<Written, OutOfMemory>
    requires declared { is_declared (tablets_of managers.old.items) alias.now ≡ true }
    requires numbered { (server : List ℕ) → greatest_number server (state_at managers.old.items alias.now).log ≤ 9223372036854775805 }
    ensures state { OnOk result (Becomes managers.old.items managers.new.items alias.now (λ me s. (writes me client number s).state)) }
    ensures says { IfOk result (λ written. (me : Tablet) → tablet_of (tablets_of managers.old.items) alias.now ≡ Some me → written ≡ (writes me client number (state_at managers.old.items alias.now)).says) }
    ensures err { OnErr result (managers.new.items ≡ managers.old.items) }
{
    match find_manager(managers, alias) {
        Some(at) => managers[at].write(client, number),
        None => unreachable!(),
    }
}
