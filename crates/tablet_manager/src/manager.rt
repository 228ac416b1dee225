ghost use Rattle.std.specs.Prelude.{◌≡◌, ℕ, ◌≤◌, ◌<◌, ◌+◌, ◌-◌, ◌^◌, ◌&&◌, ◌==◌, [], ◌∷◌, ◌++◌, Bool, true, false, OnOk, OnErr, IfOk, Ok, Contains, nat_lt};
ghost use Rattle.shard_names.specs.Tablets.{AreTablets, alias_eq, is_among};
ghost use Rattle.durability.specs.Policies.{rules_of};
ghost use Rattle.durability.specs.Sets.{is_accepted};
ghost use Rattle.replication.specs.Acks.{acked_in};
ghost use Rattle.replication.specs.Told.{holders};
ghost use Rattle.gtid_sets.specs.declared.entry.Kind.TheVariants as kinds;
ghost use Rattle.shard_calls.specs.declared.call.Call.TheVariants as calls;
ghost use Rattle.shard_calls.specs.declared.answer.Answer.TheVariants as answers;
ghost use Rattle.gtid_sets.specs.Logs.{position_of, own_number, greatest_number, next_gtid, with_entry, with_own};
ghost use Rattle.shard_calls.specs.Stands.{is_down, is_stopped};
ghost use Rattle.shard_calls.specs.Tablets.{opened, kept_or_promoted, answer_to, after_call, status_of, accepts, after_ack, is_told, is_row_told, writes, writes_own, writes_local, after_crash, restarts, with_row};
ghost use Rattle.tablet_manager.specs.Managed.{Managed, state_of, with_log, ackers_of, SameTablet, names_after};

use crate::plain_log::PlainLog;
use crate::replica::stand_behind;
use durability::Durability;
use gtid_sets::{Entry, Gtid, GtidSet, Kind, covers};
use replication::AckTable;
use shard_base::OutOfMemory;
use shard_calls::{Accepted, Answer, Restarted, Stand, Written};
use shard_names::{Alias, Tablet};
use std::alloc::Global;
use std::marker::Model;
use uuid::Uuid;

/// One tablet. Contracts see which tablet it is, the tablets and the durability policy of its shard, and its state.
#[derive(Drop)]
pub struct Manager {
    me: Tablet,
    tablets: Vec<Tablet>,
    policy: Durability,
    log: PlainLog,
    stand: Stand,
    newest_is_own: bool,
    greatest: u64,
    acks: AckTable,
}

impl Model for Manager {
    ghost use Rattle.tablet_manager.specs.Managed.{Managed};

    ghost Value = { Managed };

    ghost use Rattle.tablet_manager.specs.Manager.{managed_of, IsKept};

    ghost view = { managed_of };

    ghost invariant = { IsKept };
}

/// An entry's number, if the server wrote it, and else 0.
fn own_number(server: &Uuid, entry: &Entry) -> u64
    ensures { result ≡ own_number server.now entry.now }
{
    if entry.gtid.server == *server {
        entry.gtid.number
    } else {
        0
    }
}

/// Whether the newest row names the alias, once this entry comes.
fn names_after(newest: u64, names: bool, me: &Alias, kind: &Kind) -> bool
    ensures { result ≡ names_after newest names me.now kind.now }
{
    match kind {
        Kind::Write { .. } => names,
        Kind::Row { term, alias } => {
            let own = *alias == *me;
            if *term > newest {
                return own;
            }
            (*term > 0 && *term == newest && own) || names
        }
        Kind::Local => names,
    }
}

impl Manager {
    /// A tablet that nothing has happened to: stopped, with an empty log and the terms 0. It is one of the tablets, which are a shard's, and
    /// the policy is that of the shard.
    pub fn new(
        alloc: Global,
        me: Tablet,
        tablets: &[Tablet],
        policy: Durability,
    ) -> Result<Manager, OutOfMemory>
        requires shard { AreTablets tablets.now }
        requires among { Contains tablets.now me }
        ensures who { IfOk result (λ manager. manager.me ≡ me) }
        ensures group { IfOk result (λ manager. manager.group ≡ record { tablets = tablets.now; policy = policy }) }
        ensures state { IfOk result (λ manager. state_of manager ≡ opened) }
    {
        let acks = AckTable::new(alloc, tablets)?;
        let known = Vec::from_slice(alloc, tablets)?;
        Ok(Manager {
            me,
            tablets: known,
            policy,
            log: PlainLog::new(alloc),
            stand: Stand::Stopped,
            newest_is_own: false,
            greatest: 0,
            acks,
        })
    }

    /// Which tablet it is.
    pub fn me(&self) -> &Tablet
        ensures { result.now ≡ self.now.me }
    {
        &self.me
    }

    /// The tablets of its shard, which may acknowledge to it.
    pub fn tablets(&self) -> &[Tablet]
        ensures { result.now ≡ self.now.group.tablets }
    {
        self.tablets.as_slice()
    }

    /// The greatest number of the tablet's own server in its log, or 0. Its next write has the number behind it.
    pub fn last_number(&self) -> u64
        ensures { result ≡ greatest_number self.now.me.server self.now.log.entries }
    {
        self.greatest
    }

    /// The log and the terms.
    pub fn log(&self) -> &PlainLog
        ensures { result.now ≡ self.now.log }
    {
        &self.log
    }

    /// What the tablet does.
    pub fn stand(&self) -> &Stand
        ensures { result.now ≡ self.now.stand }
    {
        &self.stand
    }

    /// Whether the policy accepts the tablets that have this index of the log, as far as they acknowledged it.
    fn is_accepted(&self, index: u64) -> bool
        ensures { result ≡ is_accepted (rules_of self.now.group.policy) self.now.group.tablets self.now.me (holders (acked_in self.now.acks) self.now.me.alias index) }
    {
        self.acks.is_told(&self.policy, self.tablets.as_slice(), &self.me.alias, index)
    }

    /// Whether an index of its log counts as committed: it is a primary, and the policy accepts the tablets that have the index.
    pub fn is_told(&self, index: u64) -> bool
        ensures { result ≡ is_told self.now.group self.now.me (state_of self.now) index }
    {
        self.stand.is_primary() && self.is_accepted(index)
    }

    /// Whether the row of the term is in its log and counts as committed.
    pub fn is_row_told(&self, term: u64) -> bool
        ensures { result ≡ is_row_told self.now.group self.now.me (state_of self.now) term }
    {
        match self.log.row_at(term) {
            Some(index) => self.is_told(index),
            None => false,
        }
    }

    /// Puts an entry at the end of the log. Want of memory changes nothing.
    fn append(&mut self, entry: &Entry) -> Result<(), OutOfMemory>
        ensures ok { OnOk result (self.new ≡ with_log self.old (self.old.log.entries ++ entry.now ∷ [])) }
        ensures err { OnErr result (self.new ≡ self.old) }
    {
        let newest_is_own = names_after(
            self.log.newest_row(),
            self.newest_is_own,
            &self.me.alias,
            &entry.kind,
        );
        self.log.append(entry)?;
        self.newest_is_own = newest_is_own;
        self.greatest = self.greatest.max(own_number(&self.me.server, entry));
        Ok(())
    }

    /// Puts an entry at the end of the log, unless the log has its transaction. Want of memory changes nothing.
    fn append_new(&mut self, entry: &Entry) -> Result<(), OutOfMemory>
        ensures ok { OnOk result (self.new ≡ with_log self.old (with_entry self.old.log.entries entry.now)) }
        ensures err { OnErr result (self.new ≡ self.old) }
    {
        if self.log.holds(entry.gtid) {
            return Ok(());
        }
        self.append(entry)
    }

    /// The tablet's next own entry.
    fn own_entry(&self, kind: Kind) -> Entry
        requires { greatest_number self.now.me.server self.now.log.entries < 2 ^ 64 - 1 }
        ensures { result ≡ record { gtid = next_gtid self.now.me.server self.now.log.entries; kind = kind } }
    {
        let gtid = Gtid {
            server: self.me.server,
            number: self.greatest + 1,
        };
        Entry { gtid, kind }
    }

    /// Whether a call of this term is refused as stale.
    fn is_stale(&self, term: u64) -> bool
        ensures { result ≡ nat_lt term self.now.log.seen }
    {
        term < self.log.seen()
    }

    /// Tells how the tablet stands. Unlike every other call it is answered in each term, and it changes nothing.
    pub fn status(&self) -> Result<Answer, OutOfMemory>
        requires up { is_down self.now.stand ≡ false }
        ensures { IfOk result (λ answer. answer ≡ status_of (state_of self.now)) }
    {
        let position = self.log.held().copy()?;
        Ok(Answer::Status {
            seen: self.log.seen(),
            promised: self.log.promised(),
            stand: self.stand,
            newest: self.log.newest_row(),
            position,
        })
    }

    /// Stops the tablet for a term that it has not promised yet, and promises it.
    pub fn stop(&mut self, term: u64) -> Result<Answer, OutOfMemory>
        requires up { is_down self.old.stand ≡ false }
        ensures answer { IfOk result (λ answer. answer ≡ answer_to self.old.group self.old.me term calls.Stop (state_of self.old)) }
        ensures state { OnOk result (state_of self.new ≡ after_call self.old.group self.old.me term calls.Stop (state_of self.old)) }
        ensures who { SameTablet self.old self.new }
        ensures err { OnErr result (self.new ≡ self.old) }
    {
        if self.is_stale(term) {
            return Ok(Answer::StaleTerm {
                seen: self.log.seen(),
            });
        }
        let newest = self.log.newest_row();
        let position = self.log.held().copy()?;
        self.log.see(term);
        if self.log.promised() != term {
            self.log.promise(term);
            self.stand = Stand::Stopped;
        }
        Ok(Answer::Stopped { newest, position })
    }

    /// Takes no more writes, if the newest row is the tablet's own, and promises the term.
    pub fn demote(&mut self, term: u64) -> Result<Answer, OutOfMemory>
        requires up { is_down self.old.stand ≡ false }
        ensures answer { IfOk result (λ answer. answer ≡ answer_to self.old.group self.old.me term calls.Demote (state_of self.old)) }
        ensures state { OnOk result (state_of self.new ≡ after_call self.old.group self.old.me term calls.Demote (state_of self.old)) }
        ensures who { SameTablet self.old self.new }
        ensures err { OnErr result (self.new ≡ self.old) }
    {
        if self.is_stale(term) {
            return Ok(Answer::StaleTerm {
                seen: self.log.seen(),
            });
        }
        let newest = self.log.newest_row();
        if self.log.promised() == term {
            let position = self.log.held().copy()?;
            self.log.see(term);
            return Ok(Answer::Demoted { newest, position });
        }
        if !self.newest_is_own {
            self.log.see(term);
            return Ok(Answer::NotStanding { newest });
        }
        let position = self.log.held().copy()?;
        self.log.see(term);
        self.log.promise(term);
        self.stand = Stand::Demoted {
            term: newest,
            by: term,
        };
        Ok(Answer::Demoted { newest, position })
    }

    /// Enters the term: the row of the term comes into the log, and the tablet is the primary.
    fn enter(&mut self, term: u64) -> Result<Answer, OutOfMemory>
        requires { greatest_number self.old.me.server self.old.log.entries ≤ 9223372036854775805 }
        ensures answer { IfOk result (λ answer. answer ≡ answers.Promoted (position_of (with_row self.old.me term (state_of self.old)).log)) }
        ensures state { OnOk result (state_of self.new ≡ with_row self.old.me term (record (state_of self.old) { seen = term })) }
        ensures who { SameTablet self.old self.new }
        ensures err { OnErr result (self.new ≡ self.old) }
    {
        let entry = self.own_entry(Kind::Row {
            term,
            alias: self.me.alias,
        });
        let position = self.log.held_with(&entry)?;
        self.append(&entry)?;
        self.log.see(term);
        self.log.promise(term);
        self.stand = Stand::Primary { term };
        self.acks.clear();
        Ok(Answer::Promoted { position })
    }

    /// Becomes the primary of the term, if the log covers the position. Nothing more is done for a term whose row the log has.
    pub fn promote(&mut self, term: u64, position: &GtidSet) -> Result<Answer, OutOfMemory>
        requires up { is_down self.old.stand ≡ false }
        requires numbered { greatest_number self.old.me.server self.old.log.entries ≤ 9223372036854775805 }
        ensures answer { IfOk result (λ answer. answer ≡ answer_to self.old.group self.old.me term (calls.Promote position.now) (state_of self.old)) }
        ensures state { OnOk result (state_of self.new ≡ after_call self.old.group self.old.me term (calls.Promote position.now) (state_of self.old)) }
        ensures who { SameTablet self.old self.new }
        ensures err { OnErr result (self.new ≡ self.old) }
    {
        if self.is_stale(term) {
            return Ok(Answer::StaleTerm {
                seen: self.log.seen(),
            });
        }
        if self.log.has_row(term) {
            return self.tell_standing(term);
        }
        if !covers(self.log.held(), position) {
            let missing = self.log.missing_of(position)?;
            self.log.see(term);
            return Ok(Answer::NotCaughtUp { missing });
        }
        self.enter(term)
    }

    /// The answer to a Promote of a term whose row the log has.
    fn tell_standing(&mut self, term: u64) -> Result<Answer, OutOfMemory>
        ensures answer { IfOk result (λ answer. answer ≡ kept_or_promoted term (state_of self.old)) }
        ensures state { OnOk result (state_of self.new ≡ record (state_of self.old) { seen = term }) }
        ensures who { SameTablet self.old self.new }
        ensures err { OnErr result (self.new ≡ self.old) }
    {
        if !self.stand.is_primary_of(term) {
            self.log.see(term);
            return Ok(Answer::Kept { stand: self.stand });
        }
        let position = self.log.held().copy()?;
        self.log.see(term);
        Ok(Answer::Promoted { position })
    }

    /// Replicates from another tablet, which stands primary in the term `stand`, if the log lies within the position.
    pub fn set_source(
        &mut self,
        term: u64,
        source: &Alias,
        stand: u64,
        position: &GtidSet,
    ) -> Result<Answer, OutOfMemory>
        requires up { is_down self.old.stand ≡ false }
        requires another { alias_eq source.now self.old.me.alias ≡ false }
        requires fits { stand ≤ term }
        ensures answer { IfOk result (λ answer. answer ≡ answer_to self.old.group self.old.me term (calls.SetSource source.now stand position.now) (state_of self.old)) }
        ensures state { OnOk result (state_of self.new ≡ after_call self.old.group self.old.me term (calls.SetSource source.now stand position.now) (state_of self.old)) }
        ensures who { SameTablet self.old self.new }
        ensures err { OnErr result (self.new ≡ self.old) }
    {
        if self.is_stale(term) {
            return Ok(Answer::StaleTerm {
                seen: self.log.seen(),
            });
        }
        let promised = self.log.promised();
        if stand < promised {
            self.log.see(term);
            return Ok(Answer::PromisedAhead { promised });
        }
        if self.stand.is_primary_of(stand) || self.stand.is_replica_in(stand) {
            self.log.see(term);
            return Ok(Answer::Kept { stand: self.stand });
        }
        if !covers(position, self.log.held()) {
            let extra = self.log.beyond(position)?;
            self.log.see(term);
            return Ok(Answer::Errant { extra });
        }
        self.log.see(term);
        self.log.promise(stand);
        self.stand = Stand::Replica {
            source: *source,
            term: stand,
            next: 1,
        };
        Ok(Answer::Joined)
    }

    /// Whether the term has stopped the tablet, which has done nothing since.
    fn is_stopped_by(&self, term: u64) -> bool
        ensures { result ≡ (is_stopped self.now.stand && (self.now.log.promised == term)) }
    {
        match &self.stand {
            Stand::Stopped => self.log.promised() == term,
            _ => false,
        }
    }

    /// Sends its log to replicas of the term from now on, if the term has stopped it. It takes no memory.
    pub fn feed(&mut self, term: u64) -> Result<Answer, OutOfMemory>
        requires up { is_down self.old.stand ≡ false }
        ensures answer { IfOk result (λ answer. answer ≡ answer_to self.old.group self.old.me term calls.Feed (state_of self.old)) }
        ensures state { OnOk result (state_of self.new ≡ after_call self.old.group self.old.me term calls.Feed (state_of self.old)) }
        ensures who { SameTablet self.old self.new }
        ensures err { OnErr result (self.new ≡ self.old) }
    {
        if self.is_stale(term) {
            return Ok(Answer::StaleTerm {
                seen: self.log.seen(),
            });
        }
        self.log.see(term);
        if self.stand.is_feeder_in(term) {
            return Ok(Answer::Feeding);
        }
        if !self.is_stopped_by(term) {
            return Ok(Answer::Kept { stand: self.stand });
        }
        self.stand = Stand::Feeder { term };
        Ok(Answer::Feeding)
    }

    /// Tells whether the log covers the position, whatever the moment until which the caller waits. Only what the log lacks takes memory.
    pub fn wait_for(&mut self, term: u64, position: &GtidSet) -> Result<Answer, OutOfMemory>
        requires up { is_down self.old.stand ≡ false }
        ensures answer { (until : ℕ) → IfOk result (λ answer. answer ≡ answer_to self.old.group self.old.me term (calls.WaitFor position.now until) (state_of self.old)) }
        ensures state { (until : ℕ) → OnOk result (state_of self.new ≡ after_call self.old.group self.old.me term (calls.WaitFor position.now until) (state_of self.old)) }
        ensures who { SameTablet self.old self.new }
        ensures err { OnErr result (self.new ≡ self.old) }
    {
        if self.is_stale(term) {
            return Ok(Answer::StaleTerm {
                seen: self.log.seen(),
            });
        }
        if covers(self.log.held(), position) {
            self.log.see(term);
            return Ok(Answer::Holds);
        }
        let missing = self.log.missing_of(position)?;
        self.log.see(term);
        Ok(Answer::NotCaughtUp { missing })
    }

    /// Tells whether the row of the term counts as committed, whatever the moment until which the caller waits.
    pub fn wait_told(&mut self, term: u64) -> Result<Answer, OutOfMemory>
        requires up { is_down self.old.stand ≡ false }
        ensures answer { (until : ℕ) → IfOk result (λ answer. answer ≡ answer_to self.old.group self.old.me term (calls.WaitTold until) (state_of self.old)) }
        ensures state { (until : ℕ) → OnOk result (state_of self.new ≡ after_call self.old.group self.old.me term (calls.WaitTold until) (state_of self.old)) }
        ensures who { SameTablet self.old self.new }
        ensures err { OnErr result (self.new ≡ self.old) }
    {
        if self.is_stale(term) {
            return Ok(Answer::StaleTerm {
                seen: self.log.seen(),
            });
        }
        self.log.see(term);
        if !self.stand.is_primary_of(term) {
            return Ok(Answer::Kept { stand: self.stand });
        }
        if !self.is_row_told(term) {
            return Ok(Answer::NotTold);
        }
        Ok(Answer::Told)
    }

    /// Takes the entry that a source sent, with its index in the source's log, if the tablet replicates from there in this term and
    /// waits for what comes behind `after`. Want of memory changes nothing.
    pub fn accept(
        &mut self,
        from: &Alias,
        term: u64,
        after: u64,
        index: u64,
        entry: &Entry,
    ) -> Result<Accepted, OutOfMemory>
        requires { index < 2 ^ 64 - 1 }
        ensures answer { IfOk result (λ accepted. accepted ≡ (accepts from.now term after index entry.now (state_of self.old)).says) }
        ensures state { OnOk result (state_of self.new ≡ (accepts from.now term after index entry.now (state_of self.old)).state) }
        ensures who { SameTablet self.old self.new }
        ensures err { OnErr result (self.new ≡ self.old) }
    {
        match stand_behind(&self.stand, from, term, after, index) {
            Some(stand) => {
                self.append_new(entry)?;
                self.stand = stand;
                Ok(Accepted::Taken)
            }
            None => Ok(Accepted::Ignored),
        }
    }

    /// Notes that a tablet has the first `index` entries of this one's log, if this one is the primary of the term. It takes no memory.
    pub fn ack(&mut self, from: &Alias, term: u64, index: u64)
        requires { is_among (ackers_of self.old) from.now ≡ true }
        ensures state { state_of self.new ≡ after_ack from.now term index (state_of self.old) }
        ensures who { SameTablet self.old self.new }
    {
        if !self.stand.is_primary_of(term) {
            return;
        }
        self.acks.ack(from, index);
    }

    /// Writes an own entry.
    fn write_own(&mut self, kind: Kind) -> Result<Written, OutOfMemory>
        requires { greatest_number self.old.me.server self.old.log.entries ≤ 9223372036854775805 }
        ensures answer { IfOk result (λ written. written ≡ (writes_own self.old.me kind (state_of self.old)).says) }
        ensures state { OnOk result (state_of self.new ≡ (writes_own self.old.me kind (state_of self.old)).state) }
        ensures who { SameTablet self.old self.new }
        ensures err { OnErr result (self.new ≡ self.old) }
    {
        let entry = self.own_entry(kind);
        self.append(&entry)?;
        Ok(Written::Entry(entry.gtid))
    }

    /// Writes a client's write, which a primary alone takes. The number counts the client's writes. Want of memory changes nothing.
    pub fn write(&mut self, client: u32, number: u64) -> Result<Written, OutOfMemory>
        requires { greatest_number self.old.me.server self.old.log.entries ≤ 9223372036854775805 }
        ensures answer { IfOk result (λ written. written ≡ (writes self.old.me client number (state_of self.old)).says) }
        ensures state { OnOk result (state_of self.new ≡ (writes self.old.me client number (state_of self.old)).state) }
        ensures who { SameTablet self.old self.new }
        ensures err { OnErr result (self.new ≡ self.old) }
    {
        match &self.stand {
            Stand::Primary { term } => {
                let term = *term;
                self.write_own(Kind::Write {
                    term,
                    client,
                    number,
                })
            }
            other => Ok(Written::NotPrimary(*other)),
        }
    }

    /// Writes at the server itself, round the primary, unless it is down. Want of memory changes nothing.
    pub fn local_write(&mut self) -> Result<Written, OutOfMemory>
        requires { greatest_number self.old.me.server self.old.log.entries ≤ 9223372036854775805 }
        ensures answer { IfOk result (λ written. written ≡ (writes_local self.old.me (state_of self.old)).says) }
        ensures state { OnOk result (state_of self.new ≡ (writes_local self.old.me (state_of self.old)).state) }
        ensures who { SameTablet self.old self.new }
        ensures err { OnErr result (self.new ≡ self.old) }
    {
        if self.stand.is_down() {
            return Ok(Written::NotPrimary(self.stand));
        }
        self.write_own(Kind::Local)
    }

    /// Goes down. The log and the terms stay. It takes no memory.
    pub fn crash(&mut self)
        ensures state { state_of self.new ≡ after_crash (state_of self.old) }
        ensures who { SameTablet self.old self.new }
    {
        self.stand = Stand::Down;
    }

    /// Comes up stopped, and knows of no acknowledgement, unless it is up.
    pub fn restart(&mut self) -> Result<Restarted, OutOfMemory>
        ensures answer { result ≡ Ok (restarts (state_of self.old)).says }
        ensures state { state_of self.new ≡ (restarts (state_of self.old)).state }
        ensures who { SameTablet self.old self.new }
    {
        if !self.stand.is_down() {
            return Ok(Restarted::WasUp);
        }
        self.stand = Stand::Stopped;
        self.acks.clear(); // what comes up knows of none
        Ok(Restarted::Up)
    }
}
