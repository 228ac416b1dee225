//! All messages of a shard, with what became of each.

ghost use Rattle.std.specs.Prelude.{◌≡◌, ◌≤◌, ◌+◌, [], map, true, length, slice_get, unwrap_or, OnOk, OnErr, IfOk};
ghost use Rattle.std.specs.Option.{option_copied};
ghost use Rattle.shard_calls.specs.World.{numbered, arrives, vanishes, settles};
ghost use Rattle.post.specs.Directions.{place_of, IsPlace};
ghost use Rattle.post.specs.Waiting.{waiting_for, waiting_on, answers_on};
ghost use Rattle.post.specs.Posted.{with_sent, without_sent, on_number, answers_now, answers_what_was_sent};

use crate::beside::{add, forget, forget_answers, leave, queues_of};
use crate::change::{
    answer_at, arrive_at, drop_last, index_of, lose_at, message_at, sent_at, settle_at,
};
use crate::direction::{asked_by, count_of, direction, direction_of, place_of, receiver};
use crate::queue::Queue;
use shard_base::{Items, OutOfMemory};
use shard_calls::{Answer, Content, Message, Settled};
use shard_names::{Alias, Tablet};
use std::alloc::Global;
use std::marker::Model;

/// All messages of one shard ever sent, and what became of each. A message goes by its number, counted from 1, and a tablet by its place:
/// 1 for the first, with 0 for commands.
///
/// What waits for each receiver, what waits on each direction, and the answers to each call are kept beside the messages, so that no function
/// walks them. The receivers are the commands by their numbers, counted from 1, and with 0 all tablets.
#[derive(Drop)]
pub struct Post {
    aliases: Vec<Alias>,
    messages: Vec<Message>,
    inboxes: Vec<Queue>,
    queues: Vec<Queue>,
    answers: Vec<Items<u64>>,
}

impl Model for Post {
    ghost use Rattle.post.specs.Posted.{Posted};

    ghost Value = { Posted };

    ghost use Rattle.post.specs.Kept.{posted_of, IsKept};

    ghost view = { posted_of };

    ghost invariant = { IsKept };
}

fn aliases_of(alloc: Global, tablets: &[Tablet]) -> Result<Vec<Alias>, OutOfMemory>
    ensures { IfOk result (λ aliases. aliases.items ≡ map (λ t. t.alias) tablets.now) }
{
    let mut aliases = Vec::new(alloc);
    for tablet in tablets {
        aliases.push(tablet.alias)?;
    }
    Ok(aliases)
}

impl Post {
    /// No message, between these tablets and commands. There are at most 32 tablets.
    pub fn new(alloc: Global, tablets: &[Tablet]) -> Result<Post, OutOfMemory>
        requires { length tablets.now ≤ 32 }
        ensures { IfOk result (λ post. post ≡ record { aliases = map (λ t. t.alias) tablets.now; messages = [] }) }
    {
        let aliases = aliases_of(alloc, tablets)?;
        let queues = queues_of(alloc, count_of(aliases.len()))?;
        Ok(Post {
            aliases,
            messages: Vec::new(alloc),
            inboxes: Vec::new(alloc),
            queues,
            answers: Vec::new(alloc),
        })
    }

    /// The tablets, in order.
    pub fn aliases(&self) -> &[Alias]
        ensures { result.now ≡ self.now.aliases }
    {
        self.aliases.as_slice()
    }

    /// How many messages there are. The next one has the number behind it.
    pub fn len(&self) -> u64
        ensures { result ≡ length self.now.messages }
    {
        self.messages.len() as u64
    }

    /// The place of a tablet. Who is none of the shard's has the place behind the last. It costs the steps to it in the list of tablets.
    pub fn place_of(&self, alias: &Alias) -> usize
        ensures { result ≡ place_of self.now.aliases alias.now }
    {
        place_of(self.aliases.as_slice(), alias)
    }

    /// The message of a number.
    pub fn message(&self, number: u64) -> Option<&Message>
        ensures { option_copied result ≡ numbered self.now.messages number }
    {
        message_at(self.messages.as_slice(), number)
    }

    /// The numbers of the messages that wait on their way to the command of a number, or with 0 to tablets, rising. It costs no step. Where
    /// nothing was ever sent to it there may be no list.
    pub fn waiting_for(&self, command: u64) -> Option<&Queue>
        ensures { unwrap_or (option_copied result) [] ≡ waiting_for self.now.messages command }
    {
        self.inboxes.get(command as usize)
    }

    /// The numbers of the messages that wait on their way from one place to another, rising. It costs no step.
    pub fn waiting(&self, from: usize, to: usize) -> &Queue
        requires from { IsPlace self.now.aliases from }
        requires to { IsPlace self.now.aliases to }
        ensures { result.now ≡ waiting_on self.now.aliases self.now.messages from to }
    {
        &self.queues[direction(from, to)]
    }

    /// The least of them.
    pub fn first_waiting(&self, from: usize, to: usize) -> Option<u64>
        requires from { IsPlace self.now.aliases from }
        requires to { IsPlace self.now.aliases to }
        ensures { result ≡ slice_get (waiting_on self.now.aliases self.now.messages from to) 0 }
    {
        self.waiting(from, to).first()
    }

    /// The numbers of the answers to the call of a number, rising. It costs no step.
    pub fn answers_to(&self, number: u64) -> &[u64]
        ensures { result.now ≡ answers_on self.now.messages number }
    {
        match index_of(self.answers.len(), number) {
            Some(at) => self.answers[at].as_slice(),
            None => &[],
        }
    }

    /// Sends a message, and gives its number. What it answers was sent before it. Want of memory changes nothing.
    ///
    /// Beside the look for the two places it costs a few steps, now and then as many as there are messages, where room grows, and for the first answer to a
    /// command those to the commands since the last one that was answered.
    pub fn send(&mut self, content: Content, now: u64) -> Result<u64, OutOfMemory>
        requires { answers_what_was_sent self.old.messages content ≡ true }
        ensures number { IfOk result (λ number. number ≡ length self.old.messages + 1) }
        ensures ok { OnOk result (self.new ≡ with_sent self.old now content) }
        ensures unanswered { OnOk result (answers_on self.new.messages (length self.new.messages) ≡ []) }
        ensures err { OnErr result (self.new ≡ self.old) }
    {
        let to = receiver(&content);
        let at = direction_of(self.aliases.as_slice(), &content);
        let call = asked_by(&content);
        let message = sent_at(now, content);
        add(
            &mut self.messages,
            &mut self.inboxes,
            &mut self.queues,
            &mut self.answers,
            to,
            at,
            call,
            message,
        )
    }

    /// The message of a number comes to its receiver, for the first time or again. It takes no memory.
    ///
    /// It costs the steps to its number in what waits before it on its direction: none, where it is the least.
    pub fn arrive(&mut self, number: u64, now: u64)
        ensures { self.new ≡ on_number self.old number (arrives now) }
    {
        leave(
            &self.aliases,
            &self.messages,
            &mut self.inboxes,
            &mut self.queues,
            number, // it has come
        );
        arrive_at(&mut self.messages, number, now);
    }

    /// The message of a number is lost. It takes no memory, and costs what `arrive` costs.
    pub fn lose(&mut self, number: u64)
        ensures { self.new ≡ on_number self.old number vanishes }
    {
        leave(
            &self.aliases,
            &self.messages,
            &mut self.inboxes,
            &mut self.queues,
            number, // it never comes
        );
        lose_at(&mut self.messages, number);
    }

    /// The call of a number is settled, if it is not yet. It takes no memory, and costs a few steps.
    pub fn settle(&mut self, number: u64, settled: Settled)
        ensures { self.new ≡ on_number self.old number (settles settled) }
    {
        settle_at(&mut self.messages, number, settled);
    }

    /// The answer that the message of a number carries, if it carries one, is this. It takes no memory, and costs a few steps.
    pub fn amend(&mut self, number: u64, answer: Answer)
        ensures { self.new ≡ on_number self.old number (answers_now answer) }
    {
        answer_at(&mut self.messages, number, answer);
    }

    /// Takes back what was sent last, which nothing answers. It takes no memory, and costs a few steps.
    pub fn take_back(&mut self)
        requires { answers_on self.old.messages (length self.old.messages) ≡ [] }
        ensures { self.new ≡ without_sent self.old }
    {
        let number = self.messages.len() as u64;
        forget(
            &self.aliases,
            &self.messages,
            &mut self.inboxes,
            &mut self.queues,
            number,
        );
        forget_answers(&self.messages, &mut self.answers, number);
        drop_last(&mut self.messages);
    }
}
