ghost use Rattle.std.specs.Prelude.{◌≡◌, ◌≤◌, length};
ghost use Rattle.post.specs.Posted.{answers_what_was_sent};

use crate::Post;
use shard_base::OutOfMemory;
use shard_calls::{Answer, Call, Content, Settled, Why};
use shard_names::{Alias, Tablet, TabletType};
use std::alloc::Global;
use std::process::Abort;
use std::test::Fail;
use uuid::Uuid;

fn tablet(rt: &impl Abort, text: &[u8], last: u8) -> Tablet {
    Tablet {
        alias: Alias::read(text).ok().expect(rt, "an alias"),
        server: Uuid::from_bytes([0, 0, 0, 0, 0, 0, 0x40, 0, 0x80, 0, 0, 0, 0, 0, 0, last]),
        kind: TabletType::Replica,
    }
}

fn two_tablets(rt: &impl Abort) -> [Tablet; 2] {
    [tablet(rt, b"zone1-100", 0), tablet(rt, b"zone1-101", 1)]
}

/// The first command asks the tablet how it stands.
fn status_of(to: &Alias) -> Content {
    Content::Asks {
        command: 1,
        term: 0,
        to: *to,
        call: Call::Status,
    }
}

/// The tablet answers the call with the number.
fn joined_by(from: &Alias, asked: u64) -> Content {
    Content::Answers {
        command: 1,
        asked,
        from: *from,
        answer: Answer::Joined,
    }
}

fn may_send(post: &Post, content: &Content) -> bool
    ensures { result ≡ answers_what_was_sent post.now.messages content.now }
{
    match content {
        Content::Asks { .. } => true,
        Content::Answers { asked, .. } => post.message(*asked).is_some(),
        Content::Feeds { .. } => true,
        Content::Acks { .. } => true,
    }
}

fn send(rt: &impl Abort, post: &mut Post, content: Content, now: u64) -> Result<u64, OutOfMemory> {
    assert!(rt; may_send(post, &content));
    post.send(content, now)
}

fn first(rt: &impl Abort, post: &Post, from: usize, to: usize) -> Option<u64> {
    assert!(rt; from <= post.aliases().len());
    assert!(rt; to <= post.aliases().len());
    post.first_waiting(from, to)
}

fn first_for(post: &Post, command: u64) -> Option<u64> {
    match post.waiting_for(command) {
        Some(queue) => queue.first(),
        None => None,
    }
}

fn arrived(post: &Post, number: u64) -> Option<u64> {
    match post.message(number) {
        Some(message) => message.arrived,
        None => None,
    }
}

fn settled(post: &Post, number: u64) -> Option<Settled> {
    match post.message(number) {
        Some(message) => message.settled,
        None => None,
    }
}

#[test]
fn waits_in_order(rt: HostRuntime) -> Result<(), Fail> {
    let tablets = two_tablets(&rt);
    let mut post = Post::new(rt.alloc(), &tablets)?;
    assert_eq!(rt; send(&rt, &mut post, status_of(&tablets[1].alias), 5)?, 1);
    assert_eq!(rt; send(&rt, &mut post, status_of(&tablets[1].alias), 6)?, 2);
    assert_eq!(rt; first(&rt, &post, 0, 2), Some(1));
    assert_eq!(rt; first(&rt, &post, 0, 1), None);
    Ok(())
}

#[test]
fn comes_once(rt: HostRuntime) -> Result<(), Fail> {
    let tablets = two_tablets(&rt);
    let mut post = Post::new(rt.alloc(), &tablets)?;
    send(&rt, &mut post, status_of(&tablets[0].alias), 5)?;
    post.arrive(1, 7);
    post.arrive(1, 9);
    assert_eq!(rt; first(&rt, &post, 0, 1), None);
    assert_eq!(rt; arrived(&post, 1), Some(7));
    Ok(())
}

#[test]
fn waits_behind_what_is_lost(rt: HostRuntime) -> Result<(), Fail> {
    let tablets = two_tablets(&rt);
    let mut post = Post::new(rt.alloc(), &tablets)?;
    send(&rt, &mut post, status_of(&tablets[0].alias), 5)?;
    send(&rt, &mut post, status_of(&tablets[0].alias), 5)?;
    post.lose(1);
    assert_eq!(rt; first(&rt, &post, 0, 1), Some(2));
    Ok(())
}

#[test]
fn keeps_answers_by_call(rt: HostRuntime) -> Result<(), Fail> {
    let tablets = two_tablets(&rt);
    let mut post = Post::new(rt.alloc(), &tablets)?;
    send(&rt, &mut post, status_of(&tablets[0].alias), 5)?;
    send(&rt, &mut post, joined_by(&tablets[0].alias, 1), 6)?;
    assert!(rt; post.answers_to(1) == [2].as_slice());
    assert!(rt; post.answers_to(2).is_empty());
    assert_eq!(rt; first(&rt, &post, 1, 0), Some(2));
    Ok(())
}

#[test]
fn waits_for_its_command(rt: HostRuntime) -> Result<(), Fail> {
    let tablets = two_tablets(&rt);
    let mut post = Post::new(rt.alloc(), &tablets)?;
    send(&rt, &mut post, status_of(&tablets[0].alias), 5)?;
    send(&rt, &mut post, joined_by(&tablets[0].alias, 1), 6)?;
    assert_eq!(rt; first_for(&post, 0), Some(1));
    assert_eq!(rt; first_for(&post, 1), Some(2));
    assert_eq!(rt; first_for(&post, 2), None);
    post.arrive(2, 7);
    assert_eq!(rt; first_for(&post, 1), None);
    Ok(())
}

#[test]
fn is_settled_once(rt: HostRuntime) -> Result<(), Fail> {
    let tablets = two_tablets(&rt);
    let mut post = Post::new(rt.alloc(), &tablets)?;
    send(&rt, &mut post, status_of(&tablets[0].alias), 5)?;
    post.settle(1, Settled::Answered { message: 2 });
    post.settle(1, Settled::GaveUp { why: Why::Lost });
    assert_eq!(rt; settled(&post, 1), Some(Settled::Answered { message: 2 }));
    Ok(())
}
