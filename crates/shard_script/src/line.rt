ghost use Rattle.std.specs.Prelude.{◌≡◌, ◌==◌, map, filter, not, length, IfOk};
ghost use Rattle.std.specs.List.{list_all};
ghost use Rattle.shard_script.specs.Aliases.{are_ends};
ghost use Rattle.script_commands.specs.Commands.{command_of};
ghost use Rattle.shard_script.specs.Lines.{is_blank, blank_parts, words_of, is_script_byte, is_short, is_plain, begins_comment, say_nothing, shard_line, tablet_line, clock_line, play_line, start_line, turn_line, finish_line, tick_line, local_line, crash_line, restart_line, link_reading, cut_line, mend_line, lose_line, repeat_line, one_word, tablet_or_message, two_words, three_words, four_words, plain_line, begins_command, started_line, line_of_words};

use crate::script::Action;
use durability::Durability;
use script_commands::{
    Given, command_of, policy_named, read_duration, read_kind, read_moment, read_name, read_number,
    read_server, read_side, read_within,
};
use shard_base::OutOfMemory;
use shard_calls::{Link, Side};
use shard_names::{Alias, ShardName, Tablet};
use std::alloc::{AllocError, Global};

/// A line of a script.
#[derive(Drop)]
pub enum Line {
    /// The shard's name, and its durability policy.
    Shard { name: ShardName, policy: Durability },
    /// One of its tablets.
    Tablet { tablet: Tablet },
    /// The moment with which its clock begins, in milliseconds since the start of 1970.
    Clock { moment: u64 },
    /// What is done to it.
    Act { action: Action },
}

#[tactic(auto, unfolding(crate::specs::Lines::shard_line))]
fn shard_line(name: &[u8], policy: &[u8]) -> Option<Line>
    ensures { result ≡ shard_line name.now policy.now }
{
    let name = ShardName::read(name)?;
    let policy = policy_named(policy)?;
    Some(Line::Shard { name, policy })
}

#[tactic(auto, unfolding(crate::specs::Lines::tablet_line))]
fn tablet_line(alias: &[u8], kind: &[u8], server: &[u8]) -> Option<Line>
    ensures { result ≡ tablet_line alias.now kind.now server.now }
{
    let alias = Alias::read(alias).ok()?;
    let kind = read_kind(kind)?;
    let server = read_server(server)?;
    Some(Line::Tablet {
        tablet: Tablet {
            alias,
            server,
            kind,
        },
    })
}

#[tactic(auto, unfolding(crate::specs::Lines::clock_line))]
fn clock_line(moment: &[u8]) -> Option<Line>
    ensures { result ≡ clock_line moment.now }
{
    let moment = read_moment(moment)?;
    Some(Line::Clock { moment })
}

#[tactic(auto, unfolding(crate::specs::Lines::play_line))]
fn play_line(given: Option<Given>) -> Option<Line>
    ensures { result ≡ play_line given }
{
    let given = given?;
    Some(Line::Act {
        action: Action::Play {
            command: given.command,
            count: given.count,
        },
    })
}

#[tactic(auto, unfolding(crate::specs::Lines::start_line))]
fn start_line(name: &[u8], given: Option<Given>) -> Option<Line>
    ensures { result ≡ start_line name.now given }
{
    let name = read_name(name)?;
    let given = given?;
    if given.count != 1 {
        return None;
    }
    Some(Line::Act {
        action: Action::Start {
            name,
            command: given.command,
        },
    })
}

#[tactic(auto, unfolding(crate::specs::Lines::turn_line))]
fn turn_line(name: &[u8], pumps: &[u8]) -> Option<Line>
    ensures { result ≡ turn_line name.now pumps.now }
{
    let name = read_name(name)?;
    let pumps = read_within(pumps, 1, 1000000)?;
    Some(Line::Act {
        action: Action::Turn { name, pumps },
    })
}

#[tactic(auto, unfolding(crate::specs::Lines::finish_line))]
fn finish_line(name: &[u8]) -> Option<Line>
    ensures { result ≡ finish_line name.now }
{
    let name = read_name(name)?;
    Some(Line::Act {
        action: Action::Finish { name },
    })
}

#[tactic(auto, unfolding(crate::specs::Lines::tick_line))]
fn tick_line(duration: &[u8]) -> Option<Line>
    ensures { result ≡ tick_line duration.now }
{
    let ms = read_duration(duration)?;
    Some(Line::Act {
        action: Action::Tick { ms },
    })
}

#[tactic(auto, unfolding(crate::specs::Lines::local_line))]
fn local_line(alias: &[u8]) -> Option<Line>
    ensures { result ≡ local_line alias.now }
{
    let alias = Alias::read(alias).ok()?;
    Some(Line::Act {
        action: Action::Local { alias },
    })
}

#[tactic(auto, unfolding(crate::specs::Lines::crash_line))]
fn crash_line(alias: &[u8], keep: &[u8], count: &[u8]) -> Option<Line>
    ensures { result ≡ crash_line alias.now keep.now count.now }
{
    if keep != b"keep".as_slice() {
        return None;
    }
    let alias = Alias::read(alias).ok()?;
    let keep = read_number(count)?;
    Some(Line::Act {
        action: Action::Crash { alias, keep },
    })
}

#[tactic(auto, unfolding(crate::specs::Lines::restart_line))]
fn restart_line(alias: &[u8]) -> Option<Line>
    ensures { result ≡ restart_line alias.now }
{
    let alias = Alias::read(alias).ok()?;
    Some(Line::Act {
        action: Action::Restart { alias },
    })
}

/// Whether there is a link between the two: not of the commands' end with itself.
fn are_ends(x: &Side, y: &Side) -> bool
    ensures { result ≡ are_ends x.now y.now }
{
    match x {
        Side::Control => match y {
            Side::Control => false,
            Side::Tablet { .. } => true,
        },
        Side::Tablet { .. } => match y {
            Side::Control => true,
            Side::Tablet { .. } => true,
        },
    }
}

/// The link between two ends.
#[tactic(auto, unfolding(crate::specs::Lines::link_reading))]
fn read_link(a: &[u8], b: &[u8]) -> Option<Link>
    ensures { result ≡ link_reading a.now b.now }
{
    let x = read_side(a)?;
    let y = read_side(b)?;
    if !are_ends(&x, &y) {
        return None;
    }
    Some(Link { x, y })
}

#[tactic(auto, unfolding(crate::specs::Lines::cut_line))]
fn cut_line(a: &[u8], b: &[u8]) -> Option<Line>
    ensures { result ≡ cut_line a.now b.now }
{
    let link = read_link(a, b)?;
    Some(Line::Act {
        action: Action::Cut {
            x: link.x,
            y: link.y,
        },
    })
}

#[tactic(auto, unfolding(crate::specs::Lines::mend_line))]
fn mend_line(a: &[u8], b: &[u8]) -> Option<Line>
    ensures { result ≡ mend_line a.now b.now }
{
    let link = read_link(a, b)?;
    Some(Line::Act {
        action: Action::Mend {
            x: link.x,
            y: link.y,
        },
    })
}

#[tactic(auto, unfolding(crate::specs::Lines::lose_line))]
fn lose_line(message: &[u8]) -> Option<Line>
    ensures { result ≡ lose_line message.now }
{
    let message = read_number(message)?;
    Some(Line::Act {
        action: Action::Lose { message },
    })
}

#[tactic(auto, unfolding(crate::specs::Lines::repeat_line))]
fn repeat_line(message: &[u8]) -> Option<Line>
    ensures { result ≡ repeat_line message.now }
{
    let message = read_number(message)?;
    Some(Line::Act {
        action: Action::Repeat { message },
    })
}

fn one_word(head: &[u8]) -> Option<Line>
    ensures { result ≡ one_word head.now }
{
    if head == b"lapse".as_slice() {
        Some(Line::Act {
            action: Action::Lapse,
        })
    } else if head == b"settle".as_slice() {
        Some(Line::Act {
            action: Action::Settle,
        })
    } else {
        None
    }
}

/// What is done to a tablet or a message.
fn tablet_or_message(head: &[u8], a: &[u8]) -> Option<Line>
    ensures { result ≡ tablet_or_message head.now a.now }
{
    if head == b"local".as_slice() {
        local_line(a)
    } else if head == b"restart".as_slice() {
        restart_line(a)
    } else if head == b"lose".as_slice() {
        lose_line(a)
    } else if head == b"repeat".as_slice() {
        repeat_line(a)
    } else {
        None
    }
}

fn two_words(head: &[u8], a: &[u8]) -> Option<Line>
    ensures { result ≡ two_words head.now a.now }
{
    if head == b"clock".as_slice() {
        clock_line(a)
    } else if head == b"finish".as_slice() {
        finish_line(a)
    } else if head == b"tick".as_slice() {
        tick_line(a)
    } else {
        tablet_or_message(head, a)
    }
}

fn three_words(head: &[u8], a: &[u8], b: &[u8]) -> Option<Line>
    ensures { result ≡ three_words head.now a.now b.now }
{
    if head == b"shard".as_slice() {
        shard_line(a, b)
    } else if head == b"turn".as_slice() {
        turn_line(a, b)
    } else if head == b"cut".as_slice() {
        cut_line(a, b)
    } else if head == b"mend".as_slice() {
        mend_line(a, b)
    } else {
        None
    }
}

fn four_words(head: &[u8], a: &[u8], b: &[u8], c: &[u8]) -> Option<Line>
    ensures { result ≡ four_words head.now a.now b.now c.now }
{
    if head == b"tablet".as_slice() {
        tablet_line(a, b, c)
    } else if head == b"crash".as_slice() {
        crash_line(a, b, c)
    } else {
        None
    }
}

/// The line of this word and the words behind it, if it gives no command.
fn plain_line(head: &[u8], further: &[&[u8]]) -> Option<Line>
    ensures { result ≡ plain_line head.now (map (λ w. w.now) further.now) }
{
    if further.is_empty() {
        one_word(head)
    } else if further.len() == 1 {
        two_words(head, further[0])
    } else if further.len() == 2 {
        three_words(head, further[0], further[1])
    } else if further.len() == 3 {
        four_words(head, further[0], further[1], further[2])
    } else {
        None
    }
}

/// Whether a command begins with this word.
fn begins_command(head: &[u8]) -> bool
    ensures { result ≡ begins_command head.now }
{
    head == b"PlannedReparentShard".as_slice()
        || head == b"EmergencyReparentShard".as_slice()
        || head == b"TabletExternallyReparented".as_slice()
        || head == b"vtorc".as_slice()
        || head == b"write".as_slice()
        || head == b"show".as_slice()
        || head == b"GetShard".as_slice()
        || head == b"GetTablets".as_slice()
}

/// The line of `start` and the words behind it.
fn started_line(alloc: Global, words: &[&[u8]]) -> Result<Option<Line>, OutOfMemory>
    ensures { IfOk result (λ line. line ≡ started_line (map (λ w. w.now) words.now)) }
{
    let Some((name, command)) = words.split_first() else {
        return Ok(None);
    };
    let given = command_of(alloc, command)?;
    Ok(start_line(name, given))
}

/// The line of a command that is played.
fn played_line(alloc: Global, words: &[&[u8]]) -> Result<Option<Line>, OutOfMemory>
    ensures { IfOk result (λ line. line ≡ play_line (command_of (map (λ w. w.now) words.now))) }
{
    let given = command_of(alloc, words)?;
    Ok(play_line(given))
}

/// The line that words spell.
#[tactic(auto, unfolding(crate::specs::Lines::line_of_words))]
pub fn line_of_words(alloc: Global, words: &[&[u8]]) -> Result<Option<Line>, OutOfMemory>
    ensures { IfOk result (λ line. line ≡ line_of_words (map (λ w. w.now) words.now)) }
{
    let Some((head, further)) = words.split_first() else {
        return Ok(None);
    };
    if *head == b"start".as_slice() {
        started_line(alloc, further)
    } else if begins_command(head) {
        played_line(alloc, words)
    } else {
        Ok(plain_line(head, further))
    }
}

fn is_blank(byte: u8) -> bool
    ensures { result ≡ is_blank byte }
{
    byte == b' ' || byte == b'\t'
}

fn blank_parts(alloc: Global, bytes: &[u8]) -> Result<Vec<&[u8]>, AllocError>
    ensures { IfOk result (λ parts. map (λ p. p.now) parts.items ≡ blank_parts bytes.now) }
{
    bytes.split(|byte| is_blank(*byte)).collect(alloc)
}

fn drop_empty(parts: &mut Vec<&[u8]>)
    ensures { parts.new.items ≡ filter (λ p. not (length p.now == 0)) parts.old.items }
{
    parts.retain(|part| !part.is_empty());
}

/// The words of a line, which are parted by spaces and tabs.
pub fn words_of(alloc: Global, bytes: &[u8]) -> Result<Vec<&[u8]>, OutOfMemory>
    ensures { IfOk result (λ words. map (λ w. w.now) words.items ≡ words_of bytes.now) }
{
    let mut words = blank_parts(alloc, bytes)?;
    drop_empty(&mut words);
    Ok(words)
}

fn is_script_byte(byte: u8) -> bool
    ensures { result ≡ is_script_byte byte }
{
    (b' ' <= byte && byte <= b'~') || byte == b'\t'
}

/// Whether a line has printable ASCII and tabs alone.
pub fn has_script_bytes(bytes: &[u8]) -> bool
    ensures { result ≡ list_all is_script_byte bytes.now }
{
    bytes.iter().all(|byte| is_script_byte(*byte))
}

/// The most bytes of a line.
const MOST_LINE_BYTES: usize = 1024;

/// Whether a line has no more bytes than it may have.
pub fn is_short(bytes: &[u8]) -> bool
    ensures { result ≡ is_short bytes.now }
{
    bytes.len() <= MOST_LINE_BYTES
}

/// Whether a line has such bytes, and no more of them than it may have.
pub fn is_plain(bytes: &[u8]) -> bool
    ensures { result ≡ is_plain bytes.now }
{
    is_short(bytes) && has_script_bytes(bytes)
}

fn begins_comment(word: &[u8]) -> bool
    ensures { result ≡ begins_comment word.now }
{
    word.first().is_some_and(|byte| *byte == b'#')
}

/// Whether there are no words, or those of a comment.
pub fn say_nothing(words: &[&[u8]]) -> bool
    ensures { result ≡ say_nothing (map (λ w. w.now) words.now) }
{
    match words.first() {
        Some(word) => begins_comment(word),
        None => true,
    }
}
