//! Courses as turns are made of them.

ghost use Rattle.courses.specs.Walks.{Walks};

use crate::turn::Plays;
use courses::{Exit, Walk};
use recovery_loop::play;
use shard_calls::{Command, CommandAnswer, Group, Opening};

/// A command of this shard, right after the beginning of which the opening stood.
#[derive(Drop)]
pub struct CommandPlay {
    pub group: Group,
    pub command: Command,
    pub opening: Opening,
}

impl Plays for CommandPlay {
    ghost use Rattle.recovery_loop.specs.Course.{course_of};
    ghost use Rattle.recovery_loop.specs.CommandLaws.{course_stable, course_founded};

    ghost group = { λ p. p.group };

    ghost course = { λ p. course_of p.group p.command p.opening };

    ghost stable = { λ p. course_stable p.group p.command p.opening };

    ghost sound = { λ p span. course_founded p.group p.command p.opening span };

    fn play(&self, walk: &mut Walk<'_>) -> Result<CommandAnswer, Exit> {
        play(walk, &self.group, &self.command, &self.opening)
    }
}
