//! `vtshard`: failover control for one replicated MySQL shard, rehearsed by a script.
//!
//! The words and the two streams of the system are the one trusted edge: what the system gives and takes no clause says.
#![tactic(auto)]

#[cfg(test)]
mod edge_tests;
#[cfg(test)]
mod gen_tests;
#[cfg(test)]
mod history_tests;
#[cfg(test)]
mod policy_tests;
#[cfg(test)]
mod reparent_tests;
mod streams;
#[cfg(test)]
mod tests;
#[cfg(test)]
mod watch_tests;
mod words;

use crate::streams::Counted;
use crate::words::read_words;
use shard_top::vtshard_words;
use std::process::ExitCode;

fn main(rt: HostRuntime) -> ExitCode {
    let Ok(words) = read_words(&rt, rt.alloc()) else {
        return ExitCode::from(6);
    };
    let mut input = Counted::new(rt.stdin());
    let mut output = Counted::new(rt.stdout());
    let outcome = vtshard_words(rt.alloc(), &words, &mut input, &mut output);
    ExitCode::from(outcome.status)
}
