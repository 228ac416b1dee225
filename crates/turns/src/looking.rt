//! Looks at the calls of a command that are out.

ghost use Rattle.std.specs.Prelude.{◌≡◌, length, IfOk, OnOk, OnErr};
ghost use Rattle.turns.specs.Turns.{span_of, OnlyOthers, Behind, noted_in, out_message, LookedAt, Looks, TriedAt, TriedAll};

use crate::floor::{Floor, Halt};
use shard_calls::{Deed, Outcome};

/// The number of a call that is out.
pub(crate) fn out_message(deed: &Deed) -> Option<u64>
    ensures { result ≡ out_message deed.now }
{
    match deed {
        Deed::Asked { asked } if asked.outcome.is_none() => Some(asked.message),
        _ => None,
    }
}

/// Notes what the call came to, if it is out.
fn note_in(deed: &mut Deed, outcome: Outcome)
    ensures { deed.new ≡ noted_in outcome deed.old }
{
    if let Deed::Asked { asked } = deed {
        if asked.outcome.is_none() {
            asked.outcome = Some(outcome);
        }
    }
}

/// Looks what has come of the call, if it is out, and notes it.
fn look_at<F: Floor>(floor: &mut F, number: u64, deed: &mut Deed) -> Result<(), Halt>
    ensures looked { OnOk result (LookedAt number (F.shown floor.old) (F.shown floor.new) deed.old deed.new) }
    ensures halted { OnErr result (OnlyOthers number (F.shown floor.old) (F.shown floor.new)) }
    ensures group { F.group floor.new ≡ F.group floor.old }
{
    let Some(message) = out_message(deed) else {
        return Ok(());
    };
    if let Some(outcome) = floor.receive(number, message)? {
        note_in(deed, outcome);
    }
    Ok(())
}

/// Looks what has come of each call that is out.
pub(crate) fn look<F: Floor>(floor: &mut F, number: u64, span: &mut Vec<Deed>) -> Result<(), Halt>
    requires behind { Behind span.old.items (span_of number (F.shown floor.old)) }
    ensures looks { OnOk result (Looks number (F.shown floor.old) (F.shown floor.new) span.new.items (length span.new.items)) }
    ensures halted { OnErr result (OnlyOthers number (F.shown floor.old) (F.shown floor.new)) }
    ensures group { F.group floor.new ≡ F.group floor.old }
{
    for at in 0..span.len() {
        look_at(floor, number, &mut span[at])?;
    }
    Ok(())
}

/// Gives up the call, if it is out and may be given up, and notes it.
fn give_up_at<F: Floor>(floor: &mut F, number: u64, deed: &mut Deed) -> Result<bool, Halt>
    ensures tried { IfOk result (λ gone. TriedAt number (F.shown floor.old) (F.shown floor.new) deed.old deed.new gone) }
    ensures halted { OnErr result (OnlyOthers number (F.shown floor.old) (F.shown floor.new)) }
    ensures group { F.group floor.new ≡ F.group floor.old }
{
    let Some(message) = out_message(deed) else {
        return Ok(false);
    };
    let Some(why) = floor.give_up(number, message)? else {
        return Ok(false);
    };
    note_in(deed, Outcome::GivenUp { why });
    Ok(true)
}

/// Gives up the first call that may be given up, if there is one.
pub(crate) fn give_up_one<F: Floor>(
    floor: &mut F,
    number: u64,
    span: &mut Vec<Deed>,
) -> Result<bool, Halt>
    requires behind { Behind span.old.items (span_of number (F.shown floor.old)) }
    ensures tried { IfOk result (λ gone. TriedAll number (F.shown floor.old) (F.shown floor.new) span.old.items span.new.items gone) }
    ensures behind { OnOk result (Behind span.new.items (span_of number (F.shown floor.new))) }
    ensures halted { OnErr result (OnlyOthers number (F.shown floor.old) (F.shown floor.new)) }
    ensures group { F.group floor.new ≡ F.group floor.old }
{
    for at in 0..span.len() {
        if give_up_at(floor, number, &mut span[at])? {
            return Ok(true);
        }
    }
    Ok(false)
}
