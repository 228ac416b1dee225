//! The words of commands.

ghost use Rattle.std.specs.Prelude.{◌≡◌, ◌++◌, OnOk};
ghost use Rattle.history_text.specs.Orders.{further_alias, further_aliases, aliases_text, with_alias, with_flag, timeout_text, with_timeout, ignored_text, with_ignored, planned_options_text, emergency_options_text, write_options_text, options_text, order_text};

use itoa::Buffer;
use shard_base::{OutOfMemory, append_pieces};
use shard_calls::Command;
use shard_names::Alias;
use vtctld_text::write_command;

/// Appends a comma and an alias.
#[tactic(auto, unfolding(crate::specs::Orders::further_alias))]
fn append_further_alias(into: &mut Vec<u8>, alias: &Alias) -> Result<(), OutOfMemory>
    ensures { OnOk result (into.new.items ≡ into.old.items ++ further_alias alias.now) }
{
    into.extend_from_slice(b",")?;
    alias.write(into)
}

fn append_further_aliases(into: &mut Vec<u8>, aliases: &[Alias]) -> Result<(), OutOfMemory>
    ensures { OnOk result (into.new.items ≡ into.old.items ++ further_aliases aliases.now) }
{
    for alias in aliases {
        append_further_alias(into, alias)?;
    }
    Ok(())
}

/// Appends aliases with commas between them.
pub(crate) fn append_aliases(into: &mut Vec<u8>, aliases: &[Alias]) -> Result<(), OutOfMemory>
    ensures { OnOk result (into.new.items ≡ into.old.items ++ aliases_text aliases.now) }
{
    match aliases.split_first() {
        None => Ok(()),
        Some((first, further)) => {
            first.write(into)?;
            append_further_aliases(into, further)
        }
    }
}

/// Appends an option with its tablet, where one is given.
fn append_with_alias(
    into: &mut Vec<u8>,
    option: &[u8],
    alias: &Option<Alias>,
) -> Result<(), OutOfMemory>
    ensures { OnOk result (into.new.items ≡ into.old.items ++ with_alias option.now alias.now) }
{
    match alias {
        None => Ok(()),
        Some(alias) => {
            into.extend_from_slice(option)?;
            alias.write(into)?;
            Ok(())
        }
    }
}

/// Appends an option without a value, where it is given.
fn append_with_flag(into: &mut Vec<u8>, option: &[u8], given: bool) -> Result<(), OutOfMemory>
    ensures { OnOk result (into.new.items ≡ into.old.items ++ with_flag option.now given) }
{
    if given {
        into.extend_from_slice(option)?;
    }
    Ok(())
}

#[tactic(auto, unfolding(crate::specs::Orders::timeout_text))]
fn append_timeout(into: &mut Vec<u8>, ms: u64) -> Result<(), OutOfMemory>
    ensures { OnOk result (into.new.items ≡ into.old.items ++ timeout_text ms) }
{
    let mut digits = Buffer::new();
    let ms = digits.format(ms).as_bytes();
    append_pieces(into, &[b" --wait-replicas-timeout ".as_slice(), ms, b"ms"])
}

/// Appends the timeout, in milliseconds, where one is given.
fn append_with_timeout(into: &mut Vec<u8>, timeout: &Option<u64>) -> Result<(), OutOfMemory>
    ensures { OnOk result (into.new.items ≡ into.old.items ++ with_timeout timeout.now) }
{
    match timeout {
        None => Ok(()),
        Some(ms) => append_timeout(into, *ms),
    }
}

#[tactic(auto, unfolding(crate::specs::Orders::ignored_text))]
fn append_ignored(into: &mut Vec<u8>, aliases: &[Alias]) -> Result<(), OutOfMemory>
    ensures { OnOk result (into.new.items ≡ into.old.items ++ ignored_text aliases.now) }
{
    into.extend_from_slice(b" --ignore-replicas ")?;
    append_aliases(into, aliases)
}

/// Appends the tablets that are left out, where there are any.
fn append_with_ignored(into: &mut Vec<u8>, aliases: &[Alias]) -> Result<(), OutOfMemory>
    ensures { OnOk result (into.new.items ≡ into.old.items ++ with_ignored aliases.now) }
{
    match aliases {
        [] => Ok(()),
        [..] => append_ignored(into, aliases),
    }
}

#[tactic(auto, unfolding(crate::specs::Orders::planned_options_text))]
fn append_planned_options(
    into: &mut Vec<u8>,
    new_primary: &Option<Alias>,
    avoid: &Option<Alias>,
    expected: &Option<Alias>,
    timeout: &Option<u64>,
    allow_cross_cell: bool,
) -> Result<(), OutOfMemory>
    ensures { OnOk
        result
        (into.new.items
        ≡ into.old.items ++ planned_options_text new_primary.now avoid.now expected.now timeout.now allow_cross_cell) }
{
    append_with_alias(into, b" --new-primary ", new_primary)?;
    append_with_alias(into, b" --avoid-primary ", avoid)?;
    append_with_alias(into, b" --expected-primary ", expected)?;
    append_with_timeout(into, timeout)?;
    append_with_flag(into, b" --allow-cross-cell-promotion", allow_cross_cell)
}

#[tactic(auto, unfolding(crate::specs::Orders::emergency_options_text))]
fn append_emergency_options(
    into: &mut Vec<u8>,
    new_primary: &Option<Alias>,
    ignored: &[Alias],
    expected: &Option<Alias>,
    timeout: &Option<u64>,
    prevent_cross_cell: bool,
) -> Result<(), OutOfMemory>
    ensures { OnOk
        result
        (into.new.items
        ≡ into.old.items ++ emergency_options_text new_primary.now ignored.now expected.now timeout.now prevent_cross_cell) }
{
    append_with_alias(into, b" --new-primary ", new_primary)?;
    append_with_ignored(into, ignored)?;
    append_with_alias(into, b" --expected-primary ", expected)?;
    append_with_timeout(into, timeout)?;
    append_with_flag(into, b" --prevent-cross-cell-promotion", prevent_cross_cell)
}

#[tactic(auto, unfolding(crate::specs::Orders::write_options_text))]
fn append_write_options(into: &mut Vec<u8>, to: &Option<Alias>) -> Result<(), OutOfMemory>
    ensures { OnOk result (into.new.items ≡ into.old.items ++ write_options_text to.now) }
{
    into.extend_from_slice(b" 1")?;
    append_with_alias(into, b" to ", to)
}

/// Appends what stands behind the command's word and the shard or the tablet that it was given.
fn append_options(into: &mut Vec<u8>, command: &Command) -> Result<(), OutOfMemory>
    ensures { OnOk result (into.new.items ≡ into.old.items ++ options_text command.now) }
{
    match command {
        Command::Planned {
            new_primary,
            avoid,
            expected,
            timeout,
            allow_cross_cell,
            ..
        } => append_planned_options(
            into,
            new_primary,
            avoid,
            expected,
            timeout,
            *allow_cross_cell,
        ),
        Command::Emergency {
            new_primary,
            ignored,
            expected,
            timeout,
            prevent_cross_cell,
            ..
        } => append_emergency_options(
            into,
            new_primary,
            ignored.as_slice(),
            expected,
            timeout,
            *prevent_cross_cell,
        ),
        Command::Write { to } => append_write_options(into, to),
        _ => Ok(()),
    }
}

/// Appends the whole command.
#[tactic(auto, unfolding(crate::specs::Orders::order_text))]
pub(crate) fn append_order(into: &mut Vec<u8>, command: &Command) -> Result<(), OutOfMemory>
    ensures { OnOk result (into.new.items ≡ into.old.items ++ order_text command.now) }
{
    write_command(command, into)?;
    append_options(into, command)
}
