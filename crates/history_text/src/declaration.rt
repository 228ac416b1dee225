//! The declarations of a script in their canonical form.

ghost use Rattle.std.specs.Prelude.{◌≡◌, ◌++◌, OnOk};
ghost use Rattle.history_text.specs.Declarations.{shard_line, type_text, tablet_text, tablet_lines, clock_line, shard_lines, declarations_text};
ghost use Rattle.tablet_text.specs.Stands.{line};
ghost use Rattle.uuid.specs.Text.{hyphenated_text, lower};

use durability::Durability;
use shard_base::OutOfMemory;
use shard_names::{ShardName, Tablet, TabletType};
use tablet_text::write_moment;
use uuid::Uuid;

#[tactic(auto, unfolding(crate::specs::Declarations::shard_line))]
fn append_shard(
    into: &mut Vec<u8>,
    shard: &ShardName,
    policy: &Durability,
) -> Result<(), OutOfMemory>
    ensures { OnOk result (into.new.items ≡ into.old.items ++ shard_line shard.now policy.now) }
{
    into.extend_from_slice(b"shard ")?;
    shard.write(into)?;
    into.extend_from_slice(b" ")?;
    into.extend_from_slice(policy.name())?;
    into.push(b'\n')?;
    Ok(())
}

fn type_name(kind: TabletType) -> &'static [u8]
    ensures { result.now ≡ type_text kind }
{
    match kind {
        TabletType::Replica => b"replica",
        TabletType::Rdonly => b"rdonly",
        TabletType::Spare => b"spare",
    }
}

/// Appends the hyphenated form in lower case.
fn append_server(into: &mut Vec<u8>, server: &Uuid) -> Result<(), OutOfMemory>
    ensures { OnOk result (into.new.items ≡ into.old.items ++ hyphenated_text lower server.now) }
{
    let mut room = Uuid::encode_buffer();
    let server = server.hyphenated();
    let text = server.encode_lower(&mut room);
    into.extend_from_slice(text.as_bytes())?;
    Ok(())
}

#[tactic(auto, unfolding(crate::specs::Declarations::tablet_text))]
fn append_tablet(into: &mut Vec<u8>, tablet: &Tablet) -> Result<(), OutOfMemory>
    ensures { OnOk result (into.new.items ≡ into.old.items ++ tablet_text tablet.now) }
{
    into.extend_from_slice(b"tablet ")?;
    tablet.alias.write(into)?;
    into.extend_from_slice(b" ")?;
    into.extend_from_slice(type_name(tablet.kind))?;
    into.extend_from_slice(b" ")?;
    append_server(into, &tablet.server)
}

fn append_tablet_line(into: &mut Vec<u8>, tablet: &Tablet) -> Result<(), OutOfMemory>
    ensures { OnOk result (into.new.items ≡ into.old.items ++ line (tablet_text tablet.now)) }
{
    append_tablet(into, tablet)?;
    into.push(b'\n')?;
    Ok(())
}

fn append_tablets(into: &mut Vec<u8>, tablets: &[Tablet]) -> Result<(), OutOfMemory>
    ensures { OnOk result (into.new.items ≡ into.old.items ++ tablet_lines tablets.now) }
{
    for tablet in tablets {
        append_tablet_line(into, tablet)?;
    }
    Ok(())
}

#[tactic(auto, unfolding(crate::specs::Declarations::clock_line))]
fn append_clock(into: &mut Vec<u8>, moment: u64) -> Result<(), OutOfMemory>
    ensures { OnOk result (into.new.items ≡ into.old.items ++ clock_line moment) }
{
    into.extend_from_slice(b"clock ")?;
    write_moment(moment, into)?;
    into.push(b'\n')?;
    Ok(())
}

#[tactic(auto, unfolding(crate::specs::Declarations::shard_lines))]
fn append_shard_lines(
    into: &mut Vec<u8>,
    shard: &ShardName,
    policy: &Durability,
    tablets: &[Tablet],
    moment: u64,
) -> Result<(), OutOfMemory>
    ensures { OnOk result (into.new.items ≡ into.old.items ++ shard_lines shard.now policy.now tablets.now moment) }
{
    append_shard(into, shard, policy)?;
    append_tablets(into, tablets)?;
    append_clock(into, moment)
}

/// Appends the lines that declare a shard, if there is one.
pub(crate) fn append_declarations(
    into: &mut Vec<u8>,
    shard: &Option<ShardName>,
    policy: &Durability,
    tablets: &[Tablet],
    moment: u64,
) -> Result<(), OutOfMemory>
    ensures { OnOk
        result
        (into.new.items ≡ into.old.items ++ declarations_text shard.now policy.now tablets.now moment) }
{
    match shard {
        None => Ok(()),
        Some(shard) => append_shard_lines(into, shard, policy, tablets, moment),
    }
}
