//! The JSON of a shard and of its tablets.

ghost use Rattle.std.specs.Prelude.{◌≡◌, ◌++◌, false, IfOk, OnOk};
ghost use Rattle.uuid.specs.Text.{hyphenated_text, lower};
ghost use Rattle.serde_json.specs.Data.{string, put as with_member};
ghost use Rattle.serde_json.specs.View.{view, members_view};
ghost use Rattle.serde_json.specs.Written.{has_float, compact_text};
ghost use Rattle.shard_names.specs.Alias.{alias_text};
ghost use Rattle.tablet_text.specs.Moments.{moment_text};
ghost use Rattle.tablet_text.specs.Json.{text_data, recorded_alias, recorded_time, recorded_term, shard_data, shard_json, kind_text, tablet_data, tablets_data, tablets_json};

use crate::moment::write_moment;
use serde_json::{Map, Value, push, put};
use shard_base::OutOfMemory;
use shard_calls::{ShownType, TabletRow};
use shard_names::{Alias, ShardName};
use std::alloc::Global;
use topo_lock::Record;
use uuid::Uuid;

/// A text as JSON may hold it. The names that are read are ASCII; whatever is no UTF-8 becomes U+FFFD.
#[tactic(auto, unfolding(crate::specs::Json::text_data))]
fn text_value(alloc: Global, text: &[u8]) -> Result<Value, OutOfMemory>
    ensures { IfOk result (λ v. view v ≡ text_data text.now) }
{
    Ok(Value::from(String::from_utf8_lossy(alloc, text)?))
}

fn alias_value(alloc: Global, alias: &Alias) -> Result<Value, OutOfMemory>
    ensures { IfOk result (λ v. view v ≡ text_data (alias_text alias.now)) }
{
    let mut text = Vec::new(alloc);
    alias.write(&mut text)?;
    text_value(alloc, text.as_slice())
}

fn moment_value(alloc: Global, moment: u64) -> Result<Value, OutOfMemory>
    ensures { IfOk result (λ v. view v ≡ text_data (moment_text moment)) }
{
    let mut text = Vec::new(alloc);
    write_moment(moment, &mut text)?;
    text_value(alloc, text.as_slice())
}

fn recorded_alias(alloc: Global, recorded: &Option<Record>) -> Result<Value, OutOfMemory>
    ensures { IfOk result (λ v. view v ≡ recorded_alias recorded.now) }
{
    match recorded {
        None => Ok(Value::Null),
        Some(recorded) => alias_value(alloc, &recorded.alias),
    }
}

fn recorded_time(alloc: Global, recorded: &Option<Record>) -> Result<Value, OutOfMemory>
    ensures { IfOk result (λ v. view v ≡ recorded_time recorded.now) }
{
    match recorded {
        None => Ok(Value::Null),
        Some(recorded) => moment_value(alloc, recorded.moment),
    }
}

fn recorded_term(recorded: &Option<Record>) -> u64
    ensures { result ≡ recorded_term recorded.now }
{
    match recorded {
        None => 0,
        Some(recorded) => recorded.term,
    }
}

/// Puts a text under a key.
fn put_text(
    members: &mut Map<String, Value>,
    alloc: Global,
    key: &str,
    text: &[u8],
) -> Result<(), OutOfMemory>
    ensures { OnOk result (members_view members.new.entries ≡ with_member key.now (text_data text.now) (members_view members.old.entries)) }
{
    let value = text_value(alloc, text)?;
    put(members, alloc, key, value)?;
    Ok(())
}

fn shard_value(
    alloc: Global,
    shard: &ShardName,
    recorded: &Option<Record>,
) -> Result<Value, OutOfMemory>
    ensures { IfOk result (λ v. view v ≡ shard_data shard.now recorded.now) }
{
    let mut members = Map::new(alloc);
    put_text(&mut members, alloc, "keyspace", shard.keyspace.as_slice())?;
    let alias = recorded_alias(alloc, recorded)?;
    put(&mut members, alloc, "primary_alias", alias)?;
    let time = recorded_time(alloc, recorded)?;
    put(&mut members, alloc, "primary_term_start_time", time)?;
    put_text(&mut members, alloc, "shard", shard.shard.as_slice())?;
    let term = Value::from(recorded_term(recorded));
    put(&mut members, alloc, "term", term)?;
    Ok(Value::from(members))
}

/// Appends the compact text of a value that has no float.
fn append_json(value: &Value, into: &mut Vec<u8>) -> Result<(), OutOfMemory>
    ensures { OnOk result
        (has_float (view value.now) ≡ false → into.new.items ≡ into.old.items ++ compact_text (view value.now)) }
{
    let text = value.to_string(*into.allocator())?;
    into.extend_from_slice(text.as_bytes())?;
    Ok(())
}

/// Appends the object of a shard, and of what is recorded of its primary.
pub fn write_shard(
    shard: &ShardName,
    recorded: &Option<Record>,
    into: &mut Vec<u8>,
) -> Result<(), OutOfMemory>
    ensures { OnOk result (into.new.items ≡ into.old.items ++ shard_json shard.now recorded.now) }
{
    let value = shard_value(*into.allocator(), shard, recorded)?;
    append_json(&value, into)
}

fn kind_name(kind: ShownType) -> &'static str
    ensures { result.now ≡ kind_text kind }
{
    match kind {
        ShownType::Primary => "PRIMARY",
        ShownType::Drained => "DRAINED",
        ShownType::Replica => "REPLICA",
        ShownType::Rdonly => "RDONLY",
        ShownType::Spare => "SPARE",
    }
}

/// A server as its UUID in lower case.
fn server_value(alloc: Global, server: &Uuid) -> Result<Value, OutOfMemory>
    ensures { IfOk result (λ v. view v ≡ string (hyphenated_text lower server.now)) }
{
    let mut room = Uuid::encode_buffer();
    let server = server.hyphenated();
    Ok(Value::try_from_str(alloc, server.encode_lower(&mut room))?)
}

fn tablet_value(alloc: Global, row: &TabletRow) -> Result<Value, OutOfMemory>
    ensures { IfOk result (λ v. view v ≡ tablet_data row.now) }
{
    let mut members = Map::new(alloc);
    let alias = alias_value(alloc, &row.alias)?;
    put(&mut members, alloc, "alias", alias)?;
    put_text(&mut members, alloc, "cell", row.alias.cell.as_slice())?;
    let server = server_value(alloc, &row.server)?;
    put(&mut members, alloc, "server", server)?;
    let kind = Value::try_from_str(alloc, kind_name(row.kind))?;
    put(&mut members, alloc, "type", kind)?;
    Ok(Value::from(members))
}

fn tablets_value(alloc: Global, rows: &[TabletRow]) -> Result<Value, OutOfMemory>
    ensures { IfOk result (λ v. view v ≡ tablets_data rows.now) }
{
    let mut values = Vec::new(alloc);
    for row in rows {
        let value = tablet_value(alloc, row)?;
        push(&mut values, value)?;
    }
    Ok(Value::from(values))
}

/// Appends the array of a shard's tablets.
pub fn write_tablets(rows: &[TabletRow], into: &mut Vec<u8>) -> Result<(), OutOfMemory>
    ensures { OnOk result (into.new.items ≡ into.old.items ++ tablets_json rows.now) }
{
    let value = tablets_value(*into.allocator(), rows)?;
    append_json(&value, into)
}
