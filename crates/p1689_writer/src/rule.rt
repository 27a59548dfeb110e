ghost use Rattle.std.specs.Prelude.{◌≡◌, IfOk, OnOk, map};
ghost use Rattle.serde_json.specs.Data.{string, put as with_member};
ghost use Rattle.serde_json.specs.View.{view, members_view};
ghost use Rattle.p1689_writer.specs.Document.{rule_of, provided_entries as provided_data, provided_entry as provided_entry_data, required_entry as required_entry_data};
ghost use Rattle.p1689_writer.specs.Puts.{put_list};

use scan_model::{NoMemory, Provided, Record, Text};
use serde_json::{Map, Value, put};
use std::alloc::Global;

/// What one unit's rule says. A list that is empty is left out.
pub(crate) fn rule(alloc: Global, unit: &Record) -> Result<Value, NoMemory>
    ensures { IfOk result (λ value. view value ≡ rule_of unit.now) }
{
    let provided = provided_entries(alloc, unit)?;
    let required = required_entries(alloc, unit.required.as_slice())?;
    let mut members = Map::new(alloc);
    put_text(&mut members, alloc, "primary-output", &unit.output)?;
    put_entries(&mut members, alloc, "provides", provided)?;
    put_entries(&mut members, alloc, "requires", required)?;
    Ok(Value::Object(members))
}

/// Writes a list of entries to its key, where there are any.
fn put_entries(
    members: &mut Map<String, Value>,
    alloc: Global,
    key: &str,
    entries: Vec<Value>,
) -> Result<(), NoMemory>
    ensures { OnOk result (members_view members.new.entries
        ≡ put_list key.now (map view entries.items) (members_view members.old.entries)) }
{
    if !entries.is_empty() {
        put(members, alloc, key, Value::Array(entries))?;
    }
    Ok(())
}

/// The one module that a unit provides, or none.
fn provided_entries(alloc: Global, unit: &Record) -> Result<Vec<Value>, NoMemory>
    ensures { IfOk result (λ values. map view values.items
        ≡ provided_data unit.now.source unit.now.provides) }
{
    let mut entries = Vec::new(alloc);
    if let Some(provided) = &unit.provides {
        entries.push(provided_entry(alloc, &unit.source, provided)?)?;
    }
    Ok(entries)
}

fn provided_entry(alloc: Global, source: &Text, provided: &Provided) -> Result<Value, NoMemory>
    ensures { IfOk result (λ value. view value ≡ provided_entry_data source.now provided.now) }
{
    let interface = Value::Bool(provided.interface);
    let mut members = Map::new(alloc);
    put(&mut members, alloc, "is-interface", interface)?;
    put_text(&mut members, alloc, "logical-name", &provided.name)?;
    put_text(&mut members, alloc, "source-path", source)?;
    Ok(Value::Object(members))
}

/// An entry for each required name, in order.
fn required_entries(alloc: Global, names: &[Text]) -> Result<Vec<Value>, NoMemory>
    ensures { IfOk result (λ values. map view values.items
        ≡ map required_entry_data names.now) }
{
    let mut entries = Vec::new(alloc);
    for name in names {
        entries.push(required_entry(alloc, name)?)?;
    }
    Ok(entries)
}

fn required_entry(alloc: Global, name: &Text) -> Result<Value, NoMemory>
    ensures { IfOk result (λ value. view value ≡ required_entry_data name.now) }
{
    let mut members = Map::new(alloc);
    put_text(&mut members, alloc, "logical-name", name)?;
    Ok(Value::Object(members))
}

/// Writes a text to its key.
fn put_text(
    members: &mut Map<String, Value>,
    alloc: Global,
    key: &str,
    text: &Text,
) -> Result<(), NoMemory>
    ensures { OnOk result (members_view members.new.entries
        ≡ with_member key.now (string text.now) (members_view members.old.entries)) }
{
    let value = Value::try_from_str(alloc, text.as_str())?;
    Ok(put(members, alloc, key, value)?)
}
