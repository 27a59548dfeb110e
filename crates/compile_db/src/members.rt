ghost use Rattle.std.specs.Prelude.{◌≡◌, ◌≢◌, ℕ, List, IfOk, option_map};
ghost use Rattle.serde_json.specs.Find.{as_str, get_member};
ghost use Rattle.serde_json.specs.View.{view, items_view, members_view};
ghost use Rattle.compile_db.specs.Database.{texts_of};

use scan_model::{Items, NoMemory, Text};
use serde_json::{Map, Value};
use std::alloc::Global;

// The member of this key, taken out of its object; the other members stay.
pub(crate) fn take_member(members: &mut Map<String, Value>, key: &str) -> Option<Value>
    ensures value { option_map view result
        ≡ get_member key.now (members_view members.old.entries) }
    ensures others { (other : List ℕ) → other ≢ key.now
        → get_member other (members_view members.new.entries)
        ≡ get_member other (members_view members.old.entries) }
{
    members.remove(key)
}

// The text that a value is, moved out of it.
pub(crate) fn text_of(value: Value) -> Option<Text>
    ensures { result ≡ as_str (view value) }
{
    match value {
        Value::String(text) => Some(Text::of_string(text)),
        _ => None,
    }
}

// The texts that all of the values are; None where one isn't a text.
pub(crate) fn texts_of(alloc: Global, values: Vec<Value>) -> Result<Option<Items<Text>>, NoMemory>
    ensures { IfOk result (λ texts. texts ≡ texts_of (items_view values.items)) }
{
    let mut texts = Vec::new(alloc);
    'values: for value in values {
        let Some(text) = text_of(value) else {
            return Ok(None);
        };
        texts.push(text)?;
    }
    Ok(Some(Items::of_vec(texts)))
}
