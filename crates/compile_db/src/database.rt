ghost use Rattle.std.specs.Prelude.{◌≡◌, IfOk, option_map};
ghost use Rattle.serde_json.specs.Find.{as_array};
ghost use Rattle.serde_json.specs.View.{view, items_view};
ghost use Rattle.compile_db.specs.Database.{database, limited, entries_from};

use crate::entry::{Entry, entry_of};
use scan_model::{Items, NoMemory};
use serde_json::Value;
use std::alloc::Global;

// The most entries that a database may have.
const MAX_ENTRIES: usize = 131_072;

/// Why a database is refused. Where several reasons hold, the first of these is given.
#[derive(Clone, Copy, Debug, PartialEq, Eq)]
pub enum DbFault {
    /// `serde_json` reads no value: the bytes are no UTF-8 or no JSON, a number is beyond the floats, or arrays and
    /// objects nest more than 127 deep.
    NotJson,
    /// The JSON value is no array.
    NotArray,
    /// The entry of this number, counted from 1, is the first that isn't well-formed.
    BadEntry(u64),
    /// It has this many entries, which are more than 131,072.
    TooMany(u64),
}

/// The entries of a database, in order; `Err` is want of memory alone.
///
/// An entry is an object whose `directory` and `file` are texts. Its words are `arguments`, an array of texts, or, where
/// it has none, `command`, a text. `output` is a text where it is there. Other members are passed over, and of those with
/// one key the last counts.
pub fn read(alloc: Global, text: &[u8]) -> Result<Result<Items<Entry>, DbFault>, NoMemory>
    ensures { IfOk result (λ answer. answer ≡ database text.now) }
{
    let value = match Value::from_slice(alloc, text) {
        Ok(value) => value,
        Err(error) if error.is_memory() => return Err(NoMemory),
        Err(_) => return Ok(Err(DbFault::NotJson)),
    };
    match values_of(value) {
        Some(values) => limited_entries(alloc, values),
        None => Ok(Err(DbFault::NotArray)),
    }
}

// The values of an array.
fn values_of(value: Value) -> Option<Vec<Value>>
    ensures { option_map (λ values. items_view values.items) result ≡ as_array (view value) }
{
    match value {
        Value::Array(values) => Some(values),
        _ => None,
    }
}

// The entries, of which there may be too many.
fn limited_entries(
    alloc: Global,
    values: Vec<Value>,
) -> Result<Result<Items<Entry>, DbFault>, NoMemory>
    ensures { IfOk result (λ answer. answer ≡ limited (entries_from 1 (items_view values.items))) }
{
    let entries = match entries_of(alloc, values)? {
        Ok(entries) => entries,
        Err(fault) => return Ok(Err(fault)),
    };
    let count = entries.as_slice().len();
    if count > MAX_ENTRIES {
        return Ok(Err(DbFault::TooMany(count as u64)));
    }
    Ok(Ok(entries))
}

// Each value is let go once its entry has been made of it.
fn entries_of(alloc: Global, values: Vec<Value>) -> Result<Result<Items<Entry>, DbFault>, NoMemory>
    ensures { IfOk result (λ answer. answer ≡ entries_from 1 (items_view values.items)) }
{
    let mut entries = Vec::new(alloc);
    'values: for value in values {
        let Some(entry) = entry_of(alloc, value)? else {
            return Ok(Err(DbFault::BadEntry(entries.len() as u64 + 1)));
        };
        entries.push(entry)?;
    }
    Ok(Ok(Items::of_vec(entries)))
}
