ghost use Rattle.std.specs.Prelude.{◌≡◌, IfOk, map};
ghost use Rattle.serde_json.specs.View.{view};
ghost use Rattle.p1689_writer.specs.Document.{document_data, rules as rules_data};

use crate::rule::rule;
use scan_model::{NoMemory, UnitEnd};
use serde_json::{Map, Value, put};
use std::alloc::Global;

/// The whole document as a value.
pub(crate) fn document(alloc: Global, ends: &[UnitEnd]) -> Result<Value, NoMemory>
    ensures { IfOk result (λ value. view value ≡ document_data ends.now) }
{
    let rules = rules(alloc, ends)?;
    let mut members = Map::new(alloc);
    put(&mut members, alloc, "revision", Value::from(0u64))?;
    put(&mut members, alloc, "rules", Value::Array(rules))?;
    put(&mut members, alloc, "version", Value::from(1u64))?;
    Ok(Value::Object(members))
}

/// A rule for each record, in order.
fn rules(alloc: Global, ends: &[UnitEnd]) -> Result<Vec<Value>, NoMemory>
    ensures { IfOk result (λ values. map view values.items ≡ rules_data ends.now) }
{
    let mut rules = Vec::new(alloc);
    for end in ends {
        if let UnitEnd::Record(record) = end {
            rules.push(rule(alloc, record)?)?;
        }
    }
    Ok(rules)
}
