ghost use Rattle.std.specs.Prelude.{◌≡◌, ℕ, List, IfOk};
ghost use Rattle.scan_model.specs.MacroDefinition.{all_params};
ghost use Rattle.scan_model.specs.Substitution.{is_replaced};
ghost use Rattle.substitution.specs.Places.{place_in, place_of, IsIndex};
ghost use Rattle.substitution.specs.Written.{is_taken_as_written};

use crate::alone::{is_variable_part, names_alone};
use crate::params::{parameter, parameter_count};
use crate::written::names_of_operands;
use scan_model::{FunctionDef, NoMemory, has_opt};
use std::alloc::Global;
use std::collections::{HashMap, HashSet};

/// What a call asks of a definition by a parameter's name.
#[derive(Drop)]
pub(crate) struct Index<'a> {
    pub(crate) places: HashMap<&'a [u8], usize>,
    /// The names that stand somewhere with neither `#` nor `##` next to them.
    pub(crate) alone: HashSet<&'a [u8]>,
    /// The names that are somewhere an operand of `#` or `##`.
    pub(crate) operands: HashSet<&'a [u8]>,
}

impl<'a> Index<'a> {
    /// The definition's index, in time linear in its parameters and its list.
    pub(crate) fn of(alloc: Global, definition: &'a FunctionDef) -> Result<Index<'a>, NoMemory>
        ensures { IfOk result (IsIndex definition.now) }
    {
        Ok(Index {
            places: places(alloc, definition)?,
            alone: names_alone(alloc, definition)?,
            operands: names_of_operands(alloc, definition)?,
        })
    }

    pub(crate) fn place(&self, definition: &FunctionDef, name: &[u8]) -> Option<usize>
        requires { IsIndex definition.now self.now }
        ensures { result ≡ place_of (all_params definition.now.params definition.now.variadic) name.now }
    {
        self.places.get(name).copied()
    }

    #[tactic(auto, unfolding(scan_model::specs::Substitution::is_replaced))]
    pub(crate) fn is_replaced(&self, definition: &FunctionDef, name: &[u8]) -> bool
        requires { IsIndex definition.now self.now }
        ensures { result ≡ is_replaced definition.now name.now }
    {
        self.alone.contains(name)
            || (is_variable_part(definition, name) && has_opt(definition.body.as_slice()))
    }

    pub(crate) fn is_taken_as_written(&self, definition: &FunctionDef, name: &[u8]) -> bool
        requires { IsIndex definition.now self.now }
        ensures { result ≡ is_taken_as_written definition.now name.now }
    {
        self.operands.contains(name)
    }
}

/// The place of each parameter by its name; of two with one name, the first one's.
fn places<'a>(
    alloc: Global,
    definition: &'a FunctionDef,
) -> Result<HashMap<&'a [u8], usize>, NoMemory>
    ensures { IfOk result (λ places. (q : List ℕ) → place_in places.entries q ≡ place_of (all_params definition.now.params definition.now.variadic) q) }
{
    let mut places = HashMap::new(alloc);
    let mut place = parameter_count(definition);
    'params: while place > 0 {
        place -= 1;
        places.insert(parameter(definition, place), place)?;
    }
    Ok(places)
}
