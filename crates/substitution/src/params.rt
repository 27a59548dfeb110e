ghost use Rattle.std.specs.Prelude.{◌≡◌, ◌<◌, [], length, slice_index_or};
ghost use Rattle.scan_model.specs.MacroDefinition.{all_params};
ghost use Rattle.substitution.specs.Places.{place_of};

use scan_model::FunctionDef;

/// How many parameters there are, with the variable part.
pub(crate) fn parameter_count(definition: &FunctionDef) -> usize
    ensures { result ≡ length (all_params definition.now.params definition.now.variadic) }
{
    let count = definition.params.as_slice().len();
    match definition.variadic {
        Some(_) => count + 1,
        None => count,
    }
}

/// The name of the parameter at a place; the variable part's is the last.
pub(crate) fn parameter(definition: &FunctionDef, place: usize) -> &[u8]
    requires { place < length (all_params definition.now.params definition.now.variadic) }
    ensures { result.now ≡ slice_index_or (all_params definition.now.params definition.now.variadic) place [] }
{
    let params = definition.params.as_slice();
    match &definition.variadic {
        Some(name) if place == params.len() => name.as_slice(),
        _ => params[place].as_slice(),
    }
}

/// The place of the parameter of this name, found by a walk over the parameters.
pub(crate) fn place_of(definition: &FunctionDef, name: &[u8]) -> Option<usize>
    ensures { result ≡ place_of (all_params definition.now.params definition.now.variadic) name.now }
{
    'params: for i in 0..parameter_count(definition) {
        if parameter(definition, i) == name {
            return Some(i);
        }
    }
    None
}
