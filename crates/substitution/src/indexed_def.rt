ghost use Rattle.std.specs.Prelude.{◌≡◌, ◌<◌, [], length, slice_index_or, IfOk, IfSome};
ghost use Rattle.scan_model.specs.MacroDefinition.{all_params};
ghost use Rattle.scan_model.specs.Substitution.{is_replaced};
ghost use Rattle.substitution.specs.Places.{place_of, IsIndex};
ghost use Rattle.substitution.specs.Written.{is_taken_as_written};

use crate::alone::is_replaced;
use crate::index::Index;
use crate::params::{parameter, parameter_count, place_of};
use crate::written::is_taken_as_written;
use scan_model::{FunctionDef, NoMemory};
use std::alloc::Global;
use std::marker::Model;

/// Up to so many parameters a walk over them costs less than an index.
const FEW: usize = 8;

/// A function-like macro's definition at a call, which finds what the call asks of a parameter by its name. Contracts see
/// the definition.
#[derive(Drop)]
pub struct IndexedDef<'a> {
    definition: &'a FunctionDef,
    /// None where the parameters are few.
    index: Option<Box<Index<'a>>>,
}

impl<'a> Model for IndexedDef<'a> {
    ghost use Rattle.std.specs.Prelude.{IfSome};
    ghost use Rattle.scan_model.specs.declared.macros.FunctionDef.{FunctionDef};
    ghost use Rattle.substitution.specs.Places.{IsIndex};

    ghost Value = { FunctionDef };

    ghost view = { λ d. d.definition.now };

    ghost invariant = { λ d. IfSome d.index (λ index. IsIndex d.definition.now index.value) };
}

impl<'a> IndexedDef<'a> {
    /// The same definition, in time linear in its parameters and its list. `Err` is want of memory.
    pub fn new(alloc: Global, definition: &'a FunctionDef) -> Result<IndexedDef<'a>, NoMemory>
        ensures { IfOk result (λ indexed. indexed ≡ definition.now) }
    {
        Ok(IndexedDef {
            definition,
            index: index_of_many(alloc, definition)?,
        })
    }

    pub(crate) fn function(&self) -> &'a FunctionDef
        ensures { result.now ≡ self.now }
    {
        self.definition
    }

    /// How many parameters there are, with the variable part.
    pub fn parameter_count(&self) -> usize
        ensures { result ≡ length (all_params self.now.params self.now.variadic) }
    {
        parameter_count(self.definition)
    }

    /// The name of the parameter at a place; the variable part's is the last.
    pub fn parameter(&self, place: usize) -> &'a [u8]
        requires { place < length (all_params self.now.params self.now.variadic) }
        ensures { result.now ≡ slice_index_or (all_params self.now.params self.now.variadic) place [] }
    {
        parameter(self.definition, place)
    }

    /// The place of the parameter of this name, the first of them; none of a name that isn't a parameter's.
    pub fn place(&self, name: &[u8]) -> Option<usize>
        ensures { result ≡ place_of (all_params self.now.params self.now.variadic) name.now }
    {
        match &self.index {
            Some(index) => index.place(self.definition, name),
            None => place_of(self.definition, name),
        }
    }

    /// Whether a replacement needs the argument of the parameter of this name replaced by itself ([cpp.subst]): the
    /// parameter stands somewhere with neither `#` nor `##` next to it. The variable part is also needed after `, ##`,
    /// and for each `__VA_OPT__`.
    pub fn is_replaced(&self, name: &[u8]) -> bool
        ensures { result ≡ is_replaced self.now name.now }
    {
        match &self.index {
            Some(index) => index.is_replaced(self.definition, name),
            None => is_replaced(self.definition, name),
        }
    }

    /// Whether a replacement may take the argument of the parameter of this name as it is written ([cpp.stringize],
    /// [cpp.concat]): the parameter stands somewhere right after `#` or `##`, or right before `##`. Where it doesn't,
    /// only what the argument is replaced by counts.
    pub fn is_taken_as_written(&self, name: &[u8]) -> bool
        ensures { result ≡ is_taken_as_written self.now name.now }
    {
        match &self.index {
            Some(index) => index.is_taken_as_written(self.definition, name),
            None => is_taken_as_written(self.definition, name),
        }
    }
}

fn index_of_many<'a>(
    alloc: Global,
    definition: &'a FunctionDef,
) -> Result<Option<Box<Index<'a>>>, NoMemory>
    ensures { IfOk result (λ index. IfSome index (λ index. IsIndex definition.now index.value)) }
{
    if definition.params.as_slice().len() <= FEW {
        return Ok(None);
    }
    let index = Index::of(alloc, definition)?;
    Ok(Some(Box::new(alloc, index)?))
}
