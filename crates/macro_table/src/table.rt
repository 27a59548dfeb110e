ghost use Rattle.std.specs.Prelude.{◌≡◌, Some, IfSome, IfOk, OnOk, OnErr};
ghost use Rattle.std.specs.Option.{option_copied};
ghost use Rattle.scan_model.specs.Macros as map;
ghost use Rattle.macro_table.specs.Table.{macros_of};
ghost use Rattle.macro_table.specs.Definition.{Fits, IsDefinition};

use crate::slot::Slot;
use scan_model::{BuiltIn, Bytes, Def, NoMemory};
use std::alloc::Global;
use std::collections::HashMap;
use std::marker::Model;
use std::sync::Arc;

/// A finite map from names to their definitions, and a stack of saved definitions, or of their absence, for each name.
#[derive(Drop)]
pub struct Macros {
    alloc: Global,
    slots: HashMap<Vec<u8>, Slot>,
}

impl Model for Macros {
    ghost use Rattle.std.specs.Prelude.{List, ℕ};
    ghost use Rattle.macro_table.specs.Table.{SlotView, macros_of};
    ghost use Rattle.macro_table.specs.Entries.{entries};
    ghost use Rattle.macro_table.specs.Definition.{AreSound};

    ghost Value = { List (List ℕ × SlotView) };

    ghost view = { λ m. entries m.slots.entries };

    ghost invariant = { λ m. AreSound (macros_of (entries m.slots.entries)) };
}

impl Macros {
    /// The macros that the language itself defines ([cpp.predefined], [cpp.cond]), and `__COUNTER__`.
    pub fn new(alloc: Global) -> Result<Macros, NoMemory>
        ensures { IfOk result (λ macros. macros_of macros ≡ map.built_ins) }
    {
        let mut macros = Macros {
            alloc,
            slots: HashMap::new(alloc),
        };
        macros.set_built_in(b"__has_cpp_attribute", BuiltIn::HasAttribute)?;
        macros.set_built_in(b"__has_include_next", BuiltIn::HasIncludeNext)?;
        macros.set_built_in(b"__has_include", BuiltIn::HasInclude)?;
        macros.set_built_in(b"__cplusplus", BuiltIn::Cplusplus)?;
        macros.set_built_in(b"__COUNTER__", BuiltIn::Counter)?;
        macros.set_built_in(b"__TIME__", BuiltIn::Time)?;
        macros.set_built_in(b"__DATE__", BuiltIn::Date)?;
        macros.set_built_in(b"__LINE__", BuiltIn::Line)?;
        macros.set_built_in(b"__FILE__", BuiltIn::File)?;
        Ok(macros)
    }

    /// The definition of a name; None exactly where it has none.
    pub fn get(&self, name: &[u8]) -> Option<&Def>
        ensures value { option_copied result ≡ (macros_of self.now).defs name.now }
        ensures sound { IfSome result (λ def. Fits name.now def.now) }
    {
        match self.slots.get(name) {
            Some(slot) => slot.definition(),
            None => None,
        }
    }

    /// Gives the name this definition, in the place of an earlier one, and leaves all else. Want of memory changes nothing.
    pub fn define(&mut self, name: Bytes, def: Def) -> Result<(), NoMemory>
        requires { IsDefinition name def }
        ensures ok { OnOk result (macros_of self.new ≡ map.define (macros_of self.old) name def) }
        ensures err { OnErr result (self.new ≡ self.old) }
    {
        self.set(name.as_slice(), def)
    }

    /// Gives the name a definition that others have too, in the place of an earlier one, and leaves all else. The name is
    /// copied only where the table lacks it. Want of memory comes also where `Arc` refuses one more owner; it changes
    /// nothing.
    pub fn define_shared(&mut self, name: &[u8], def: &Arc<Def>) -> Result<(), NoMemory>
        requires { IsDefinition name.now def.now.value }
        ensures ok { OnOk result (macros_of self.new ≡ map.define (macros_of self.old) name.now def.now.value) }
        ensures err { OnErr result (self.new ≡ self.old) }
    {
        let shared = Arc::try_clone(def)?;
        self.set_shared(name, shared)
    }

    /// Takes the name's definition away, where it has one, and leaves the saved ones.
    pub fn undef(&mut self, name: &[u8])
        ensures { macros_of self.new ≡ map.undef (macros_of self.old) name.now }
    {
        if let Some(slot) = self.slots.get_mut(name) {
            slot.undef();
        }
    }

    /// Saves the name's definition, or that it has none. Want of memory changes nothing.
    pub fn push(&mut self, name: &[u8]) -> Result<(), NoMemory>
        ensures ok { OnOk result (macros_of self.new ≡ map.push (macros_of self.old) name.now) }
        ensures err { OnErr result (self.new ≡ self.old) }
    {
        if let Some(slot) = self.slots.get_mut(name) {
            return slot.push();
        }
        let mut slot = Slot::new(self.alloc);
        slot.push()?;
        let key = Vec::from_slice(self.alloc, name)?;
        self.slots.insert(key, slot)?;
        Ok(())
    }

    /// Restores what was saved last for the name, a definition or that there was none. It does nothing where nothing is
    /// saved.
    pub fn pop(&mut self, name: &[u8])
        ensures { macros_of self.new ≡ map.pop (macros_of self.old) name.now }
    {
        if let Some(slot) = self.slots.get_mut(name) {
            slot.pop();
        }
    }

    fn set_built_in(&mut self, name: &[u8], built_in: BuiltIn) -> Result<(), NoMemory>
        requires { map.built_in name.now ≡ Some (Def.BuiltIn built_in) }
        ensures { OnOk result (macros_of self.new ≡ map.define (macros_of self.old) name.now (Def.BuiltIn built_in)) }
    {
        self.set(name, Def::BuiltIn(built_in))
    }

    // Want of memory changes nothing.
    fn set(&mut self, name: &[u8], def: Def) -> Result<(), NoMemory>
        requires { Fits name.now def }
        ensures ok { OnOk result (macros_of self.new ≡ map.define (macros_of self.old) name.now def) }
        ensures err { OnErr result (self.new ≡ self.old) }
    {
        let shared = Arc::new(self.alloc, def)?;
        self.set_shared(name, shared)
    }

    // Want of memory changes nothing.
    fn set_shared(&mut self, name: &[u8], shared: Arc<Def>) -> Result<(), NoMemory>
        requires { Fits name.now shared.value }
        ensures ok { OnOk result (macros_of self.new ≡ map.define (macros_of self.old) name.now shared.value) }
        ensures err { OnErr result (self.new ≡ self.old) }
    {
        if let Some(slot) = self.slots.get_mut(name) {
            slot.define(shared);
            return Ok(());
        }
        let key = Vec::from_slice(self.alloc, name)?;
        let mut slot = Slot::new(self.alloc);
        slot.define(shared);
        self.slots.insert(key, slot)?;
        Ok(())
    }
}
