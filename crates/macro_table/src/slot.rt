ghost use Rattle.std.specs.Prelude.{◌≡◌, [], Some, OnOk, OnErr};
ghost use Rattle.std.specs.Option.{option_copied};
ghost use Rattle.macro_table.specs.Table.{fresh, defined, undefined, saving, restored};

use scan_model::{Def, NoMemory};
use std::alloc::Global;
use std::marker::Model;
use std::sync::Arc;

/// What one name has: its definition, where it has one, and those that were saved, the last at the end. A definition is
/// shared between them, since a saved one is never changed.
#[derive(Drop)]
pub(crate) struct Slot {
    current: Option<Arc<Def>>,
    saved: Vec<Option<Arc<Def>>>,
}

impl Model for Slot {
    ghost use Rattle.macro_table.specs.Table.{SlotView};
    ghost use Rattle.macro_table.specs.Entries.{shared, shared_stack};

    ghost Value = { SlotView };

    ghost view = { λ s. record { current = shared s.current; saved = shared_stack s.saved.items } };
}

impl Slot {
    /// Neither a definition nor a saved one.
    pub(crate) fn new(alloc: Global) -> Slot
        ensures { result ≡ fresh }
    {
        Slot {
            current: None,
            saved: Vec::new(alloc),
        }
    }

    pub(crate) fn define(&mut self, def: Arc<Def>)
        ensures { self.new ≡ defined def.value self.old }
    {
        self.current = Some(def);
    }

    pub(crate) fn undef(&mut self)
        ensures { self.new ≡ undefined self.old }
    {
        self.current = None;
    }

    /// Saves the definition, or that there is none. Want of memory changes nothing.
    pub(crate) fn push(&mut self) -> Result<(), NoMemory>
        ensures ok { OnOk result (self.new ≡ saving self.old) }
        ensures err { OnErr result (self.new ≡ self.old) }
    {
        let definition = match &self.current {
            Some(def) => Some(Arc::try_clone(def)?),
            None => None,
        };
        self.saved.push(definition)?;
        Ok(())
    }

    /// Restores the last saved one. It does nothing where there is none.
    pub(crate) fn pop(&mut self)
        ensures { self.new ≡ restored self.old }
    {
        if let Some(definition) = self.saved.pop() {
            self.current = definition;
        }
    }

    pub(crate) fn definition(&self) -> Option<&Def>
        ensures { option_copied result ≡ self.now.current }
    {
        match &self.current {
            Some(def) => Some(&**def),
            None => None,
        }
    }
}
