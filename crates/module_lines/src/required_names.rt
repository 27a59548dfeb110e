ghost use Rattle.std.specs.Prelude.{◌≡◌, [], OnOk, OnErr};
ghost use Rattle.module_lines.specs.Lines.{with_name};

use scan_model::{Items, NoMemory, Text};
use std::alloc::Global;
use std::marker::Model;
use string_set::StringSet;

/// The names that a unit requires, each once, in the order of first appearance ([module.import]).
#[derive(Drop)]
pub(crate) struct RequiredNames {
    names: Vec<Text>,
    /// The same names, so that one that is there is found without a search through the list.
    known: StringSet,
}

impl Model for RequiredNames {
    ghost use Rattle.std.specs.Prelude.{List, ℕ};
    ghost use Rattle.module_lines.specs.Known.{AreKnown};

    ghost Value = { List (List ℕ) };

    ghost view = { λ r. r.names.items };

    ghost invariant = { λ r. AreKnown r.names.items r.known };
}

impl RequiredNames {
    /// No name. It takes no memory.
    pub(crate) fn new(alloc: Global) -> RequiredNames
        ensures { result ≡ [] }
    {
        RequiredNames {
            names: Vec::new(alloc),
            known: StringSet::new(alloc),
        }
    }

    /// Adds the name, unless it is there. Want of memory changes nothing.
    pub(crate) fn add(&mut self, name: Text) -> Result<(), NoMemory>
        ensures ok { OnOk result (self.new ≡ with_name self.old name) }
        ensures err { OnErr result (self.new ≡ self.old) }
    {
        if self.known.contains(name.as_slice()) {
            return Ok(());
        }
        self.names.reserve(1)?;
        self.known.insert(name.as_slice())?;
        self.names.push_reserved(name);
        Ok(())
    }

    /// The names.
    pub(crate) fn into_items(self) -> Items<Text>
        ensures { result ≡ self }
    {
        let RequiredNames { names, .. } = self;
        Items::of_vec(names)
    }
}
