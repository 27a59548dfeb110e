ghost use Rattle.std.specs.Prelude.{◌≡◌, ◌==◌};

use std::marker::Model;

/// A set of macro names, as its number in a table of hide sets. Contracts see the number; 0 is the empty set.
#[derive(Clone, Copy)]
pub struct HideSet {
    number: usize,
}

impl Model for HideSet {
    ghost use Rattle.std.specs.Prelude.{ℕ};
    ghost use Rattle.std.specs.Coded.{coded_ℕ};

    ghost Value = { ℕ };

    ghost coded = { coded_ℕ };

    ghost view = { λ set. set.number };

    ghost inverse = { λ n. record { number = n } };
}

impl HideSet {
    /// The set of no name, which every table has.
    pub const fn empty() -> HideSet
        ensures { result ≡ 0 }
    {
        HideSet { number: 0 }
    }

    pub fn is_empty(self) -> bool
        ensures { result ≡ (self == 0) }
    {
        self.number == 0
    }

    /// Whether both are the same number. Two numbers of one table may mean the same names.
    pub fn is_same(self, other: HideSet) -> bool
        ensures { result ≡ (self == other) }
    {
        self.number == other.number
    }

    pub(crate) fn of_number(number: usize) -> HideSet
        ensures { result ≡ number }
    {
        HideSet { number }
    }

    pub(crate) fn number(self) -> usize
        ensures { result ≡ self }
    {
        self.number
    }
}
