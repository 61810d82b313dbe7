//! The names of a session and their values.
ghost use Rattle.std.specs.Prelude.{◌≡◌, [], OnOk, OnErr, option_copied};
ghost use Rattle.hopf_laws.specs.Values.{IsValue};
ghost use Rattle.session_evaluation.specs.Names.{value_of, with_value, has_room_for, AreValues};

use basis_routes::Value;
use hopf_num::OutOfMemory;
use indexmap::IndexMap;
use session_tokens::Name;
use std::alloc::Global;
use std::marker::Model;

/// The most names of a session.
pub const NAME_LIMIT: usize = 256;

/// Names and their values, in the order of the first assignments. A look-up takes no memory, and
/// time in the length of the name.
#[derive(Drop)]
pub struct Names {
    values: IndexMap<Vec<u8>, Value>,
}

impl Model for Names {
    ghost use Rattle.std.specs.Prelude.{List, ℕ, map};
    ghost use Rattle.hopf_laws.specs.Values.{Expansion};
    ghost use Rattle.session_evaluation.specs.Names.{AreValues};

    ghost Value = { List (List ℕ × Expansion) };

    ghost view = { λ n. map (λ entry. (entry.0.items, entry.1)) n.values.entries };

    ghost invariant = { λ n. AreValues (map (λ entry. (entry.0.items, entry.1)) n.values.entries) };
}

impl Names {
    /// No names. It takes no memory.
    pub fn new(alloc: Global) -> Names
        ensures { result ≡ [] }
    {
        Names {
            values: IndexMap::new(alloc),
        }
    }

    /// What the names stand for are values. Nothing is computed: callers cite the clause.
    pub fn are_values(&self)
        ensures { AreValues self.now }
    {
        let _values = &self.values;
    }

    /// The value of a name, or `None` exactly where it has none.
    pub fn get(&self, name: &[u8]) -> Option<&Value>
        ensures { option_copied result ≡ value_of self.now name.now }
    {
        self.values.get(name)
    }

    /// Whether the name has a value, or can be a new one.
    pub fn has_room_for(&self, name: &[u8]) -> bool
        ensures { result ≡ has_room_for self.now name.now }
    {
        self.get(name).is_some() || self.values.len() < NAME_LIMIT
    }

    /// Gives a name a value: a known one keeps its place, and a new one comes last.
    pub fn assign(&mut self, name: Name, value: Value) -> Result<(), OutOfMemory>
        requires { IsValue value }
        ensures ok { OnOk result (self.new ≡ with_value self.old name value) }
        ensures err { OnErr result (self.new ≡ self.old) }
    {
        match self.values.insert(name.into_vec(), value) {
            Ok(_) => Ok(()),
            Err(_) => Err(OutOfMemory),
        }
    }
}
