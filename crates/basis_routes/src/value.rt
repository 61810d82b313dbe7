//! Values: canonical combinations over a list of bases.
ghost use Rattle.std.specs.Prelude.{◌≡◌, ◌≢◌, ◌≤◌, ◌-◌, ◌*ℤ◌, ◌↔◌, pos, [], ◌∷◌, length, slice_index_or, IfOk, MatchOption};
ghost use Rattle.hopf_laws.specs.Values.{Expansion, IsValue, ratio_of, degree_of_value};
ghost use Rattle.basis_routes.specs.Rules.{IsIndexWithin};

use crate::Bases;
use hopf_laws::BasisId;
use hopf_num::{Fraction, OutOfMemory};
use linear_combos::{Code, Combo, Key};
use std::alloc::Global;
use std::marker::Model;

/// A value: a combination of rank 0 to 3, with a basis for each component. One of rank 0 is a
/// scalar.
///
/// It is canonical, its codes are indices of its bases, and no key has a degree past the least limit
/// of its bases. So by the law of uniqueness it is determined by its bases and its reading.
#[derive(Drop)]
pub struct Value {
    bases: Bases,
    combo: Combo,
}

impl Model for Value {
    ghost use Rattle.hopf_laws.specs.Values.{Expansion, IsValue};

    ghost Value = { Expansion };

    ghost view = { λ v. record { bases = v.bases; combination = v.combo } };

    ghost invariant = { λ v. IsValue (record { bases = v.bases; combination = v.combo }) };
}

impl Value {
    /// The scalar that a number is.
    pub fn scalar(alloc: Global, number: &Fraction) -> Result<Value, OutOfMemory>
        ensures bases { IfOk result (λ v. v.bases ≡ []) }
        ensures number { IfOk result (λ v. ratio_of v ≡ number.now) }
    {
        let whole = Combo::term(alloc, number.num(), Key::none())?;
        let combo = whole.over(number.den() as u128);
        Ok(Value::over(Bases::new(&[]), combo))
    }

    /// The element of an index.
    pub fn element(alloc: Global, basis: BasisId, code: Code) -> Result<Value, OutOfMemory>
        requires { IsIndexWithin basis code }
        ensures { IfOk result (λ v. v ≡ record { bases = basis ∷ []; combination = record { rank = 1; den = 1; terms = (pos 1, code ∷ []) ∷ [] } }) }
    {
        let combo = Combo::term(alloc, 1, Key::one(code))?;
        Ok(Value {
            bases: Bases::new(&[basis]),
            combo,
        })
    }

    /// The value of these bases and this combination. It takes no memory.
    pub fn from_combo(bases: &[BasisId], combo: Combo) -> Value
        requires { IsValue (record { bases = bases.now; combination = combo }) }
        ensures { result ≡ record { bases = bases.now; combination = combo } }
    {
        Value {
            bases: Bases::new(bases),
            combo,
        }
    }

    /// The same, from a list of bases.
    pub fn over(bases: Bases, combo: Combo) -> Value
        requires { IsValue (record { bases = bases; combination = combo }) }
        ensures { result ≡ record { bases = bases; combination = combo } }
    {
        Value { bases, combo }
    }

    /// How many components there are, from 0 to 3.
    pub fn rank(&self) -> u32
        ensures rank { result ≡ length self.now.bases }
        ensures value { IsValue self.now }
    {
        self.combo.rank()
    }

    /// The basis of a component, counted from 1.
    pub fn basis(&self, component: u32) -> BasisId
        requires first { 1 ≤ component }
        requires last { component ≤ length self.now.bases }
        ensures { result ≡ slice_index_or self.now.bases (component - 1) result }
    {
        self.bases.at(component)
    }

    /// The bases of the components.
    pub fn bases(&self) -> &Bases
        ensures bases { result.now ≡ self.now.bases }
        ensures value { IsValue self.now }
    {
        &self.bases
    }

    /// The combination.
    pub fn combo(&self) -> &Combo
        ensures combination { result.now ≡ self.now.combination }
        ensures value { IsValue self.now }
    {
        &self.combo
    }

    /// The bases and the combination, as their owner's. It takes no memory.
    pub fn into_parts(self) -> (Bases, Combo)
        ensures bases { result.0 ≡ self.bases }
        ensures combination { result.1 ≡ self.combination }
        ensures value { IsValue self }
    {
        (self.bases, self.combo)
    }

    /// The total degree: the greatest degree of a key, and 0 for zero. The cost is one pass over the
    /// keys.
    pub fn degree(&self) -> u32
        ensures degree { result ≡ degree_of_value self.now }
        ensures value { IsValue self.now }
    {
        let mut greatest = 0;
        for at in 0..self.combo.len() {
            let degree = self.bases.degree_of_key(self.combo.key_at(at));
            if greatest < degree {
                greatest = degree;
            }
        }
        greatest
    }

    /// The number that a scalar is, or `None` exactly where the rank is not 0.
    pub fn as_fraction(&self) -> Option<Fraction>
        ensures { MatchOption result (length self.now.bases ≢ 0) (λ f. (length self.now.bases ≡ 0) × (f ≡ ratio_of self.now)) }
    {
        if self.combo.rank() != 0 {
            return None;
        }
        let num = if self.combo.len() == 0 {
            0
        } else {
            self.combo.num_at(0)
        };
        Some(Fraction::new(num, self.combo.den()).unwrap())
    }

    /// The same value.
    pub fn copy(&self, alloc: Global) -> Result<Value, OutOfMemory>
        ensures { IfOk result (λ v. v ≡ self.now) }
    {
        let combo = self.combo.copy(alloc)?;
        Ok(Value {
            bases: self.bases.copy(),
            combo,
        })
    }
}
