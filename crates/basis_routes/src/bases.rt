//! Lists of bases.
ghost use Rattle.std.specs.Prelude.{◌≡◌, ◌≢◌, ◌+◌, ◌≤◌, ◌-◌, ◌++◌, ◌∷◌, [], ℕ, List, length, slice_index_or, IfOk, IfErr};
ghost use Rattle.realisations.specs.Indices.{total_degree};
ghost use Rattle.hopf_laws.specs.Bases.{least_limit};
ghost use Rattle.basis_routes.specs.declared.refusal.Refusal.TheVariants.{Memory};
ghost use Rattle.basis_routes.specs.Checks.{Tests};
ghost use Rattle.basis_routes.specs.Joins.{joined, join_checks};
ghost use Rattle.basis_routes.specs.Lists.{bases_of, doubled as with_double, replaced as with_other, without as left_without};

use crate::Refusal;
use crate::joins::join_or_refuse;
use crate::rules::degree_of_code;
use hopf_laws::{BasisId, algebra, limit};
use linear_combos::Key;
use std::marker::Model;

// The bases themselves, so that a list takes no memory.
#[derive(Clone, Copy)]
enum Held {
    None,
    One(BasisId),
    Two(BasisId, BasisId),
    Three(BasisId, BasisId, BasisId),
}

/// A list of 0 to 3 bases, one for each component of a value. No call takes memory.
#[derive(Drop)]
pub struct Bases {
    held: Held,
}

impl Model for Bases {
    ghost use Rattle.std.specs.Prelude.{◌≤◌, List, length};
    ghost use Rattle.basis_names.specs.declared.bases.BasisId.{BasisId};
    ghost use Rattle.basis_routes.specs.Lists.{bases_of};

    ghost Value = { List BasisId };

    ghost view = { λ b. bases_of b.held };

    ghost invariant = { λ b. length (bases_of b.held) ≤ 3 };
}

impl Bases {
    /// The list of these bases.
    pub fn new(bases: &[BasisId]) -> Bases
        requires { length bases.now ≤ 3 }
        ensures { result ≡ bases.now }
    {
        let held = match bases {
            [] => Held::None,
            [a] => Held::One(*a),
            [a, b] => Held::Two(*a, *b),
            [a, b, c] => Held::Three(*a, *b, *c),
            _ => unreachable!(),
        };
        Bases { held }
    }

    /// How many bases there are, from 0 to 3.
    pub fn len(&self) -> u32
        ensures value { result ≡ length self.now }
        ensures at_most { result ≤ 3 }
    {
        match self.held {
            Held::None => 0,
            Held::One(_) => 1,
            Held::Two(_, _) => 2,
            Held::Three(_, _, _) => 3,
        }
    }

    /// The basis of a component, counted from 1.
    pub fn at(&self, component: u32) -> BasisId
        requires first { 1 ≤ component }
        requires last { component ≤ length self.now }
        ensures { result ≡ slice_index_or self.now (component - 1) result }
    {
        match self.held {
            Held::One(a) => a,
            Held::Two(a, b) => if component == 1 { a } else { b },
            Held::Three(a, b, c) => {
                if component == 1 {
                    a
                } else if component == 2 {
                    b
                } else {
                    c
                }
            }
            Held::None => unreachable!(),
        }
    }

    /// The same list.
    pub fn copy(&self) -> Bases
        ensures { result ≡ self.now }
    {
        Bases { held: self.held }
    }

    /// The bases of this list, and then those of the other one.
    pub fn followed_by(&self, other: &Bases) -> Bases
        requires { length self.now + length other.now ≤ 3 }
        ensures { result ≡ self.now ++ other.now }
    {
        let held = match (self.held, other.held) {
            (Held::None, bases) | (bases, Held::None) => bases,
            (Held::One(a), Held::One(b)) => Held::Two(a, b),
            (Held::One(a), Held::Two(b, c)) | (Held::Two(a, b), Held::One(c)) => Held::Three(
                a, b, c,
            ),
            _ => unreachable!(),
        };
        Bases { held }
    }

    /// The list with another basis at a component, counted from 1.
    pub fn replaced(&self, component: u32, basis: BasisId) -> Bases
        requires first { 1 ≤ component }
        requires last { component ≤ length self.now }
        ensures { result ≡ with_other (component - 1) (basis ∷ []) self.now }
    {
        let held = match self.held {
            Held::One(_) => Held::One(basis),
            Held::Two(a, b) => if component == 1 {
                Held::Two(basis, b)
            } else {
                Held::Two(a, basis)
            },
            Held::Three(a, b, c) => {
                if component == 1 {
                    Held::Three(basis, b, c)
                } else if component == 2 {
                    Held::Three(a, basis, c)
                } else {
                    Held::Three(a, b, basis)
                }
            }
            Held::None => unreachable!(),
        };
        Bases { held }
    }

    /// The list with the basis of a component, counted from 1, twice.
    pub fn doubled(&self, component: u32) -> Bases
        requires first { 1 ≤ component }
        requires last { component ≤ length self.now }
        requires most { length self.now ≤ 2 }
        ensures { result ≡ with_double (component - 1) self.now }
    {
        let held = match self.held {
            Held::One(a) => Held::Two(a, a),
            Held::Two(a, b) => if component == 1 {
                Held::Three(a, a, b)
            } else {
                Held::Three(a, b, b)
            },
            Held::None | Held::Three(_, _, _) => unreachable!(),
        };
        Bases { held }
    }

    /// The list without the basis of a component, counted from 1.
    pub fn without(&self, component: u32) -> Bases
        requires first { 1 ≤ component }
        requires last { component ≤ length self.now }
        ensures { result ≡ left_without (component - 1) self.now }
    {
        let held = match self.held {
            Held::One(_) => Held::None,
            Held::Two(a, b) => Held::One(if component == 1 { b } else { a }),
            Held::Three(a, b, c) => {
                if component == 1 {
                    Held::Two(b, c)
                } else if component == 2 {
                    Held::Two(a, c)
                } else {
                    Held::Two(a, b)
                }
            }
            Held::None => unreachable!(),
        };
        Bases { held }
    }

    /// The least of the degree limits; 0 where there is no basis, as for a scalar.
    pub fn least_limit(&self) -> u32
        ensures { result ≡ least_limit self.now }
    {
        match self.held {
            Held::None => 0,
            Held::One(a) => limit(algebra(a)),
            Held::Two(a, b) => limit(algebra(a)).min(limit(algebra(b))),
            Held::Three(a, b, c) => {
                limit(algebra(a)).min(limit(algebra(b)).min(limit(algebra(c))))
            }
        }
    }

    // The sum of the degrees of the codes of a key.
    pub(crate) fn degree_of_key(&self, key: &Key) -> u32
        requires rank { length key.now ≡ length self.now }
        requires small { total_degree self.now key.now ≤ 255 }
        ensures { result ≡ total_degree self.now key.now }
    {
        match self.held {
            Held::None => 0,
            Held::One(a) => degree_of_code(a, key.code(1)),
            Held::Two(a, b) => degree_of_code(a, key.code(1)) + degree_of_code(b, key.code(2)),
            Held::Three(a, b, c) => {
                degree_of_code(a, key.code(1))
                    + degree_of_code(b, key.code(2))
                    + degree_of_code(c, key.code(3))
            }
        }
    }

    /// The joins of two lists of one length, component by component. `Mixed` comes exactly where two
    /// components have none, and tells the algebras of the first such two. It takes no memory.
    pub fn joined(&self, other: &Bases) -> Result<Bases, Refusal>
        requires { length self.now ≡ length other.now }
        ensures checks { Tests (join_checks self.now other.now) result }
        ensures outright { IfErr result (λ refusal. refusal ≢ Memory) }
        ensures value { IfOk result (λ bases. bases ≡ joined self.now other.now) }
    {
        let held = match (self.held, other.held) {
            (Held::None, Held::None) => Held::None,
            (Held::One(a), Held::One(x)) => Held::One(join_or_refuse(a, x)?),
            (Held::Two(a, b), Held::Two(x, y)) => {
                Held::Two(join_or_refuse(a, x)?, join_or_refuse(b, y)?)
            }
            (Held::Three(a, b, c), Held::Three(x, y, z)) => Held::Three(
                join_or_refuse(a, x)?,
                join_or_refuse(b, y)?,
                join_or_refuse(c, z)?,
            ),
            _ => unreachable!(),
        };
        Ok(Bases { held })
    }
}
