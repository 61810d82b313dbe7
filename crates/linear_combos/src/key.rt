//! Keys: the lists of codes that stand for tensors of basis elements.
ghost use Rattle.std.specs.Prelude.{◌≡◌, ◌≤◌, ◌+◌, ◌-◌, List, ℕ, [], ◌∷◌, ◌++◌, length, refl, slice_index_or, nat_eq, Some};
ghost use Rattle.std.specs.Cmp.{partial_equiv_from_equiv};
ghost use Rattle.std.specs.Ordering.{nat_cmp};
ghost use Rattle.std.specs.Cmp.Lexicographic.{pointwise, slice_cmp, lists_equiv, lists_total, lists_ties, nat_list_eq_equiv, nat_list_cmp_total, texts_ties};
ghost use Rattle.linear_combos.specs.KeyOrder.{keys_po};

use crate::Code;
use std::cmp::Ordering;
use std::marker::Model;

/// A list of 0 to 3 codes, one for each component of a tensor, in four machine words.
///
/// Keys are ordered component by component, each in the canonical order of codes. No call of a key
/// takes memory.
#[derive(Clone, Copy)]
pub struct Key {
    rank: u32,
    first: Code,
    second: Code,
    third: Code,
}

impl Model for Key {
    ghost use Rattle.std.specs.Prelude.{List, ℕ, length};

    ghost Value = { List (List ℕ) };

    ghost use Rattle.linear_combos.specs.Keys.{codes_of, code_at, IsKey};

    ghost view = { λ k. codes_of k.rank k.first k.second k.third };

    ghost invariant = { λ k. IsKey k.rank k.first k.second k.third };

    ghost inverse = { λ xs. record { rank = length xs; first = code_at xs 0; second = code_at xs 1; third = code_at xs 2 } };

    ghost inverse_ok = { λ a h. λ i. record { rank = h.rank_is i; first = h.first_is i; second = h.second_is i; third = h.third_is i } };
}

impl Key {
    /// The key of a scalar, with no code.
    pub fn none() -> Key
        ensures { result ≡ [] }
    {
        Key {
            rank: 0,
            first: Code::empty(),
            second: Code::empty(),
            third: Code::empty(),
        }
    }

    /// The key of one code.
    pub fn one(a: Code) -> Key
        ensures { result ≡ a ∷ [] }
    {
        Key {
            rank: 1,
            first: a,
            second: Code::empty(),
            third: Code::empty(),
        }
    }

    /// The key of two codes.
    pub fn two(a: Code, b: Code) -> Key
        ensures { result ≡ a ∷ b ∷ [] }
    {
        Key {
            rank: 2,
            first: a,
            second: b,
            third: Code::empty(),
        }
    }

    /// The key of three codes.
    pub fn three(a: Code, b: Code, c: Code) -> Key
        ensures { result ≡ a ∷ b ∷ c ∷ [] }
    {
        Key {
            rank: 3,
            first: a,
            second: b,
            third: c,
        }
    }

    /// How many codes there are, from 0 to 3.
    pub fn rank(&self) -> u32
        ensures value { result ≡ length self.now }
        ensures at_most { result ≤ 3 }
    {
        self.rank
    }

    /// The code of a component, counted from 1.
    pub fn code(&self, component: u32) -> &Code
        requires first { 1 ≤ component }
        requires last { component ≤ length self.now }
        ensures { result.now ≡ slice_index_or self.now (component - 1) result.now }
    {
        match component {
            1 => &self.first,
            2 => &self.second,
            _ => &self.third,
        }
    }

    /// The codes of this key, and then those of the other one.
    pub fn followed_by(&self, other: &Key) -> Key
        requires { length self.now + length other.now ≤ 3 }
        ensures { result ≡ self.now ++ other.now }
    {
        match (self.rank, other.rank) {
            (0, _) => *other,
            (_, 0) => *self,
            (1, 1) => Key::two(self.first, other.first),
            (1, _) => Key::three(self.first, other.first, other.second),
            _ => Key::three(self.first, self.second, other.first),
        }
    }
}

impl PartialEq for Key {
    ghost eq = { λ a b. pointwise (pointwise nat_eq) a b };

    ghost laws = { partial_equiv_from_equiv (lists_equiv nat_list_eq_equiv) };

    fn eq(&self, other: &Key) -> bool {
        self.cmp(other).is_eq()
    }
}

impl Eq for Key {
    ghost laws = { lists_equiv nat_list_eq_equiv };
}

impl PartialOrd for Key {
    ghost partial_cmp = { λ a b. Some (slice_cmp (slice_cmp nat_cmp) a b) };

    ghost laws = { keys_po };

    fn partial_cmp(&self, other: &Key) -> Option<Ordering> {
        Some(self.cmp(other))
    }
}

impl Ord for Key {
    ghost cmp = { λ a b. slice_cmp (slice_cmp nat_cmp) a b };

    ghost total = { lists_total nat_list_cmp_total };

    ghost matches_partial_cmp = { λ a b. refl };

    ghost matches_eq = { lists_ties (slice_cmp nat_cmp) texts_ties };

    fn cmp(&self, other: &Key) -> Ordering {
        let ranks = self.rank.cmp(&other.rank);
        let thirds = self.third.cmp(&other.third);
        let seconds = self.second.cmp(&other.second);
        self.first
            .cmp(&other.first)
            .then(seconds.then(thirds.then(ranks)))
    }
}
