//! Compositions.
ghost use Rattle.std.specs.Prelude.{◌≡◌, ◌≤◌, List, ℕ, sum, MatchOption};
ghost use Rattle.compositions.specs.Sizes.{IsSmallComposition};

use linear_combos::Code;
use std::marker::Model;

// The greatest size.
const MOST: u32 = 12;

/// A list of positive parts whose sum, the size, is at most 12. No call of a composition takes
/// memory.
#[derive(Drop)]
pub struct Composition {
    code: Code,
}

impl Model for Composition {
    ghost use Rattle.std.specs.Prelude.{List, ℕ};
    ghost use Rattle.compositions.specs.Sizes.{IsSmallComposition};

    ghost Value = { List ℕ };

    ghost view = { λ c. c.code };

    ghost invariant = { λ c. IsSmallComposition c.code };
}

impl Composition {
    /// The composition of these parts, or `None` exactly where one of them is 0 or their sum is more
    /// than 12.
    pub fn new(parts: &[u8]) -> Option<Composition>
        ensures { MatchOption result (IsSmallComposition parts.now → ⊥) (λ c. (c ≡ parts.now) × IsSmallComposition parts.now) }
    {
        let code = Code::new(parts)?;
        Composition::of_code(code)
    }

    /// The composition whose parts are the letters of a code, or `None` exactly where their sum is more
    /// than 12.
    pub fn of_code(code: Code) -> Option<Composition>
        ensures { MatchOption result (IsSmallComposition code → ⊥) (λ c. (c ≡ code) × IsSmallComposition code) }
    {
        if code.sum() > MOST {
            return None;
        }
        Some(Composition { code })
    }

    // The composition whose parts are the letters of a code, of a sum of at most 12.
    pub(crate) fn holding(code: Code) -> Composition
        requires { IsSmallComposition code }
        ensures { result ≡ code }
    {
        Composition { code }
    }

    /// The parts as a code.
    pub fn code(&self) -> &Code
        ensures value { result.now ≡ self.now }
        ensures small { IsSmallComposition self.now }
    {
        &self.code
    }

    /// The sum of the parts, at most 12.
    pub fn size(&self) -> u32
        ensures value { result ≡ sum self.now }
        ensures small { IsSmallComposition self.now }
    {
        self.code.sum()
    }
}
