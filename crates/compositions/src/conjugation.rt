//! The reverse and the conjugate of a composition.
ghost use Rattle.std.specs.Prelude.{◌≡◌, ◌≤◌, reverse, replicate};
ghost use Rattle.realisations.specs.Descents.{complement as complement_of};
ghost use Rattle.compositions.specs.Conjugates.{conjugate};
ghost use Rattle.compositions.specs.Sizes.{IsSmallComposition};

use crate::Composition;
use crate::fronts::{first_longer, part_before};
use linear_combos::Code;

// Parts 1, as many as are asked for.
fn ones(count: usize) -> Code
    requires { count ≤ 12 }
    ensures { result ≡ replicate count 1 }
{
    let mut code = Code::empty();
    for _ in 0..count {
        code = part_before(1, &code);
    }
    code
}

// The composition whose descents are the places outside those of a composition.
fn complement(parts: &Code) -> Code
    requires { IsSmallComposition parts.now }
    ensures value { result ≡ complement_of parts.now }
    ensures small { IsSmallComposition result }
{
    if parts.len() == 0 {
        return Code::empty();
    }
    let first = usize::from(parts.letter(0));
    let behind = parts.suffix(1);
    if behind.len() == 0 {
        return ones(first);
    }
    let rest = first_longer(&complement(&behind));
    let front = ones(first - 1);
    front.followed_by(&rest)
}

// The parts from the last to the first.
fn reversed(parts: &Code) -> Code
    requires { IsSmallComposition parts.now }
    ensures value { result ≡ reverse parts.now }
    ensures small { IsSmallComposition result }
{
    let mut back = Code::empty();
    for at in 0..parts.len() {
        back = part_before(parts.letter(at), &back);
    }
    back
}

impl Composition {
    /// The parts from the last to the first. It takes no memory.
    pub fn reverse(&self) -> Composition
        ensures { result ≡ reverse self.now }
    {
        Composition::holding(reversed(self.code()))
    }

    /// The conjugate: the composition of the same size whose descents are the places outside those of
    /// this one, reversed; so the ribbon diagram is transposed (Gelfand, Krob, Lascoux, Leclerc,
    /// Retakh, Thibon 1995). It takes no memory.
    pub fn conjugate(&self) -> Composition
        ensures { result ≡ conjugate self.now }
    {
        let complement = complement(self.code());
        Composition::holding(reversed(&complement))
    }
}
