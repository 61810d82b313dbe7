//! Commuting images of the elements of a basis, as rules.
ghost use Rattle.std.specs.Prelude.{◌≡◌, ℕ, ◌-◌, ◌≤◌, [], ◌∷◌, IfOk};
ghost use Rattle.basis_names.specs.declared.bases.BasisId.TheVariants.{QsymM};
ghost use Rattle.commuting_images.specs.Images.{image_facts};
ghost use Rattle.index_rules.specs.Lifts.{CanLift, IsLift};
ghost use Rattle.index_rules.specs.Rules.{IsAnswerWithin};
ghost use Rattle.index_rules.specs.Spaces.{IsIndexWithin};
ghost use Rattle.realisations.specs.Indices.{degree_of};
ghost use Rattle.realisations.specs.Readings.{applied, commute, element};

use hopf_num::OutOfMemory;
use index_rules::{Rule, Space, lift};
use linear_combos::{Code, Combo};
use std::alloc::Global;
use std::marker::PhantomData;

/// A basis whose elements have commuting images over the monomial basis of QSym.
pub trait CommutingImage: Space {
    // the norm of an image of degree n is at most 2 to the power of so many times n
    ghost image_growth: { ℕ };

    /// The commuting image of a basis element: its coefficient at a monomial is how often the element
    /// occurs at the words with these letters. Want of memory is the only error.
    fn image(alloc: Global, code: &Code) -> Result<Combo, OutOfMemory>
        requires { IsIndexWithin Self.basis code.now }
        ensures { IfOk result (IsAnswerWithin image_growth (QsymM ∷ []) (degree_of Self.basis code.now) (applied commute 0 (element Self.basis code.now))) };

    // five bits for each degree have room
    ghost growth: { image_growth ≤ 5 };
}

/// The commuting image of a basis, as a rule.
#[derive(Drop)]
pub struct ByImage<A: Space> {
    of: PhantomData<A>,
}

impl<A: CommutingImage> ByImage<A> {
    /// The rule. It holds nothing.
    pub fn new() -> ByImage<A> {
        ByImage { of: PhantomData }
    }
}

impl<A: CommutingImage> Rule for ByImage<A> {
    ghost facts = { λ s. image_facts A.basis A.image_growth };

    fn rank(&self) -> u32 {
        1
    }

    fn apply(&mut self, alloc: Global, code: &Code) -> Result<Combo, OutOfMemory> {
        A::image(alloc, code)
    }
}

/// The combination with the commuting image of one component, counted from 1, in its place. Want of memory
/// is the only error. The cost is that of the images of its codes, and a sort of their terms.
pub fn image_component<A: CommutingImage>(
    alloc: Global,
    combo: &Combo,
    component: u32,
) -> Result<Combo, OutOfMemory>
    requires first { 1 ≤ component }
    requires can { CanLift (image_facts A.basis A.image_growth) (component - 1) combo.now }
    ensures { IfOk result (IsLift (image_facts A.basis A.image_growth) (component - 1) combo.now) }
{
    let mut rule: ByImage<A> = ByImage::new();
    lift(alloc, combo, component, &mut rule)
}
