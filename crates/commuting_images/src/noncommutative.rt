//! Commuting images of the elements of the three bases of NCSF.
//!
//! A complete or an elementary function is the product of its parts, and its image the product of theirs. A
//! ribbon goes by whichever of both bases it has fewer terms over.
ghost use Rattle.std.proofs.Common.{arith};
ghost use Rattle.std.specs.Prelude.{◌≡◌, ◌+◌, ◌*◌, ◌^◌, ◌<◌, ◌≤◌, [], ◌∷◌, replicate, IfOk};
ghost use Rattle.basis_names.specs.declared.bases.BasisId.TheVariants.{QsymM as id_m};
ghost use Rattle.commuting_images.specs.ImagesOfParts.{IsMultiplicative, IsOfAnyNorm, image_of};
ghost use Rattle.index_rules.specs.Rules.{IsAnswerWithin};
ghost use Rattle.index_rules.specs.Spaces.{IsIndexWithin, limit_for};
ghost use Rattle.linear_combos.specs.Combos.{IsSumOfTerms, IsTensor};
ghost use Rattle.product_laws.specs.Products.{terms_of_codes};
ghost use Rattle.realisations.specs.Bases.{kind_of};
ghost use Rattle.realisations.specs.Combinations.{norm_of};
ghost use Rattle.realisations.specs.Indices.{degree_of};
ghost use Rattle.realisations.specs.Points.{word};

use crate::images::{CommutingImage, image_component};
use crate::quasisymmetric::one_element;
use hopf_num::OutOfMemory;
use index_rules::{Change, Space, multiply_components};
use linear_combos::{Code, Combo, ComboFault};
use ncsf::{NcsfL, NcsfR, NcsfS};
use qsym::{QsymF, QsymM};
use std::alloc::Global;

// As many ones.
fn ones(count: u8) -> Code
    requires { count ≤ 12 }
    ensures { result ≡ replicate count 1 }
{
    let mut ones = Code::empty();
    for _ in 0..count {
        ones = ones.with(1);
    }
    ones
}

// The tensor product of two combinations, where it has room.
fn tensor(alloc: Global, a: &Combo, b: &Combo) -> Result<Combo, OutOfMemory>
    requires rank { a.now.rank + b.now.rank ≤ 3 }
    requires den { a.now.den * b.now.den < 2 ^ 127 }
    requires norm { norm_of a.now.terms * norm_of b.now.terms < 2 ^ 127 }
    ensures { IfOk result (IsTensor a.now b.now) }
{
    match Combo::tensor(alloc, a, b) {
        Ok(tensor) => Ok(tensor),
        Err(ComboFault::TooLarge(_)) => unreachable!(),
        Err(ComboFault::Memory) => Err(OutOfMemory),
    }
}

// A basis of NCSF whose elements are the products of those of one part.
trait Multiplicative: Space {
    // The image of the element of one part.
    fn part_image(alloc: Global, part: u8) -> Result<Combo, OutOfMemory>
        requires positive { 1 ≤ part }
        requires small { part ≤ 10 }
        ensures { IfOk result (IsAnswerWithin 5 (id_m ∷ []) (degree_of Self.basis (part ∷ [])) (image_of Self.basis (part ∷ []))) };
}

// That of S is the fundamental function of the part.
impl Multiplicative for NcsfS {
    fn part_image(alloc: Global, part: u8) -> Result<Combo, OutOfMemory> {
        let none = Code::empty();
        let code = none.with(part);
        <QsymF as Change<QsymM>>::change(alloc, &code)
    }
}

// That of L is the monomial function of as many ones.
impl Multiplicative for NcsfL {
    fn part_image(alloc: Global, part: u8) -> Result<Combo, OutOfMemory> {
        one_element(alloc, &ones(part))
    }
}

// The product of the images of the parts.
fn image_of_parts<A: Multiplicative>(alloc: Global, code: &Code) -> Result<Combo, OutOfMemory>
    requires index { IsIndexWithin A.basis code.now }
    requires multiplies { IsMultiplicative A.basis }
    ensures { IfOk result (IsAnswerWithin 5 (id_m ∷ []) (degree_of A.basis code.now) (image_of A.basis code.now)) }
{
    if code.len() == 0 {
        return one_element(alloc, &Code::empty());
    }
    let later = code.suffix(1);
    let rest = image_of_parts::<A>(alloc, &later)?;
    let first = A::part_image(alloc, code.letter(0))?;
    let pairs = tensor(alloc, &first, &rest)?;
    multiply_components::<QsymM>(alloc, &pairs, 1)
}

// The image of an element by those of its terms over another basis.
fn image_over<A: Change<B>, B: CommutingImage>(
    alloc: Global,
    code: &Code,
) -> Result<Combo, OutOfMemory>
    requires index { IsIndexWithin A.basis code.now }
    requires within { degree_of A.basis code.now ≤ limit_for B.basis }
    requires words { kind_of A.basis ≡ word }
    ensures { IfOk result (IsOfAnyNorm (degree_of A.basis code.now) (image_of A.basis code.now)) }
{
    let terms = A::change(alloc, code)?;
    image_component::<B>(alloc, &terms, 1)
}

/// The image of S of a composition is the product of the fundamental functions of its parts (Gelfand, Krob,
/// Lascoux, Leclerc, Retakh, Thibon 1995). Its cost is that of as many products over M as there are parts.
impl CommutingImage for NcsfS {
    ghost image_growth = { 5 };

    fn image(alloc: Global, code: &Code) -> Result<Combo, OutOfMemory> {
        image_of_parts::<NcsfS>(alloc, code)
    }

    ghost growth = { omega arith };
}

/// The image of L of a composition is the product of M of as many ones as each part is (Gelfand, Krob,
/// Lascoux, Leclerc, Retakh, Thibon 1995). Its cost is that of as many products over M as there are parts.
impl CommutingImage for NcsfL {
    ghost image_growth = { 5 };

    fn image(alloc: Global, code: &Code) -> Result<Combo, OutOfMemory> {
        image_of_parts::<NcsfL>(alloc, code)
    }

    ghost growth = { omega arith };
}

/// The image of a ribbon of n with r parts goes by its 2^(r - 1) terms over S, or by its 2^(n - r) terms over
/// L where these are fewer.
impl CommutingImage for NcsfR {
    ghost image_growth = { 4 };

    fn image(alloc: Global, code: &Code) -> Result<Combo, OutOfMemory> {
        if 2 * code.len() as u32 <= code.sum() + 1 {
            return image_over::<NcsfR, NcsfS>(alloc, code);
        }
        image_over::<NcsfR, NcsfL>(alloc, code)
    }

    ghost growth = { omega arith };
}
