//! Commuting images of QSym: its letters commute, so an element is its own image, over the monomial basis.
ghost use Rattle.std.proofs.Common.{arith};
ghost use Rattle.std.specs.Prelude.{ℕ, [], ◌∷◌, IfOk};
ghost use Rattle.linear_combos.specs.Combos.{IsSumOfTerms};
ghost use Rattle.product_laws.specs.Products.{terms_of_codes};

use crate::images::CommutingImage;
use hopf_num::OutOfMemory;
use index_rules::Change;
use linear_combos::{Code, Combo, Key};
use qsym::{QsymF, QsymM};
use std::alloc::Global;

// The combination that is one basis element.
pub(crate) fn one_element(alloc: Global, code: &Code) -> Result<Combo, OutOfMemory>
    ensures { IfOk result (IsSumOfTerms 1 (terms_of_codes (code.now ∷ []))) }
{
    let element = Combo::term(alloc, 1, Key::one(*code))?;
    let _rank = element.rank();
    Ok(element)
}

/// A monomial quasi-symmetric function is its own image: one term.
impl CommutingImage for QsymM {
    ghost image_growth = { 0 };

    fn image(alloc: Global, code: &Code) -> Result<Combo, OutOfMemory> {
        one_element(alloc, code)
    }

    ghost growth = { omega arith };
}

/// A fundamental quasi-symmetric function is the sum of the monomial ones of the finer compositions (Gessel
/// 1984): 2 to the power of the degree less the number of parts.
impl CommutingImage for QsymF {
    ghost image_growth = { 1 };

    fn image(alloc: Global, code: &Code) -> Result<Combo, OutOfMemory> {
        QsymF::change(alloc, code)
    }

    ghost growth = { omega arith };
}
