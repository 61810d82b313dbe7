//! The cuts of a composition: the coproduct of a monomial quasi-symmetric function.
ghost use Rattle.std.specs.Prelude.{◌≡◌, ◌+◌, ◌^◌, ◌<◌, ◌≤◌, [], ◌∷◌, length, sum, OnOk, IfOk};
ghost use Rattle.realisations.specs.Answers.{IsAnswer};
ghost use Rattle.realisations.specs.Combinations.{norm_of};
ghost use Rattle.realisations.specs.Readings.{element, applied, coproduct};
ghost use Rattle.realisations.specs.Words.{word_cuts};
ghost use Rattle.basis_names.specs.declared.bases.BasisId.TheVariants.{QsymM};
ghost use Rattle.coproduct_laws.specs.AddedPairs.{AddsPairs};

use crate::Composition;
use hopf_num::OutOfMemory;
use linear_combos::{Code, Combo, Key};
use std::alloc::Global;

// Adds the cuts of a code, each once.
fn add_cuts(out: &mut Combo, code: &Code) -> Result<(), OutOfMemory>
    requires rank { out.old.rank ≡ 2 }
    requires whole { out.old.den ≡ 1 }
    requires room { norm_of out.old.terms + length (word_cuts code.now) < 2 ^ 127 }
    ensures adds { OnOk result (AddsPairs out.old.terms out.new.terms (word_cuts code.now)) }
    ensures norm { OnOk result (norm_of out.new.terms ≤ norm_of out.old.terms + length (word_cuts code.now)) }
    ensures same_rank { out.new.rank ≡ 2 }
    ensures same_den { out.new.den ≡ 1 }
{
    for at in 0..code.len() + 1 {
        let cut = Key::two(code.prefix(at), code.suffix(at));
        out.add_with_room(1, cut)?;
    }
    Ok(())
}

impl Composition {
    /// The coproduct of the monomial quasi-symmetric function of this composition, as a combination of
    /// tensors of these, of rank 2.
    ///
    /// It is the sum over the cuts of the parts in two, of the first parts tensor the others (Gessel
    /// 1984): as many terms as there are parts, and one.
    pub fn cuts(&self, alloc: Global) -> Result<Combo, OutOfMemory>
        ensures { IfOk result (IsAnswer (QsymM ∷ QsymM ∷ []) (sum self.now) (applied coproduct 0 (element QsymM self.now))) }
    {
        let mut out = Combo::zero(alloc, 2);
        add_cuts(&mut out, self.code())?;
        Ok(out)
    }
}
