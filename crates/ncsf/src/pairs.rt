//! Lists of pairs of compositions, and the sums of their tensors.
ghost use Rattle.std.specs.Prelude.{◌≡◌, ◌+◌, ◌<◌, ◌≤◌, [], ◌∷◌, ◌++◌, length, sum, OnOk, IfOk};
ghost use Rattle.coproduct_laws.specs.Coproducts.{terms_of_pairs};
ghost use Rattle.index_rules.specs.PushedTerms.{HoldsFirst};
ghost use Rattle.linear_combos.specs.Combos.{IsSumOfTerms};
ghost use Rattle.realisations.specs.Exponents.{without_zeros};
ghost use Rattle.realisations.specs.IndexKinds.{IsComposition};

use hopf_num::OutOfMemory;
use linear_combos::{Code, Combo, ComboBuilder, Key};
use std::alloc::Global;

// A composition with a part in front, where that is not 0.
pub(crate) fn part_before(part: u8, parts: &Code) -> Code
    requires composition { IsComposition parts.now }
    requires small { part + sum parts.now ≤ 12 }
    ensures { result ≡ without_zeros (part ∷ []) ++ parts.now }
{
    if part == 0 {
        return *parts;
    }
    let none = Code::empty();
    let front = none.with(part);
    front.followed_by(parts)
}

// Pushes the tensors of the pairs.
fn push_tensors(out: &mut ComboBuilder, pairs: &Vec<(Code, Code)>) -> Result<(), OutOfMemory>
    requires rank { out.old.rank ≡ 2 }
    requires none { HoldsFirst (terms_of_pairs pairs.now.items) 0 out.old }
    ensures pushes { OnOk result (HoldsFirst (terms_of_pairs pairs.now.items) (length pairs.now.items) out.new) }
    ensures same_rank { out.new.rank ≡ 2 }
{
    for at in 0..pairs.len() {
        let pair = pairs[at];
        out.push(1, Key::two(pair.0, pair.1))?;
    }
    Ok(())
}

// The sum of the tensors of the pairs.
pub(crate) fn sum_of_tensors(alloc: Global, pairs: &Vec<(Code, Code)>) -> Result<Combo, OutOfMemory>
    ensures { IfOk result (IsSumOfTerms 2 (terms_of_pairs pairs.now.items)) }
{
    let mut out = ComboBuilder::new(alloc, 2);
    push_tensors(&mut out, pairs)?;
    Ok(out.finish())
}
