//! Multiples of antipodes, each followed by a second code.
ghost use Rattle.std.specs.Prelude.{◌≡◌, ◌+◌, ◌*◌, ◌*ℤ◌, ◌^◌, ◌<◌, length, neg_ℤ, unsigned_abs, OnOk};
ghost use Rattle.realisations.specs.Combinations.{norm_of};
ghost use Rattle.antipodes.specs.Subtracting.{SubtractsFollowed};

use hopf_num::{OutOfMemory, product};
use linear_combos::{Code, Combo, ComboBuilder, Key};

// Minus the product of two numerators that has room.
fn minus_times(left: i128, right: i128) -> i128
    requires { unsigned_abs (left *ℤ right) < 2 ^ 127 }
    ensures { result ≡ neg_ℤ (left *ℤ right) }
{
    -product(left, right)
}

// Takes a multiple of a combination of codes away, each of them followed by a second code.
pub(crate) fn subtract_followed(
    out: &mut ComboBuilder,
    num: i128,
    first: &Combo,
    second: &Code,
) -> Result<(), OutOfMemory>
    requires pairs { out.old.rank ≡ 2 }
    requires codes { first.now.rank ≡ 1 }
    requires room { norm_of out.old.terms + unsigned_abs num * norm_of first.now.terms < 2 ^ 127 }
    ensures { OnOk result (SubtractsFollowed out.old num second.now first.now.terms (length first.now.terms) out.new) }
{
    for at in 0..first.len() {
        let multiple = minus_times(num, first.num_at(at));
        let key = Key::two(*first.key_at(at).code(1), *second);
        out.push(multiple, key)?;
    }
    Ok(())
}
