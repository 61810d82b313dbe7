//! Terms in rising order of keys: where a key is, or where it would go.
ghost use Rattle.std.specs.Prelude.{◌≡◌, ◌^◌, ◌<◌, length, IfOk, IfErr};
ghost use Rattle.std.specs.List.{remove};
ghost use Rattle.realisations.specs.Combinations.{HasRisingKeys, norm_of};
ghost use Rattle.linear_combos.specs.Combos.{IsAt, IsGapFor};

use crate::Key;
use std::alloc::{AllocError, Global};
use std::cmp::Ordering;

// Where the key is, or where it would go, by binary search.
pub(crate) fn place(terms: &[(i128, Key)], key: &Key) -> Result<usize, usize>
    requires { HasRisingKeys terms.now }
    ensures found { IfOk result (IsAt terms.now key.now) }
    ensures absent { IfErr result (IsGapFor terms.now key.now) }
{
    let mut low = 0;
    let mut high = terms.len();
    while low < high {
        let mid = low + (high - low) / 2;
        match terms[mid].1.cmp(key) {
            Ordering::Less => low = mid + 1,
            Ordering::Equal => return Ok(mid),
            Ordering::Greater => high = mid,
        }
    }
    Err(low)
}

// Removes the term at a place.
pub(crate) fn remove_term(terms: &mut Vec<(i128, Key)>, at: usize)
    requires { at < length terms.old.items }
    ensures { terms.new.items ≡ remove terms.old.items at }
{
    terms.remove(at);
}

// The same terms.
pub(crate) fn copy_terms(
    alloc: Global,
    terms: &[(i128, Key)],
) -> Result<Vec<(i128, Key)>, AllocError>
    requires { norm_of terms.now < 2 ^ 127 }
    ensures { IfOk result (λ copy. copy.items ≡ terms.now) }
{
    let mut copy = Vec::with_capacity(alloc, terms.len())?;
    for term in terms {
        copy.push((term.0, term.1))?;
    }
    Ok(copy)
}
