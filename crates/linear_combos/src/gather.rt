//! Terms in any order, sorted by their keys, and like terms added, in place.
ghost use Rattle.std.specs.Prelude.{◌≡◌, ◌+◌, ◌^◌, ◌<◌, ◌≤◌, ℕ, length, unsigned_abs};
ghost use Rattle.std.specs.List.Sorted.{IsPermutation};
ghost use Rattle.realisations.specs.Combinations.{norm_of, term_at};
ghost use Rattle.linear_combos.specs.Combos.{HasRank, Gathers};
ghost use Rattle.linear_combos.specs.Gathering.{IsSortedByKeys, IsInFront, IsStep, kept};

use crate::Key;
use crate::merge::total;
use std::alloc::Global;

// Sorts terms by their keys, and adds like terms; those of numerator 0 go. It takes no memory. The
// cost is that of the sort, and one pass; terms in order already are only looked at.
pub(crate) fn gather(terms: &mut Vec<(i128, Key)>)
    requires { norm_of terms.old.items < 2 ^ 127 }
    ensures { (rank : ℕ) → HasRank rank terms.old.items → Gathers rank terms.old.items terms.new.items }
{
    sort_by_keys(terms);
    gather_sorted(terms);
}

// Sorts terms by their keys.
fn sort_by_keys(terms: &mut Vec<(i128, Key)>)
    ensures permutation { IsPermutation terms.old.items terms.new.items }
    ensures sorted { IsSortedByKeys terms.new.items }
{
    terms.sort_unstable_by_key(|term| term.1);
}

// Adds like terms of sorted ones.
fn gather_sorted(terms: &mut Vec<(i128, Key)>)
    requires sorted { IsSortedByKeys terms.old.items }
    requires room { norm_of terms.old.items < 2 ^ 127 }
    ensures { (rank : ℕ) → HasRank rank terms.old.items → Gathers rank terms.old.items terms.new.items }
{
    if terms.is_empty() {
        return;
    }
    let last = gather_in_front(terms);
    keep(terms, last);
}

// Puts the sum of sorted terms in front of them, and answers the place of its last term, which may have
// numerator 0.
fn gather_in_front(terms: &mut Vec<(i128, Key)>) -> usize
    requires some { 1 ≤ length terms.old.items }
    requires sorted { IsSortedByKeys terms.old.items }
    requires room { norm_of terms.old.items < 2 ^ 127 }
    ensures { IsInFront terms.old.items (length terms.old.items) result terms.new.items }
{
    let mut last = 0;
    for at in 1..terms.len() {
        last = gather_step(terms, last, at);
    }
    last
}

// Adds the term at a place to the last one of the sum in front, or else puts it behind that one, and
// answers the place of the last one. One of numerator 0 is put over.
fn gather_step(terms: &mut Vec<(i128, Key)>, last: usize, at: usize) -> usize
    requires earlier { last < at }
    requires in_range { at < length terms.old.items }
    requires room { unsigned_abs (term_at terms.old.items last).0 + unsigned_abs (term_at terms.old.items at).0 < 2 ^ 127 }
    ensures { IsStep terms.old.items last at terms.new.items result }
{
    let (num, key) = terms[at];
    let (pending, same) = terms[last];
    if same == key {
        terms[last] = (total(pending, num), key);
        return last;
    }
    if pending == 0 {
        terms[last] = (num, key);
        return last;
    }
    terms[last + 1] = (num, key);
    last + 1
}

// Keeps the terms up to a place, and that one where its numerator is not 0.
fn keep(terms: &mut Vec<(i128, Key)>, last: usize)
    requires { last < length terms.old.items }
    ensures { terms.new.items ≡ kept terms.old.items last }
{
    if terms[last].0 == 0 {
        terms.truncate(last);
    } else {
        terms.truncate(last + 1);
    }
}

// The norm of terms.
pub(crate) fn norm(terms: &[(i128, Key)]) -> u128
    requires { norm_of terms.now < 2 ^ 127 }
    ensures { result ≡ norm_of terms.now }
{
    let mut norm = 0;
    for term in terms {
        norm += term.0.unsigned_abs();
    }
    norm
}
