//! The permutations of a class, cut into two reading words.
ghost use Rattle.std.specs.Prelude.{◌≡◌, ◌++◌, true, false, length, MatchOption, OnOk, IfOk};
ghost use Rattle.std.specs.List.{All, flat_map};
ghost use Rattle.coproduct_laws.specs.Coproducts.{terms_of_pairs};
ghost use Rattle.coproduct_rules.specs.PlaceCuts.{place_cuts};
ghost use Rattle.linear_combos.specs.Combos.{IsSumOfTerms};
ghost use Rattle.permutation_words.specs.Sizes.{IsSmallPermutation};
ghost use Rattle.realisations.specs.Tableaux.{insertion_tableau, tableau_code};
ghost use Rattle.tableau_coproducts.specs.ClassCuts.{class_cuts, is_reading_word, reading_pair};

use crate::codes::inserted;
use hopf_num::OutOfMemory;
use linear_combos::{Code, Codes, Combo, ComboBuilder, Key};
use permutation_words::standardise;
use std::alloc::Global;

// The code of the insertion tableau of a permutation, where the permutation is its reading word.
fn read_tableau(word: &Code) -> Option<Code>
    requires { IsSmallPermutation word.now }
    ensures { MatchOption result (is_reading_word word.now ≡ false) (λ code. (is_reading_word word.now ≡ true) × (code ≡ tableau_code (insertion_tableau word.now))) }
{
    let tableau = inserted(word);
    if tableau.reading_word() != *word {
        return None;
    }
    Some(tableau.code())
}

// Adds the pair of the tableaux of two permutations, where both are reading words.
fn push_pair(out: &mut Vec<(Code, Code)>, front: &Code, back: &Code) -> Result<(), OutOfMemory>
    requires front { IsSmallPermutation front.now }
    requires back { IsSmallPermutation back.now }
    ensures { OnOk result (out.new.items ≡ out.old.items ++ reading_pair (front.now, back.now)) }
{
    let Some(first) = read_tableau(front) else {
        return Ok(());
    };
    let Some(second) = read_tableau(back) else {
        return Ok(());
    };
    out.push((first, second))?;
    Ok(())
}

// Adds the pairs of the cuts of a permutation.
fn push_cuts(out: &mut Vec<(Code, Code)>, word: &Code) -> Result<(), OutOfMemory>
    requires { IsSmallPermutation word.now }
    ensures { OnOk result (out.new.items ≡ out.old.items ++ flat_map reading_pair (place_cuts word.now)) }
{
    for count in 0..word.len() + 1 {
        let front = standardise(&word.prefix(count));
        let back = standardise(&word.suffix(count));
        push_pair(out, &front, &back)?;
    }
    Ok(())
}

// Adds those of some permutations.
fn push_class_cuts(out: &mut Vec<(Code, Code)>, words: &Codes) -> Result<(), OutOfMemory>
    requires { All IsSmallPermutation words.now }
    ensures { OnOk result (out.new.items ≡ out.old.items ++ class_cuts words.now) }
{
    for at in 0..words.len() {
        push_cuts(out, words.at(at))?;
    }
    Ok(())
}

// The sum of the tensors of some pairs.
fn gathered(alloc: Global, pairs: &[(Code, Code)]) -> Result<Combo, OutOfMemory>
    ensures { IfOk result (IsSumOfTerms 2 (terms_of_pairs pairs.now)) }
{
    let mut out = ComboBuilder::new(alloc, 2);
    for pair in pairs {
        out.push(1, Key::two(pair.0, pair.1))?;
    }
    Ok(out.finish())
}

// The sum of the tensors of the pairs of tableaux whose reading words, one after the other, some
// permutations are, once each word is standardised.
pub(crate) fn cuts_of_class(alloc: Global, words: &Codes) -> Result<Combo, OutOfMemory>
    requires { All IsSmallPermutation words.now }
    ensures { IfOk result (IsSumOfTerms 2 (terms_of_pairs (class_cuts words.now))) }
{
    let mut pairs = Vec::new(alloc);
    push_class_cuts(&mut pairs, words)?;
    gathered(alloc, pairs.as_slice())
}
