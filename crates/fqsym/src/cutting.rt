//! Permutations cut by places (Malvenuto, Reutenauer 1995) and by values (Duchamp, Hivert, Thibon 2002): the
//! coproducts of both bases. Cuts by values are those of packed words.
ghost use Rattle.std.specs.Prelude.{◌≡◌, ◌≤◌, take, drop, length, OnOk, IfOk};
ghost use Rattle.coproduct_laws.specs.Coproducts.{terms_of_pairs};
ghost use Rattle.coproduct_laws.specs.ValueCuts.{letters_up_to, letters_past, lower, value_cuts};
ghost use Rattle.coproduct_rules.specs.PlaceCuts.{place_cuts};
ghost use Rattle.index_rules.specs.PushedTerms.{HoldsFirst};
ghost use Rattle.linear_combos.specs.Combos.{IsSumOfTerms};
ghost use Rattle.packed_words.specs.Sizes.{IsSmallPackedWord};
ghost use Rattle.realisations.specs.Standardisation.{standardise as standardised};

use hopf_num::OutOfMemory;
use linear_combos::{Code, Combo, ComboBuilder, Key};
use packed_words::PackedWord;
use permutation_words::{greatest_letter, standardise};
use std::alloc::Global;

// The standardisation of the first letters.
fn front(word: &Code, count: usize) -> Code
    requires { count ≤ length word.now }
    ensures { result ≡ standardised (take count word.now) }
{
    let letters = word.prefix(count);
    standardise(&letters)
}

// The standardisation of the letters behind the first ones.
fn back(word: &Code, count: usize) -> Code
    requires { count ≤ length word.now }
    ensures { result ≡ standardised (drop count word.now) }
{
    let behind = word.suffix(count);
    standardise(&behind)
}

// Pushes the cuts at each place.
fn push_place_cuts(out: &mut ComboBuilder, word: &Code) -> Result<(), OutOfMemory>
    requires rank { out.old.rank ≡ 2 }
    requires none { HoldsFirst (terms_of_pairs (place_cuts word.now)) 0 out.old }
    ensures pushes { OnOk result (HoldsFirst (terms_of_pairs (place_cuts word.now)) (length (terms_of_pairs (place_cuts word.now))) out.new) }
    ensures same_rank { out.new.rank ≡ 2 }
{
    for count in 0..word.len() + 1 {
        out.push(1, Key::two(front(word, count), back(word, count)))?;
    }
    Ok(())
}

// The tensors of the standardised cuts of a permutation at each place.
pub(crate) fn cuts_by_places(alloc: Global, word: &Code) -> Result<Combo, OutOfMemory>
    ensures { IfOk result (IsSumOfTerms 2 (terms_of_pairs (place_cuts word.now))) }
{
    let mut out = ComboBuilder::new(alloc, 2);
    push_place_cuts(&mut out, word)?;
    Ok(out.finish())
}

// The letters up to a number.
fn low(word: &PackedWord, most: u8) -> Code
    ensures { result ≡ letters_up_to most word.now }
{
    let letters = word.restrict_low(most);
    *letters.code()
}

// The letters past a number, lowered by it.
fn high(word: &PackedWord, most: u8) -> Code
    ensures { result ≡ lower most (letters_past most word.now) }
{
    let letters = word.restrict_high(most);
    *letters.code()
}

// Pushes the cuts at each value.
fn push_value_cuts(out: &mut ComboBuilder, word: &PackedWord) -> Result<(), OutOfMemory>
    requires rank { out.old.rank ≡ 2 }
    requires none { HoldsFirst (terms_of_pairs (value_cuts word.now)) 0 out.old }
    ensures pushes { OnOk result (HoldsFirst (terms_of_pairs (value_cuts word.now)) (length (terms_of_pairs (value_cuts word.now))) out.new) }
    ensures same_rank { out.new.rank ≡ 2 }
{
    for most in 0..greatest_letter(word.code()) + 1 {
        out.push(1, Key::two(low(word, most), high(word, most)))?;
    }
    Ok(())
}

// The packed word that a code is.
fn packed_word(code: &Code) -> PackedWord
    requires { IsSmallPackedWord code.now }
    ensures { result ≡ code.now }
{
    PackedWord::of_code(*code).unwrap()
}

/// The tensors of the letters of a packed word of at most 12 letters up to each value, and of those past
/// it, lowered: the cuts of G of a permutation (Duchamp, Hivert, Thibon 2002), and of M of a packed word
/// (Hivert 1999).
///
/// There is one term more than the greatest letter, at the cost of as many passes through the word.
pub fn cuts_by_values(alloc: Global, word: &Code) -> Result<Combo, OutOfMemory>
    requires { IsSmallPackedWord word.now }
    ensures { IfOk result (IsSumOfTerms 2 (terms_of_pairs (value_cuts word.now))) }
{
    let packed = packed_word(word);
    let mut out = ComboBuilder::new(alloc, 2);
    push_value_cuts(&mut out, &packed)?;
    Ok(out.finish())
}
