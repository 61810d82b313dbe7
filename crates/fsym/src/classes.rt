//! The permutations with one insertion tableau, which grow by their greatest letters.
ghost use Rattle.std.specs.Prelude.{◌≡◌, ◌≤◌, ◌++◌, length, OnOk, IfOk};
ghost use Rattle.std.specs.List.{All, filter, flat_map};
ghost use Rattle.permutation_words.specs.Sizes.{IsSmallPermutation};
ghost use Rattle.tableau_coproducts.specs.ClassCuts.{ListsClass};
ghost use Rattle.fsym.specs.Classes.{IsShorterPermutation, has_class as is_in_class, longer_words};

use crate::codes::insertion_code;
use hopf_num::OutOfMemory;
use linear_combos::{Code, Codes};
use permutation_words::shuffles;
use std::alloc::Global;

// Whether the insertion tableau of a permutation has this code.
fn has_class(word: &Code, class: &Code) -> bool
    requires { IsSmallPermutation word.now }
    ensures { result ≡ is_in_class class.now word.now }
{
    insertion_code(word) == *class
}

// Adds those of some permutations whose insertion tableau has this code.
fn push_class(out: &mut Codes, words: &Codes, class: &Code) -> Result<(), OutOfMemory>
    requires { All IsSmallPermutation words.now }
    ensures { OnOk result (out.new ≡ out.old ++ filter (λ s. is_in_class class.now s) words.now) }
{
    for at in 0..words.len() {
        let word = words.at(at);
        if has_class(word, class) {
            out.push(*word)?;
        }
    }
    Ok(())
}

// Adds those that a permutation becomes when the next number is put in, at each place.
fn push_longer(alloc: Global, out: &mut Codes, word: &Code, class: &Code) -> Result<(), OutOfMemory>
    requires { IsShorterPermutation word.now }
    ensures { OnOk result (out.new ≡ out.old ++ longer_words class.now word.now) }
{
    let next = Code::empty().with(word.len() as u8 + 1);
    let words = shuffles(alloc, &next, word)?;
    push_class(out, &words, class)
}

// Those that some permutations become.
fn longer(alloc: Global, words: &Codes, class: &Code) -> Result<Codes, OutOfMemory>
    requires { All IsShorterPermutation words.now }
    ensures { IfOk result (λ more. more ≡ flat_map (longer_words class.now) words.now) }
{
    let mut more = Codes::new(alloc);
    for at in 0..words.len() {
        push_longer(alloc, &mut more, words.at(at), class)?;
    }
    Ok(more)
}

// The permutations whose insertion tableau has this code, each once: those of n + 1 numbers are among those
// that the permutations of the first n numbers become, whose insertion tableau has the front of the code.
pub(crate) fn class_words(alloc: Global, class: &Code) -> Result<Codes, OutOfMemory>
    requires { length class.now ≤ 12 }
    ensures { IfOk result (ListsClass class.now) }
{
    let mut words = Codes::new(alloc);
    words.push(Code::empty())?;
    for size in 0..class.len() {
        words = longer(alloc, &words, &class.prefix(size + 1))?;
    }
    Ok(words)
}
