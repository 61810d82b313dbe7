//! The letters of a word up to a number, and past it.
ghost use Rattle.std.specs.Prelude.{◌≡◌};
ghost use Rattle.coproduct_laws.specs.ValueCuts.{letters_up_to, letters_past, lower};
ghost use Rattle.realisations.specs.Standardisation.{pack};
ghost use Rattle.packed_words.specs.Sizes.{IsSmallPackedWord};

use linear_combos::Code;

// The letters of a packed word up to k.
pub(crate) fn low_letters(k: u8, word: &Code) -> Code
    requires { IsSmallPackedWord word.now }
    ensures { result ≡ letters_up_to k word.now }
{
    let mut low = Code::empty();
    for at in 0..word.len() {
        let letter = word.letter(at);
        if letter <= k {
            low = low.with(letter);
        }
    }
    low
}

// The letters of a packed word past k, each lowered by k, which is their packing.
pub(crate) fn lowered_letters(k: u8, word: &Code) -> Code
    requires { IsSmallPackedWord word.now }
    ensures lowered { result ≡ lower k (letters_past k word.now) }
    ensures packed { result ≡ pack (letters_past k word.now) }
{
    let mut high = Code::empty();
    for at in 0..word.len() {
        let letter = word.letter(at);
        if letter > k {
            high = high.with(letter - k);
        }
    }
    high
}
