//! Packed words.
ghost use Rattle.std.specs.Prelude.{◌≡◌, ◌≤◌, List, ℕ, length, MatchOption};
ghost use Rattle.coproduct_laws.specs.ValueCuts.{letters_up_to, letters_past, lower};
ghost use Rattle.realisations.specs.Standardisation.{pack};
ghost use Rattle.packed_words.specs.Sizes.{IsSmallPackedWord};

use crate::cutting::{low_letters, lowered_letters};
use crate::packing::holds_each_number;
use linear_combos::Code;
use std::marker::Model;

// The greatest size.
const MOST: usize = 12;

/// A packed word of at most 12 letters. No call of a packed word takes memory.
#[derive(Drop)]
pub struct PackedWord {
    code: Code,
}

impl Model for PackedWord {
    ghost use Rattle.std.specs.Prelude.{List, ℕ};
    ghost use Rattle.packed_words.specs.Sizes.{IsSmallPackedWord};

    ghost Value = { List ℕ };

    ghost view = { λ w. w.code };

    ghost invariant = { λ w. IsSmallPackedWord w.code };
}

impl PackedWord {
    /// The packed word of these letters, or `None` exactly where they are none, or more than 12.
    pub fn new(letters: &[u8]) -> Option<PackedWord>
        ensures { MatchOption result (IsSmallPackedWord letters.now → ⊥) (λ w. (w ≡ letters.now) × IsSmallPackedWord letters.now) }
    {
        let code = Code::new(letters)?;
        PackedWord::of_code(code)
    }

    /// The packed word whose letters are those of a code, or `None` exactly where these are no packed
    /// word, or more than 12.
    pub fn of_code(code: Code) -> Option<PackedWord>
        ensures { MatchOption result (IsSmallPackedWord code → ⊥) (λ w. (w ≡ code) × IsSmallPackedWord code) }
    {
        if code.len() > MOST || !holds_each_number(&code) {
            return None;
        }
        Some(PackedWord { code })
    }

    /// The letters as a code.
    pub fn code(&self) -> &Code
        ensures value { result.now ≡ self.now }
        ensures small { IsSmallPackedWord self.now }
    {
        &self.code
    }

    /// The letters up to k, which are a packed word.
    pub fn restrict_low(&self, k: u8) -> PackedWord
        ensures { result ≡ letters_up_to k self.now }
    {
        PackedWord {
            code: low_letters(k, &self.code),
        }
    }

    /// The letters past k, packed: each is lowered by k.
    pub fn restrict_high(&self, k: u8) -> PackedWord
        ensures packed { result ≡ pack (letters_past k self.now) }
        ensures lowered { result ≡ lower k (letters_past k self.now) }
    {
        PackedWord {
            code: lowered_letters(k, &self.code),
        }
    }
}
