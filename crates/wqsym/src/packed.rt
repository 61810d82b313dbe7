//! Codes as packed words.
ghost use Rattle.std.specs.Prelude.{◌≡◌, ◌≤◌, ◌↔◌, length, IsTrue};
ghost use Rattle.packed_words.specs.Sizes.{IsSmallPackedWord};
ghost use Rattle.realisations.specs.IndexKinds.{is_packed as is_packed_code};

use basis_names::{AlgebraId, limit};
use linear_combos::Code;
use packed_words::PackedWord;

// Whether the code is a packed word within the degree limit.
pub(crate) fn is_packed(code: &Code) -> bool
    ensures { IsTrue result ↔ IsTrue (is_packed_code code.now) × (length code.now ≤ 6) }
{
    if code.len() as u32 > limit(AlgebraId::Wqsym) {
        return false;
    }
    PackedWord::of_code(*code).is_some()
}

// The packed word that a code is.
pub(crate) fn packed_word(code: &Code) -> PackedWord
    requires { IsSmallPackedWord code.now }
    ensures { result ≡ code.now }
{
    PackedWord::of_code(*code).unwrap()
}
