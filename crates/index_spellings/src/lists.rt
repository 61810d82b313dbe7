//! Lists of numbers: compositions, permutations and packed words.
ghost use Rattle.std.specs.Prelude.{◌≡◌, ◌≤◌, ℕ, List, Some, MatchOption};
ghost use Rattle.linear_combos.specs.Codes.{IsCode};
ghost use Rattle.realisations.specs.IndexKinds.{by_composition, by_permutation, by_packed_word};
ghost use Rattle.index_spellings.specs.Items.{numbers_in};
ghost use Rattle.index_spellings.specs.Indices.{index_by};

use linear_combos::Code;
use packed_words::PackedWord;
use permutation_words::Permutation;
use session_tokens::Lexeme;

// The numbers of a list that holds no list, as a code.
fn code_in(items: &[Lexeme]) -> Option<Code>
    ensures { MatchOption result ((code : List ℕ) → numbers_in items.now ≡ Some code → IsCode code → ⊥) (λ code. (numbers_in items.now ≡ Some code) × IsCode code) }
{
    let mut code = Code::empty();
    for item in items {
        match item {
            Lexeme::Number(number) => {
                let number = *number;
                if number < 1 || number > 15 || code.len() == 15 {
                    return None;
                }
                code = code.with(number as u8);
            }
            Lexeme::Comma => {}
            _ => return None,
        }
    }
    Some(code)
}

// The composition of a number up to a limit that the items of a list spell.
pub(crate) fn composition_in(limit: u32, items: &[Lexeme]) -> Option<Code>
    requires { limit ≤ 12 }
    ensures { result ≡ index_by by_composition limit items.now }
{
    let code = code_in(items)?;
    if code.sum() <= limit {
        Some(code)
    } else {
        None
    }
}

// The permutation of a size up to a limit that the items of a list spell.
pub(crate) fn permutation_in(limit: u32, items: &[Lexeme]) -> Option<Code>
    requires { limit ≤ 12 }
    ensures { result ≡ index_by by_permutation limit items.now }
{
    let code = code_in(items)?;
    let permutation = Permutation::of_code(code)?;
    if code.len() as u32 <= limit {
        Some(*permutation.code())
    } else {
        None
    }
}

// The packed word of a length up to a limit that the items of a list spell.
pub(crate) fn packed_word_in(limit: u32, items: &[Lexeme]) -> Option<Code>
    requires { limit ≤ 12 }
    ensures { result ≡ index_by by_packed_word limit items.now }
{
    let code = code_in(items)?;
    let word = PackedWord::of_code(code)?;
    if code.len() as u32 <= limit {
        Some(*word.code())
    } else {
        None
    }
}
