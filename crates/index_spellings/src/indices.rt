//! The index of a basis that a list spells.
ghost use Rattle.std.specs.Prelude.{◌≡◌};
ghost use Rattle.index_spellings.specs.Indices.{index_in as index_spelled, begins_bad_list as begins_with_bad_list};

use crate::brackets::inside_list;
use crate::lists::{composition_in, packed_word_in, permutation_in};
use crate::rows::tableau_in;
use crate::trees::tree_in;
use basis_names::{BasisId, algebra, limit};
use linear_combos::Code;
use session_tokens::Lexeme;

/// The index of a basis, within the degree limit of its algebra, that the items of a list spell, as its
/// code: a composition, a permutation or a packed word is a list of numbers, a standard tableau the list
/// of its rows, the first row first, and a binary tree the pair of the left and the right subtree, the
/// empty tree an empty list. It takes no memory, and time in the number of items.
pub fn index_in(basis: BasisId, items: &[Lexeme]) -> Option<Code>
    ensures { result ≡ index_spelled basis items.now }
{
    let limit = limit(algebra(basis));
    match basis {
        BasisId::QsymM | BasisId::QsymF | BasisId::NcsfS | BasisId::NcsfL | BasisId::NcsfR =>
            composition_in(limit, items),
        BasisId::FqsymF | BasisId::FqsymG => permutation_in(limit, items),
        BasisId::WqsymM => packed_word_in(limit, items),
        BasisId::FsymS => tableau_in(limit, items),
        BasisId::PbtP => tree_in(limit, items),
    }
}

/// Whether lexemes begin with the name of a basis and a list that spells no index of it. It takes no
/// memory, and time in the length of the list.
pub fn begins_bad_list(lexemes: &[Lexeme]) -> bool
    ensures { result ≡ begins_with_bad_list lexemes.now }
{
    match lexemes {
        [Lexeme::Basis(basis), Lexeme::LeftBracket, behind @ ..] => {
            index_in(*basis, inside_list(behind)).is_none()
        }
        _ => false,
    }
}
