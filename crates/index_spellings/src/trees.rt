//! Binary trees: nested pairs.
ghost use Rattle.std.specs.Prelude.{◌≡◌, ◌≤◌, List, ◌∷◌, MatchOption, None, Some};
ghost use Rattle.realisations.specs.IndexKinds.{by_tree};
ghost use Rattle.index_spellings.specs.Items.{tree_in as tree_spelled, second_list as second_list_of};
ghost use Rattle.index_spellings.specs.Indices.{index_by};
ghost use Rattle.session_tokens.specs.declared.lexeme.Lexeme.{Lexeme as LexemeValue};
ghost use Rattle.session_tokens.specs.declared.lexeme.Lexeme.TheVariants.{LeftBracket};
ghost use Rattle.index_spellings.specs.TreeCodes.{node_within, code_of_tree};

use crate::brackets::{behind_list, inside_list};
use linear_combos::Code;
use session_tokens::Lexeme;

// The lexemes behind a bracket that opens a list, where there is one in front.
fn behind_bracket(items: &[Lexeme]) -> Option<&[Lexeme]>
    ensures { MatchOption result ((ts : List LexemeValue) → items.now ≡ LeftBracket ∷ ts → ⊥) (λ ts. items.now ≡ LeftBracket ∷ ts.now) }
{
    let [Lexeme::LeftBracket, behind @ ..] = items else {
        return None;
    };
    Some(behind)
}

// The lexemes of the second list of a pair, behind the first one.
fn second_list(lexemes: &[Lexeme]) -> Option<&[Lexeme]>
    ensures { MatchOption result (second_list_of lexemes.now ≡ None) (λ items. second_list_of lexemes.now ≡ Some items.now) }
{
    let [Lexeme::Comma, Lexeme::LeftBracket, behind @ ..] = lexemes else {
        return None;
    };
    if behind_list(behind).len() > 0 {
        return None;
    }
    Some(inside_list(behind))
}

// The code of the node over the trees with these codes, where its size is within a limit.
fn node_code(limit: u32, left: &Code, right: &Code) -> Option<Code>
    requires { limit ≤ 12 }
    ensures { result ≡ node_within limit left.now right.now }
{
    let (left_size, right_size) = (left.len(), right.len());
    if (left_size + right_size) as u32 >= limit {
        return None;
    }
    Some(left.with(right_size as u8 + 1).followed_by(right))
}

// The code of the tree of at most so many levels, of a size within a limit, that items spell.
fn tree_within(limit: u32, levels: u32, items: &[Lexeme]) -> Option<Code>
    requires { limit ≤ 12 }
    ensures { result ≡ code_of_tree limit (tree_spelled levels items.now) }
{
    if items.len() == 0 {
        return Some(Code::empty());
    }
    if levels == 0 {
        return None;
    }
    let behind = behind_bracket(items)?;
    let left = tree_within(limit, levels - 1, inside_list(behind))?;
    let second = second_list(behind_list(behind))?;
    let right = tree_within(limit, levels - 1, second)?;
    node_code(limit, &left, &right)
}

// The tree of a size up to a limit that the items of a list spell, as its code.
pub(crate) fn tree_in(limit: u32, items: &[Lexeme]) -> Option<Code>
    requires { limit ≤ 12 }
    ensures { result ≡ index_by by_tree limit items.now }
{
    tree_within(limit, limit, items)
}
