//! The descents of trees and of standard tableaux.
ghost use Rattle.std.specs.Prelude.{◌≡◌, ◌∷◌, if◌then◌else◌};
ghost use Rattle.inclusion_laws.specs.DescentsOfIndices.{descents_of_tableau as tableau_descents, descents_of_tree as tree_descents};
ghost use Rattle.linear_combos.specs.Codes.{IsCode};
ghost use Rattle.realisations.specs.Descents.{longer_first as with_longer_first};

use linear_combos::Code;

// The composition with 1 more: its first part is one larger, or the first part.
fn longer_first(parts: &Code) -> Code
    requires { IsCode (with_longer_first parts.now) }
    ensures { result ≡ with_longer_first parts.now }
{
    let none = Code::empty();
    if parts.len() == 0 {
        return none.with(1);
    }
    let first = none.with(parts.letter(0) + 1);
    first.followed_by(&parts.suffix(1))
}

// The composition with 1 more, for one place more before the others, which is cut off from them or not.
fn with_place(cut: bool, parts: &Code) -> Code
    requires { IsCode (if cut then 1 ∷ parts.now else with_longer_first parts.now) }
    ensures { result ≡ (if cut then 1 ∷ parts.now else with_longer_first parts.now) }
{
    if cut {
        return Code::empty().with(1).followed_by(parts);
    }
    longer_first(parts)
}

/// The descent composition of a tree, by its code: cut after each node, in infix order and but for the last,
/// that has a right child (Loday, Ronco 1998).
///
/// It takes no memory; its cost grows with the length.
pub fn descents_of_tree(code: &Code) -> Code
    ensures { result ≡ tree_descents code.now }
{
    let mut parts = Code::empty();
    let len = code.len();
    for done in 0..len {
        let cut = code.letter(len - done - 1) > 1;
        parts = with_place(cut, &parts);
    }
    parts
}

/// The descent composition of a standard tableau, by its code: cut after each number that has the next one in
/// a lower row (Poirier, Reutenauer 1995).
///
/// It takes no memory; its cost grows with the length.
pub fn descents_of_tableau(code: &Code) -> Code
    ensures { result ≡ tableau_descents code.now }
{
    let mut parts = Code::empty();
    let len = code.len();
    let mut next = 0;
    for done in 0..len {
        let row = code.letter(len - done - 1);
        parts = with_place(row < next, &parts);
        next = row;
    }
    parts
}
