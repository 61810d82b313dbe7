//! Each rule once, where memory suffices.
use super::*;
use index_rules::{Algebra, ClassSpace, Coalgebra, Space};
use linear_combos::{Code, Combo, Key};
use std::alloc::Global;
use std::test::Fail;

// Whether a combination is the sum of these keys, in canonical order.
fn is_sum_of(combo: &Combo, keys: &[Key]) -> bool {
    if combo.len() != keys.len() {
        return false;
    }
    for at in 0..combo.len() {
        if combo.num_at(at) != 1 || *combo.key_at(at) != keys[at] {
            return false;
        }
    }
    true
}

// Whether the product of two elements is the sum of two others.
fn multiplies(alloc: Global, left: &[u8], right: &[u8], first: &[u8], second: &[u8]) -> bool {
    let (Some(left), Some(right)) = (Code::new(left), Code::new(right)) else {
        return false;
    };
    let (Some(first), Some(second)) = (Code::new(first), Code::new(second)) else {
        return false;
    };
    if !FsymS::is_index(&left) || !FsymS::is_index(&right) || left.len() + right.len() > 7 {
        return false;
    }
    let Ok(product) = FsymS::product(alloc, &left, &right) else {
        return false;
    };
    is_sum_of(&product, &[Key::one(first), Key::one(second)])
}

// Whether the coproduct of an element of degree 2 is that of a primitive one and the square of the element of
// degree 1.
fn cuts(alloc: Global, letters: &[u8]) -> bool {
    let (Some(code), Some(one)) = (Code::new(letters), Code::new(&[1])) else {
        return false;
    };
    if !FsymS::is_index(&code) {
        return false;
    }
    let Ok(coproduct) = FsymS::coproduct(alloc, &code) else {
        return false;
    };
    let none = Code::empty();
    let keys = [
        Key::two(none, code),
        Key::two(one, one),
        Key::two(code, none),
    ];
    is_sum_of(&coproduct, &keys)
}

// Whether the coproduct of an element has this many terms, each with numerator 1.
fn has_cuts(alloc: Global, letters: &[u8], count: usize) -> bool {
    let Some(code) = Code::new(letters) else {
        return false;
    };
    if !FsymS::is_index(&code) {
        return false;
    }
    let Ok(coproduct) = FsymS::coproduct(alloc, &code) else {
        return false;
    };
    if coproduct.len() != count {
        return false;
    }
    for at in 0..coproduct.len() {
        if coproduct.num_at(at) != 1 {
            return false;
        }
    }
    true
}

// Whether there are so many indices of a degree.
fn lists(alloc: Global, degree: u32, count: usize) -> bool {
    if degree > 7 {
        return false;
    }
    let Ok(codes) = FsymS::list(alloc, degree) else {
        return false;
    };
    codes.len() == count
}

// Whether an index has this representative, and is its class.
fn represents(alloc: Global, letters: &[u8], point: &[u8]) -> bool {
    let (Some(code), Some(point)) = (Code::new(letters), Code::new(point)) else {
        return false;
    };
    if !FsymS::is_index(&code) || point.len() > 7 {
        return false;
    }
    let Ok(word) = FsymS::word_of(alloc, &code) else {
        return false;
    };
    let Ok(class) = FsymS::class_of(alloc, &point) else {
        return false;
    };
    word == point && class == code
}

/// The square of S of one box is the sum of S of the row and of the column of two.
#[test]
fn squares(rt: HostRuntime) -> Result<(), Fail> {
    assert!(rt; multiplies(rt.alloc(), &[1], &[1], &[1, 1], &[1, 2]));
    Ok(())
}

/// S of one box times S of a column of two is the sum over the tableaux with the rows 12 and 3, and 1, 2 and
/// 3: their numbers past 1 form a column.
#[test]
fn products(rt: HostRuntime) -> Result<(), Fail> {
    assert!(rt; multiplies(rt.alloc(), &[1], &[1, 2], &[1, 1, 2], &[1, 2, 3]));
    Ok(())
}

/// The coproduct of S of a column of two has the column on either side, and a box on both.
#[test]
fn coproducts(rt: HostRuntime) -> Result<(), Fail> {
    assert!(rt; cuts(rt.alloc(), &[1, 2]));
    Ok(())
}

/// The permutations 132 and 312 have the tableau with the rows 12 and 3; of their cuts six are into reading
/// words.
#[test]
fn cuts_of_a_class(rt: HostRuntime) -> Result<(), Fail> {
    assert!(rt; has_cuts(rt.alloc(), &[1, 1, 2], 6));
    Ok(())
}

/// There are four standard tableaux of size 3.
#[test]
fn lists_of_a_degree(rt: HostRuntime) -> Result<(), Fail> {
    assert!(rt; lists(rt.alloc(), 3, 4));
    Ok(())
}

/// The tableau with the rows 12 and 3 has the reading word 312, whose inverse is 231.
#[test]
fn representatives(rt: HostRuntime) -> Result<(), Fail> {
    assert!(rt; represents(rt.alloc(), &[1, 1, 2], &[2, 3, 1]));
    Ok(())
}
