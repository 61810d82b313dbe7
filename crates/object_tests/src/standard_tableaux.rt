//! Tests of insertion, restriction and lists of standard tableaux.
use crate::code_lists::are;
use linear_combos::Code;
use permutation_words::Permutation;
use std::test::Fail;
use tableaux::{Tableau, list, schensted};

fn code(letters: &[u8]) -> Result<Code, Fail> {
    Ok(Code::new(letters).ok_or("no code")?)
}

/// The tableau of 132, and what is left of it from 2 to 3.
#[test]
fn tableau_of_132(rt: HostRuntime) -> Result<(), Fail> {
    let tableau = schensted(&Permutation::new(&[1, 3, 2]).ok_or("no permutation")?);
    assert_eq!(rt; tableau.code(), code(&[1, 1, 2])?);
    assert_eq!(rt; tableau.reading_word(), code(&[3, 1, 2])?);
    assert_eq!(rt; tableau.restrict(2, 3).code(), code(&[1, 2])?);
    Ok(())
}

/// No standard tableau begins in the second row; 112 is the code of one.
#[test]
fn codes_of_tableaux(rt: HostRuntime) -> Result<(), Fail> {
    assert!(rt; Tableau::from_code(&code(&[2])?).is_none());
    let tableau = Tableau::from_code(&code(&[1, 1, 2])?).ok_or("no tableau")?;
    assert_eq!(rt; tableau.restrict(2, 3).code(), code(&[1, 2])?);
    Ok(())
}

/// 3, 1 and 2 enter the empty tableau.
#[test]
fn insertion_of_312(rt: HostRuntime) -> Result<(), Fail> {
    let mut tableau = Tableau::empty();
    tableau.insert(3);
    tableau.insert(1);
    tableau.insert(2);
    assert_eq!(rt; tableau.code(), code(&[1, 1, 2])?);
    Ok(())
}

/// The tableaux of 2, and how many there are of each number up to 8.
#[test]
fn tableaux_by_degree(rt: HostRuntime) -> Result<(), Fail> {
    assert!(rt; are(&list(rt.alloc(), 2)?, &[&[1, 1], &[1, 2]]));
    for (degree, count) in [
        (0, 1),
        (1, 1),
        (2, 2),
        (3, 4),
        (4, 10),
        (5, 26),
        (6, 76),
        (7, 232),
        (8, 764),
    ] {
        assert_eq!(rt; list(rt.alloc(), degree)?.len(), count);
    }
    Ok(())
}
