//! Tests of the rules on indices.
use antipodes::Memo;
use basis_routes::{antipode_of, coproduct_of, is_index, list_of, product_of};
use hopf_laws::BasisId;
use linear_combos::{Code, Codes, Combo, Key};
use std::alloc::Global;
use std::test::Fail;

// Whether there are four codes, and the first is (1,1,1).
fn are_compositions_of_3(codes: &Codes) -> bool {
    codes.len() == 4 && Code::new(&[1, 1, 1]) == Some(*codes.at(0))
}

/// The indices of degree 3.
#[test]
fn indices_of_degree_3(rt: HostRuntime) -> Result<(), Fail> {
    let monomial = list_of(rt.alloc(), BasisId::QsymM, 3)?;
    assert!(rt; are_compositions_of_3(&monomial));
    let fundamental = list_of(rt.alloc(), BasisId::QsymF, 3)?;
    assert!(rt; are_compositions_of_3(&fundamental));
    Ok(())
}

// How many terms the square and the coproduct of a monomial element have.
fn monomial_terms(alloc: Global, code: &Code) -> Result<(usize, usize), Fail> {
    if !is_index(BasisId::QsymM, code) || code.sum() > 5 {
        return Err(Fail::from("no index"));
    }
    let square = product_of(alloc, BasisId::QsymM, code, code)?;
    let coproduct = coproduct_of(alloc, BasisId::QsymM, code)?;
    Ok((square.len(), coproduct.len()))
}

// The same of a fundamental element.
fn fundamental_terms(alloc: Global, code: &Code) -> Result<(usize, usize), Fail> {
    if !is_index(BasisId::QsymF, code) || code.sum() > 5 {
        return Err(Fail::from("no index"));
    }
    let square = product_of(alloc, BasisId::QsymF, code, code)?;
    let coproduct = coproduct_of(alloc, BasisId::QsymF, code)?;
    Ok((square.len(), coproduct.len()))
}

/// The square and the coproduct of the element of degree 1.
#[test]
fn square_and_coproduct_of_degree_1(rt: HostRuntime) -> Result<(), Fail> {
    let one = Code::new(&[1]).ok_or("no code")?;
    assert_eq!(rt; monomial_terms(rt.alloc(), &one)?, (2, 2));
    assert_eq!(rt; fundamental_terms(rt.alloc(), &one)?, (2, 2));
    Ok(())
}

// The antipode of an element, with what is kept of those before.
fn antipode_by(
    alloc: Global,
    memo: &mut Memo,
    basis: BasisId,
    letters: &[u8],
) -> Result<Combo, Fail> {
    let code = Code::new(letters).ok_or("no code")?;
    if !is_index(basis, &code) {
        return Err(Fail::from("no index"));
    }
    Ok(antipode_of(alloc, basis, &code, memo)?)
}

// Whether a combination is one element, with its numerator.
fn is_element(combo: &Combo, num: i128, letters: &[u8]) -> bool {
    let Some(code) = Code::new(letters) else {
        return false;
    };
    combo.len() == 1 && combo.num_at(0) == num && *combo.key_at(0) == Key::one(code)
}

/// The antipodes of `R[2,1]`, which is -`R[2,1]`, and of `F[1,2]`, which is `F[2,1]`, with one memo.
#[test]
fn antipodes_of_two_bases(rt: HostRuntime) -> Result<(), Fail> {
    let mut memo = Memo::new(rt.alloc());
    let ribbon = antipode_by(rt.alloc(), &mut memo, BasisId::NcsfR, &[2, 1])?;
    assert!(rt; is_element(&ribbon, -1, &[2, 1]));
    let word = antipode_by(rt.alloc(), &mut memo, BasisId::FqsymF, &[1, 2])?;
    assert!(rt; is_element(&word, 1, &[2, 1]));
    Ok(())
}
