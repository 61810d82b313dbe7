//! Tests of values, of their checks and of the rules on their indices.
use basis_routes::{Check, Refusal, Value, is_index, join};
use hopf_laws::{AlgebraId, BasisId, algebra, limit};
use hopf_num::{Fraction, Need};
use linear_combos::Code;
use std::alloc::Global;
use std::test::Fail;

fn code(letters: &[u8]) -> Result<Code, Fail> {
    Ok(Code::new(letters).ok_or("no code")?)
}

/// The element of a composition of at most 10.
fn monomial(alloc: Global, parts: &[u8]) -> Result<Value, Fail> {
    let code = code(parts)?;
    if !is_index(BasisId::QsymM, &code) {
        return Err(Fail::from("no index"));
    }
    Ok(Value::element(alloc, BasisId::QsymM, code)?)
}

/// The tables of the bases.
#[test]
fn tables(rt: HostRuntime) {
    assert_eq!(rt; algebra(BasisId::QsymM), AlgebraId::Qsym);
    assert_eq!(rt; limit(AlgebraId::Qsym), 10);
}

/// Which codes are indices: the degree limit is part of the test.
#[test]
fn indices_within_the_limit(rt: HostRuntime) -> Result<(), Fail> {
    for (letters, answer) in [
        (&[] as &[u8], true),
        (&[10], true),
        (&[4, 6], true),
        (&[1; 10], true),
        (&[11], false),
        (&[5, 6], false),
        (&[1; 11], false),
    ] {
        let code = code(letters)?;
        assert_eq!(rt; is_index(BasisId::QsymM, &code), answer);
    }
    assert_eq!(rt; join(BasisId::QsymM, BasisId::QsymM), Some(BasisId::QsymM));
    Ok(())
}

/// Whether the value has this rank, this total degree and this number of terms.
fn has_size(value: &Value, rank: u32, degree: u32, terms: usize) -> bool {
    value.rank() == rank && value.degree() == degree && value.combo().len() == terms
}

/// Whether the scalar of a fraction reads as another one.
fn reads_as(alloc: Global, num: i128, den: i128, lowest: (i128, i128)) -> Result<bool, Fail> {
    let number = Fraction::new(num, den).map_err(|_| "no fraction")?;
    let value = Value::scalar(alloc, &number)?;
    let read = value
        .as_fraction()
        .map(|number| (number.num(), number.den()));
    Ok(read == Some(lowest))
}

/// Scalars and the fractions that they are.
#[test]
fn scalars(rt: HostRuntime) -> Result<(), Fail> {
    assert!(rt; reads_as(rt.alloc(), -2, 6, (-1, 3))?);
    assert!(rt; reads_as(rt.alloc(), 0, 5, (0, 1))?);
    Ok(())
}

/// An element and its copy.
#[test]
fn elements(rt: HostRuntime) -> Result<(), Fail> {
    let element = monomial(rt.alloc(), &[2, 1])?;
    assert!(rt; has_size(&element, 1, 3, 1));
    assert_eq!(rt; element.rank(), 1);
    assert_eq!(rt; element.basis(1), BasisId::QsymM);
    assert!(rt; element.as_fraction().is_none());
    assert!(rt; has_size(&element.copy(rt.alloc())?, 1, 3, 1));
    Ok(())
}

/// What a check answers where it fails.
#[test]
fn checks_that_fail(rt: HostRuntime) {
    let need = Need::Linear {
        norm: 128,
        shift: 120,
    };
    for (check, refusal) in [
        (Check::SameRank { left: 1, right: 2 }, Refusal::Rank),
        (Check::RankWithin { rank: 4 }, Refusal::Rank),
        (Check::Scalar { rank: 1 }, Refusal::NotScalar),
        (Check::Nonzero { num: 0 }, Refusal::ZeroDivisor),
        (
            Check::DegreeWithin {
                degree: 11,
                limit: 10,
            },
            Refusal::Degree {
                degree: 11,
                limit: 10,
            },
        ),
        (Check::Room { need }, Refusal::TooLarge(need)),
    ] {
        assert_eq!(rt; check.test(), Err(refusal));
    }
    assert_eq!(rt;
        Check::DegreeWithin {
            degree: 10,
            limit: 10
        }
        .test(),
        Ok(())
    );
    assert_eq!(rt; Check::RankWithin { rank: 3 }.test(), Ok(()));
}
