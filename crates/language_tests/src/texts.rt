//! Tests of the texts of indices and of values.
use basis_routes::{Value, is_index};
use hopf_io::Bytes;
use hopf_laws::BasisId;
use hopf_num::Fraction;
use linear_combos::Code;
use std::alloc::Global;
use std::test::Fail;
use value_texts::{print_index, print_value};

/// Whether the value prints this text.
fn prints(alloc: Global, value: &Value, text: &[u8]) -> Result<bool, Fail> {
    let mut out = Bytes::new(alloc);
    print_value(alloc, value, &mut out)?;
    Ok(out.as_slice() == text)
}

fn scalar(alloc: Global, num: i128, den: i128) -> Result<Value, Fail> {
    let number = Fraction::new(num, den).map_err(|_| "no fraction")?;
    Ok(Value::scalar(alloc, &number)?)
}

/// Whether the fraction of these numbers prints this text.
fn prints_scalar(alloc: Global, num: i128, den: i128, text: &[u8]) -> Result<bool, Fail> {
    let value = scalar(alloc, num, den)?;
    prints(alloc, &value, text)
}

/// Scalars, with their sign and denominator.
#[test]
fn scalars(rt: HostRuntime) -> Result<(), Fail> {
    let rows: [(i128, i128, &[u8]); 5] = [
        (-1, 3, b"-1/3"),
        (1, 1, b"1"),
        (0, 5, b"0"),
        (6, 4, b"3/2"),
        (2, -1, b"-2"),
    ];
    for (num, den, text) in rows {
        assert!(rt; prints_scalar(rt.alloc(), num, den, text)?);
    }
    Ok(())
}

/// The element of this code, which is to be a composition of at most 10.
fn element(alloc: Global, letters: &[u8]) -> Result<Value, Fail> {
    let code = Code::new(letters).ok_or("no code")?;
    if !is_index(BasisId::QsymM, &code) {
        return Err(Fail::from("no index"));
    }
    Ok(Value::element(alloc, BasisId::QsymM, code)?)
}

/// Elements with long and with no indices.
#[test]
fn elements(rt: HostRuntime) -> Result<(), Fail> {
    let rows: [(&[u8], &[u8]); 3] = [
        (&[2, 1], b"QSym.M[2,1]"),
        (&[10], b"QSym.M[10]"),
        (&[], b"QSym.M[]"),
    ];
    for (letters, text) in rows {
        let value = element(rt.alloc(), letters)?;
        assert!(rt; prints(rt.alloc(), &value, text)?);
    }
    Ok(())
}

/// Whether the element of a basis with the index of this code prints this text.
fn prints_index(alloc: Global, basis: BasisId, letters: &[u8], text: &[u8]) -> Result<bool, Fail> {
    let code = Code::new(letters).ok_or("no code")?;
    let mut out = Bytes::new(alloc);
    print_index(alloc, basis, &code, &mut out)?;
    Ok(out.as_slice() == text)
}

/// Elements with indices of each kind.
#[test]
fn kinds_of_indices(rt: HostRuntime) -> Result<(), Fail> {
    let rows: [(BasisId, &[u8], &[u8]); 10] = [
        (BasisId::NcsfS, &[2, 1], b"NCSF.S[2,1]"),
        (BasisId::FqsymF, &[2, 3, 1], b"FQSym.F[2,3,1]"),
        (BasisId::WqsymM, &[1, 2, 1], b"WQSym.M[1,2,1]"),
        (BasisId::FsymS, &[1, 1, 2], b"FSym.S[[1,2],[3]]"),
        (BasisId::FsymS, &[1, 2], b"FSym.S[[1],[2]]"),
        (BasisId::FsymS, &[], b"FSym.S[]"),
        (BasisId::PbtP, &[], b"PBT.P[]"),
        (BasisId::PbtP, &[1], b"PBT.P[[],[]]"),
        (BasisId::PbtP, &[2, 1], b"PBT.P[[],[[],[]]]"),
        (BasisId::PbtP, &[1, 2, 1], b"PBT.P[[[],[]],[[],[]]]"),
    ];
    for (basis, letters, text) in rows {
        assert!(rt; prints_index(rt.alloc(), basis, letters, text)?);
    }
    Ok(())
}

/// A basis element is appended to what was there.
#[test]
fn elements_are_appended(rt: HostRuntime) -> Result<(), Fail> {
    let code = Code::new(&[1, 3]).ok_or("no code")?;
    let mut out = Bytes::new(rt.alloc());
    out.push_all(b"1 + ")?;
    print_index(rt.alloc(), BasisId::QsymM, &code, &mut out)?;
    assert!(rt; out.as_slice() == b"1 + QSym.M[1,3]".as_slice());
    Ok(())
}
