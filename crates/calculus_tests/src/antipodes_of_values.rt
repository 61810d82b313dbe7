//! Tests of the antipode of a component of a value.
use basis_routes::{Place, Refusal, Value, is_index};
use hopf_laws::BasisId;
use hopf_ops::{antipode, coproduct, mult, tensor};
use linear_combos::{Code, Key};
use std::alloc::Global;
use std::test::Fail;

/// An element of a basis.
fn element(alloc: Global, basis: BasisId, letters: &[u8]) -> Result<Value, Fail> {
    let code = Code::new(letters).ok_or("no code")?;
    if !is_index(basis, &code) {
        return Err(Fail::from("no index"));
    }
    Ok(Value::element(alloc, basis, code)?)
}

/// Whether the value is one element of two components.
fn is_pair(value: &Value, num: i128, first: &[u8], second: &[u8]) -> bool {
    let (Some(a), Some(b)) = (Code::new(first), Code::new(second)) else {
        return false;
    };
    let combo = value.combo();
    combo.len() == 1 && combo.num_at(0) == num && *combo.key_at(0) == Key::two(a, b)
}

/// `M[2] # R[2]` has the antipode -`M[2] # R[2]` in its first component, and `M[2] # R[1,1]` in its second one.
#[test]
fn antipodes_of_components(rt: HostRuntime) -> Result<(), Fail> {
    let left = element(rt.alloc(), BasisId::QsymM, &[2])?;
    let right = element(rt.alloc(), BasisId::NcsfR, &[2])?;
    let pair = tensor(rt.alloc(), &left, &right).map_err(|_| "no tensor")?;
    let first = antipode(rt.alloc(), &pair, Place::At(1)).map_err(|_| "no antipode")?;
    assert!(rt; is_pair(&first, -1, &[2], &[2]));
    let second = antipode(rt.alloc(), &pair, Place::At(2)).map_err(|_| "no antipode")?;
    assert!(rt; is_pair(&second, 1, &[2], &[1, 1]));
    Ok(())
}

/// Which components there are.
#[test]
fn antipodes_of_no_component(rt: HostRuntime) -> Result<(), Fail> {
    let one = element(rt.alloc(), BasisId::WqsymM, &[1, 2])?;
    assert!(rt;
        matches!(
            antipode(rt.alloc(), &one, Place::At(2)),
            Err(Refusal::Component)
        )
    );
    Ok(())
}

/// The coproduct of `F[3,1,2]`, its antipode in the first component, and the product: nothing is left.
#[test]
fn convolution_of_an_element(rt: HostRuntime) -> Result<(), Fail> {
    let word = element(rt.alloc(), BasisId::FqsymF, &[3, 1, 2])?;
    let parts = coproduct(rt.alloc(), &word, Place::Only).map_err(|_| "no coproduct")?;
    let turned = antipode(rt.alloc(), &parts, Place::At(1)).map_err(|_| "no antipode")?;
    let product = mult(rt.alloc(), &turned, Place::Only).map_err(|_| "no product")?;
    assert_eq!(rt; product.combo().len(), 0);
    Ok(())
}
