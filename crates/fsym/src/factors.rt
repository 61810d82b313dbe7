//! The tableaux of a product: those that two others are the front and the back of.
ghost use Rattle.std.specs.Prelude.{◌≡◌, ◌+◌, ◌≤◌, ◌++◌, length, OnOk, IfOk};
ghost use Rattle.std.specs.List.{All, filter};
ghost use Rattle.fsym.specs.Products.{AreProducts, IsOfBoth, has_factors as has_both};

use crate::codes::tableau;
use hopf_num::OutOfMemory;
use linear_combos::{Code, Codes};
use std::alloc::Global;
use tableaux::list;

// Whether the first numbers of a standard tableau form the first factor, and the others, restricted to
// them, the second one.
fn has_factors(code: &Code, left: &Code, right: &Code) -> bool
    requires { IsOfBoth left.now right.now code.now }
    ensures { result ≡ has_both left.now right.now code.now }
{
    if code.prefix(left.len()) != *left {
        return false;
    }
    let whole = tableau(code);
    let back = whole.restrict(left.len() as u8 + 1, code.len() as u8);
    back.code() == *right
}

// Adds those of some tableaux that have the two factors.
fn push_products(
    out: &mut Codes,
    codes: &Codes,
    left: &Code,
    right: &Code,
) -> Result<(), OutOfMemory>
    requires { All (IsOfBoth left.now right.now) codes.now }
    ensures { OnOk result (out.new ≡ out.old ++ filter (λ code. has_both left.now right.now code) codes.now) }
{
    for at in 0..codes.len() {
        let code = codes.at(at);
        if has_factors(code, left, right) {
            out.push(*code)?;
        }
    }
    Ok(())
}

// The tableaux of the product of two tableaux: all those of its degree are looked at.
pub(crate) fn products(alloc: Global, left: &Code, right: &Code) -> Result<Codes, OutOfMemory>
    requires { length left.now + length right.now ≤ 7 }
    ensures { IfOk result (AreProducts left.now right.now) }
{
    let codes = list(alloc, (left.len() + right.len()) as u32)?;
    let mut products = Codes::new(alloc);
    push_products(&mut products, &codes, left, right)?;
    Ok(products)
}
