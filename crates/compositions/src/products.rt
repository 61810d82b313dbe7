//! The quasi-shuffle: the product of two monomial quasi-symmetric functions.
ghost use Rattle.std.specs.Prelude.{◌≡◌, ◌+◌, ◌-◌, ◌^◌, ◌<◌, ◌≤◌, [], ◌∷◌, pos, length, drop, sum, OnOk, IfOk};
ghost use Rattle.realisations.specs.Answers.{IsAnswer};
ghost use Rattle.linear_combos.specs.Codes.{IsCode};
ghost use Rattle.realisations.specs.Combinations.{norm_of};
ghost use Rattle.realisations.specs.Readings.{element, product};
ghost use Rattle.basis_names.specs.declared.bases.BasisId.TheVariants.{QsymM};
ghost use Rattle.compositions.specs.QuasiShuffles.{AreFactors, IsProduct, AreProducts, CanStandBehind, AddsBehind, AddsBoth};

use crate::Composition;
use hopf_num::OutOfMemory;
use linear_combos::{Code, Combo, ComboBuilder, Key};
use std::alloc::Global;

// Adds the terms of a combination of rank 1, each code behind a first part.
fn add_behind(out: &mut ComboBuilder, first: u8, rest: &Combo) -> Result<(), OutOfMemory>
    requires rank { out.old.rank ≡ 1 }
    requires room { norm_of out.old.terms + norm_of rest.now.terms < 2 ^ 127 }
    requires letter { IsCode (first ∷ []) }
    requires codes { CanStandBehind first rest.now.terms }
    ensures { OnOk result (AddsBehind first rest.now.terms (length rest.now.terms) out.old out.new) }
{
    let none = Code::empty();
    let front = none.with(first);
    for at in 0..rest.len() {
        let code = front.followed_by(rest.key_at(at).code(1));
        out.push(rest.num_at(at), Key::one(code))?;
    }
    Ok(())
}

// Adds the terms of two combinations, each code behind a first part; those with the smaller first part
// come first, as in the canonical order.
fn add_both(
    out: &mut ComboBuilder,
    first: u8,
    behind_first: &Combo,
    second: u8,
    behind_second: &Combo,
) -> Result<(), OutOfMemory>
    requires rank { out.old.rank ≡ 1 }
    requires room { norm_of out.old.terms + norm_of behind_first.now.terms + norm_of behind_second.now.terms < 2 ^ 127 }
    requires letters { IsCode (first ∷ []) × IsCode (second ∷ []) }
    requires first_codes { CanStandBehind first behind_first.now.terms }
    requires second_codes { CanStandBehind second behind_second.now.terms }
    ensures { OnOk result (AddsBoth first behind_first.now.terms second behind_second.now.terms out.old out.new) }
{
    if first <= second {
        add_behind(out, first, behind_first)?;
        return add_behind(out, second, behind_second);
    }
    add_behind(out, second, behind_second)?;
    add_behind(out, first, behind_first)
}

// The product of two nonempty compositions, from the products with one of them, or both, without the
// first part.
fn product_of(
    alloc: Global,
    a: &Code,
    b: &Code,
    without_first: &Combo,
    without_second: &Combo,
    without_both: &Combo,
) -> Result<Combo, OutOfMemory>
    requires some { 1 ≤ length a.now }
    requires others { 1 ≤ length b.now }
    requires factors { AreFactors a.now b.now }
    requires first { IsProduct (drop 1 a.now) b.now without_first.now }
    requires second { IsProduct a.now (drop 1 b.now) without_second.now }
    requires both { IsProduct (drop 1 a.now) (drop 1 b.now) without_both.now }
    ensures { IfOk result (IsProduct a.now b.now) }
{
    let mut out = ComboBuilder::new(alloc, 1);
    let (first, second) = (a.letter(0), b.letter(0));
    add_both(&mut out, first, without_first, second, without_second)?;
    add_behind(&mut out, first + second, without_both)?;
    Ok(out.finish())
}

// One composition alone.
fn only(alloc: Global, code: Code) -> Result<Combo, OutOfMemory>
    ensures { IfOk result (λ c. c ≡ record { rank = 1; den = 1; terms = (pos 1, code ∷ []) ∷ [] }) }
{
    Combo::term(alloc, 1, Key::one(code))
}

// The products of the empty composition with the last parts of another one: none of them, one, two and
// so on.
fn first_row(alloc: Global, b: &Code) -> Result<Vec<Combo>, OutOfMemory>
    requires { AreFactors [] b.now }
    ensures { IfOk result (λ row. AreProducts [] b.now (length b.now + 1) row.items) }
{
    let mut row = Vec::new(alloc);
    for len in 0..b.len() + 1 {
        row.push(only(alloc, b.suffix(b.len() - len))?)?;
    }
    Ok(row)
}

// The product of a composition with the last parts of another one, so many of them, from the products
// with fewer of them, and those of the first one without its first part.
fn next_in_row(
    alloc: Global,
    a: &Code,
    b: &Code,
    len: usize,
    row: &[Combo],
    below: &[Combo],
) -> Result<Combo, OutOfMemory>
    requires some { 1 ≤ length a.now }
    requires others { 1 ≤ len }
    requires in_range { len ≤ length b.now }
    requires factors { AreFactors a.now b.now }
    requires row { AreProducts a.now b.now len row.now }
    requires below { AreProducts (drop 1 a.now) b.now (length b.now + 1) below.now }
    ensures { IfOk result (IsProduct a.now (drop (length b.now - len) b.now)) }
{
    let last = b.suffix(b.len() - len);
    product_of(alloc, a, &last, &below[len], &row[len - 1], &below[len - 1])
}

// The products of a composition with the last parts of another one, from those of the first without its
// first part.
fn next_row(alloc: Global, a: &Code, b: &Code, below: &[Combo]) -> Result<Vec<Combo>, OutOfMemory>
    requires some { 1 ≤ length a.now }
    requires factors { AreFactors a.now b.now }
    requires below { AreProducts (drop 1 a.now) b.now (length b.now + 1) below.now }
    ensures { IfOk result (λ row. AreProducts a.now b.now (length b.now + 1) row.items) }
{
    let mut row = Vec::new(alloc);
    row.push(only(alloc, *a)?)?;
    for len in 1..b.len() + 1 {
        row.push(next_in_row(alloc, a, b, len, &row, below)?)?;
    }
    Ok(row)
}

// The product of two compositions, row by row.
fn product_of_codes(alloc: Global, a: &Code, b: &Code) -> Result<Combo, OutOfMemory>
    requires { AreFactors a.now b.now }
    ensures { IfOk result (IsProduct a.now b.now) }
{
    let mut row = first_row(alloc, b)?;
    for len in 0..a.len() {
        row = next_row(alloc, &a.suffix(a.len() - (len + 1)), b, &row)?;
    }
    Ok(row.pop().unwrap())
}

/// The product of two monomial quasi-symmetric functions, as a combination of these.
///
/// For nonempty `I = (a, I')` and `J = (b, J')` it is a before the product of I' and J, b before that
/// of I and J', and a + b before that of I' and J' (Gessel 1984; Hoffman 2000). Each product of last
/// parts of both is made once, so the cost grows with the terms of these.
pub fn quasi_shuffle(alloc: Global, a: &Composition, b: &Composition) -> Result<Combo, OutOfMemory>
    requires { sum a.now + sum b.now ≤ 12 }
    ensures { IfOk result (IsAnswer (QsymM ∷ []) (sum a.now + sum b.now) (product (element QsymM a.now) (element QsymM b.now))) }
{
    product_of_codes(alloc, a.code(), b.code())
}
