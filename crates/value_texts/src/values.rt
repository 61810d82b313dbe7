//! Prints values.
ghost use Rattle.std.specs.Prelude.{◌≡◌, ◌++◌, ◌<◌, length, drop, unsigned_abs, OnOk, OnErr, IfOk};
ghost use Rattle.std.specs.Fmt.{decimal};
ghost use Rattle.hopf_num.specs.Fractions.{fraction_text, over_text};
ghost use Rattle.realisations.specs.Combinations.{term_at};
ghost use Rattle.value_texts.specs.Text.{key_text, coefficient_text, term_text, first_sign, later_sign, IsCoefficient, IsTextOf, AppendsText};

use crate::elements::append_element;
use basis_routes::{Bases, Value};
use hopf_io::Bytes;
use hopf_num::{Fraction, OutOfMemory};
use linear_combos::Key;
use std::alloc::Global;

/// Appends the text of a value: `0` for zero, the number for a scalar, and else its terms in the order
/// of their keys, each with its coefficient in lowest terms.
///
/// After an error nothing was appended.
pub fn print_value(alloc: Global, value: &Value, out: &mut Bytes) -> Result<(), OutOfMemory>
    ensures ok { OnOk result (AppendsText value.now out.old out.new) }
    ensures err { OnErr result (out.new ≡ out.old) }
{
    let text = text_of(alloc, value)?;
    out.push_all(text.as_slice())
}

// The text of a value.
fn text_of(alloc: Global, value: &Value) -> Result<Bytes, OutOfMemory>
    ensures { IfOk result (IsTextOf value.now) }
{
    let mut text = Bytes::new(alloc);
    if value.combo().len() == 0 {
        text.push_all(b"0")?;
        return Ok(text);
    }
    let first = coefficient(value, 0);
    if value.rank() == 0 {
        append_fraction(&first, &mut text)?;
        return Ok(text);
    }
    text.push_all(leading_sign(first.num()))?;
    append_term(value, 0, &first, &mut text)?;
    for place in 1..value.combo().len() {
        let next = coefficient(value, place);
        text.push_all(joining_sign(next.num()))?;
        append_term(value, place, &next, &mut text)?;
    }
    Ok(text)
}

// The coefficient of the term at a place.
fn coefficient(value: &Value, place: usize) -> Fraction
    requires { place < length value.now.combination.terms }
    ensures { IsCoefficient (term_at value.now.combination.terms place).0 value.now.combination.den result }
{
    let combo = value.combo();
    Fraction::new(combo.num_at(place), combo.den()).unwrap()
}

// Appends a number, with its sign.
fn append_fraction(number: &Fraction, out: &mut Bytes) -> Result<(), OutOfMemory>
    ensures { OnOk result (out.new ≡ out.old ++ fraction_text number.now) }
{
    let mut digits = [0; 80];
    let end = number.write(&mut digits);
    out.push_all(&digits[..end])
}

// Appends a term without its sign.
fn append_term(
    value: &Value,
    place: usize,
    coefficient: &Fraction,
    out: &mut Bytes,
) -> Result<(), OutOfMemory>
    requires { place < length value.now.combination.terms }
    ensures { OnOk result (out.new ≡ out.old ++ term_text value.now.bases coefficient.now ((term_at value.now.combination.terms place).1)) }
{
    append_coefficient(coefficient, out)?;
    append_key(value.bases(), value.combo().key_at(place), out)
}

// Appends an absolute coefficient and `*`, or nothing where it is 1.
fn append_coefficient(coefficient: &Fraction, out: &mut Bytes) -> Result<(), OutOfMemory>
    ensures { OnOk result (out.new ≡ out.old ++ coefficient_text coefficient.now) }
{
    if coefficient.num().unsigned_abs() == 1 && coefficient.den() == 1 {
        return Ok(());
    }
    append_absolute(coefficient, out)?;
    out.push_all(b"*")
}

// Appends a number without its sign.
fn append_absolute(number: &Fraction, out: &mut Bytes) -> Result<(), OutOfMemory>
    ensures { OnOk result (out.new ≡ out.old ++ (decimal (unsigned_abs number.now.num) ++ over_text number.now.den)) }
{
    let mut digits = [0; 80];
    let end = number.write(&mut digits);
    let start = if number.num() < 0 { 1 } else { 0 };
    out.push_all(&digits[start..end])
}

// Appends the basis elements of a key, with ` # ` between.
fn append_key(bases: &Bases, key: &Key, out: &mut Bytes) -> Result<(), OutOfMemory>
    requires { length key.now ≡ length bases.now }
    ensures { OnOk result (out.new ≡ out.old ++ key_text bases.now key.now) }
{
    if bases.len() == 0 {
        return Ok(());
    }
    append_element(bases.at(1), key.code(1), out)?;
    for component in 2..=bases.len() {
        out.push_all(b" # ")?;
        append_element(bases.at(component), key.code(component), out)?;
    }
    Ok(())
}

// What stands before the first term.
fn leading_sign(num: i128) -> &'static [u8]
    ensures { result.now ≡ first_sign num }
{
    if num < 0 { b"-" } else { b"" }
}

// What stands before each later term.
fn joining_sign(num: i128) -> &'static [u8]
    ensures { result.now ≡ later_sign num }
{
    if num < 0 { b" - " } else { b" + " }
}
