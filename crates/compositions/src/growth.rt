//! Lists of compositions, grown letter by letter from the last letter to the first.
//!
//! A composition of n is a choice for each of the n - 1 places between n letters: a new part begins
//! there, or not. With the first choice before the second, compositions come in canonical order.
ghost use Rattle.std.specs.Prelude.{◌≡◌, ◌++◌, ◌∷◌, [], map, OnOk, IfOk};
ghost use Rattle.std.specs.List.{All};
ghost use Rattle.realisations.specs.Descents.{longer_first};
ghost use Rattle.compositions.specs.Growth.{CanGrowBy, grown_codes, grown_times, codes_over};
ghost use Rattle.compositions.specs.Sizes.{IsSmallComposition};

use crate::fronts::{first_longer, part_before};
use hopf_num::OutOfMemory;
use linear_combos::{Code, Codes};
use std::alloc::Global;

// What the compositions of a list have at a place between two letters: a new part, none, or either.
#[derive(Clone, Copy)]
pub(crate) enum Place {
    Cut,
    Joined,
    Free,
}

// Adds each code with a part 1 in front.
fn push_ones_before(list: &Codes, longer: &mut Codes) -> Result<(), OutOfMemory>
    requires { All (CanGrowBy 1) list.now }
    ensures { OnOk result (longer.new ≡ longer.old ++ map (λ parts. 1 ∷ parts) list.now) }
{
    for at in 0..list.len() {
        longer.push(part_before(1, list.at(at)))?;
    }
    Ok(())
}

// Adds each code with its first part one larger.
fn push_first_longer(list: &Codes, longer: &mut Codes) -> Result<(), OutOfMemory>
    requires { All (CanGrowBy 1) list.now }
    ensures { OnOk result (longer.new ≡ longer.old ++ map longer_first list.now) }
{
    for at in 0..list.len() {
        longer.push(first_longer(list.at(at)))?;
    }
    Ok(())
}

// Adds each code with one letter more in front, in each way that the place behind that letter allows.
fn push_grown(place: Place, list: &Codes, longer: &mut Codes) -> Result<(), OutOfMemory>
    requires { All (CanGrowBy 1) list.now }
    ensures { OnOk result (longer.new ≡ longer.old ++ grown_codes place list.now) }
{
    match place {
        Place::Cut => push_ones_before(list, longer),
        Place::Joined => push_first_longer(list, longer),
        Place::Free => {
            push_ones_before(list, longer)?;
            push_first_longer(list, longer)
        }
    }
}

// The codes with one letter more in front.
fn grown(alloc: Global, place: Place, list: &Codes) -> Result<Codes, OutOfMemory>
    requires { All (CanGrowBy 1) list.now }
    ensures { IfOk result (λ codes. codes ≡ grown_codes place list.now) }
{
    let mut codes = Codes::new(alloc);
    push_grown(place, list, &mut codes)?;
    Ok(codes)
}

// The codes with some letters more in front, the places behind them alike.
fn grown_by(alloc: Global, count: usize, place: Place, list: Codes) -> Result<Codes, OutOfMemory>
    requires { All (CanGrowBy count) list }
    ensures { IfOk result (λ codes. codes ≡ grown_times count place list) }
{
    let mut codes = list;
    for _ in 0..count {
        codes = grown(alloc, place, &codes)?;
    }
    Ok(codes)
}

// One code alone.
fn only(alloc: Global, code: Code) -> Result<Codes, OutOfMemory>
    ensures { IfOk result (λ codes. codes ≡ code ∷ []) }
{
    let mut codes = Codes::new(alloc);
    codes.push(code)?;
    Ok(codes)
}

// The compositions of the size of a composition, by what they have at the places between its parts and
// at those inside them, in canonical order.
pub(crate) fn compositions_over(
    alloc: Global,
    between: Place,
    inside: Place,
    parts: &Code,
) -> Result<Codes, OutOfMemory>
    requires { IsSmallComposition parts.now }
    ensures { IfOk result (λ codes. codes ≡ codes_over between inside parts.now) }
{
    if parts.len() == 0 {
        return only(alloc, Code::empty());
    }
    let more = usize::from(parts.letter(0)) - 1;
    let behind = parts.suffix(1);
    if behind.len() == 0 {
        let last = only(alloc, part_before(1, &behind))?;
        return grown_by(alloc, more, inside, last);
    }
    let rest = compositions_over(alloc, between, inside, &behind)?;
    let front = grown(alloc, between, &rest)?;
    grown_by(alloc, more, inside, front)
}
