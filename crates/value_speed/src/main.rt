//! Multiplies values of many terms, so that the cost of a product can be measured.
//!
//! Each round multiplies the sum of the 512 compositions of 10 by the unit, and the sum of the 32
//! compositions of at most 5 by that of the 16 compositions of 5.
#![tactic(auto)]

use basis_routes::{Refusal, Value, is_index};
use hopf_laws::BasisId;
use hopf_ops::{add, times};
use linear_combos::Code;
use std::alloc::Global;
use std::process::ExitCode;

const ROUNDS: u32 = 100;

// The composition of a degree whose parts end at the bits of the number.
fn composition(alloc: Global, degree: u32, number: u32) -> Result<Value, Refusal> {
    let mut parts = Vec::new(alloc);
    let mut part: u8 = 1;
    for bit in 1..degree {
        if number.checked_shr(bit - 1).unwrap_or(0) & 1 == 1 {
            parts.push(part).map_err(|_| Refusal::Memory)?;
            part = 1;
        } else {
            part = part.saturating_add(1);
        }
    }
    if degree > 0 {
        parts.push(part).map_err(|_| Refusal::Memory)?;
    }
    let code = Code::new(parts.as_slice()).ok_or(Refusal::Memory)?;
    if !is_index(BasisId::QsymM, &code) {
        return Err(Refusal::Memory);
    }
    Value::element(alloc, BasisId::QsymM, code).map_err(|_| Refusal::Memory)
}

// The sum of a value and the compositions of a degree, as many as there are.
fn with_compositions(
    alloc: Global,
    value: Value,
    degree: u32,
    many: u32,
) -> Result<Value, Refusal> {
    let mut sum = value;
    for number in 1..many {
        let next = composition(alloc, degree, number)?;
        sum = add(alloc, &sum, &next)?;
    }
    Ok(sum)
}

fn all_of(alloc: Global, degree: u32, many: u32) -> Result<Value, Refusal> {
    let first = composition(alloc, degree, 0)?;
    with_compositions(alloc, first, degree, many)
}

fn up_to_5(alloc: Global) -> Result<Value, Refusal> {
    let mut sum = composition(alloc, 0, 0)?;
    for (degree, many) in [(1, 1), (2, 2), (3, 4), (4, 8), (5, 16)] {
        let next = all_of(alloc, degree, many)?;
        sum = add(alloc, &sum, &next)?;
    }
    Ok(sum)
}

fn measure(alloc: Global) -> Result<(u128, u128), Refusal> {
    let unit = composition(alloc, 0, 0)?;
    let of_10 = all_of(alloc, 10, 512)?;
    let small = up_to_5(alloc)?;
    let of_5 = all_of(alloc, 5, 16)?;
    let mut norms = (0, 0);
    for _ in 0..ROUNDS {
        let wide = times(alloc, &of_10, &unit)?;
        let square = times(alloc, &small, &of_5)?;
        norms = (wide.combo().norm(), square.combo().norm());
    }
    Ok(norms)
}

fn main(rt: HostRuntime) -> ExitCode {
    match measure(rt.alloc()) {
        Ok((wide, square)) => {
            let _ = println!(rt; "norms {wide} and {square}");
            ExitCode::from(0)
        }
        Err(_) => ExitCode::from(1),
    }
}
