//! Builds combinations of 512 terms, term by term, so that the cost of adding a term can be measured.
//!
//! Each round adds the 512 compositions of 10 in a scattered order, and then all of them once more.
#![tactic(auto)]

use hopf_num::OutOfMemory;
use linear_combos::{Code, Combo, Key};
use std::alloc::Global;
use std::process::ExitCode;

const ROUNDS: u32 = 200;

// The composition of 10 whose parts end at the bits of the number.
fn composition_of_10(alloc: Global, number: u32) -> Result<Code, OutOfMemory> {
    let mut parts = Vec::new(alloc);
    let mut part: u8 = 1;
    for bit in 0..9u32 {
        if number >> bit & 1 == 1 {
            parts.push(part)?;
            part = 1;
        } else {
            part = part.saturating_add(1);
        }
    }
    parts.push(part)?;
    Code::new(parts.as_slice()).ok_or(OutOfMemory)
}

fn scattered_terms(alloc: Global, times: u32) -> Result<Combo, OutOfMemory> {
    let mut combo = Combo::zero(alloc, 1);
    for step in 0..times {
        let code = composition_of_10(alloc, step.wrapping_mul(341) % 512)?;
        if combo.add_term(1, Key::one(code)).is_err() {
            return Err(OutOfMemory);
        }
    }
    Ok(combo)
}

fn measure(alloc: Global) -> Result<u128, OutOfMemory> {
    let mut norm = 0;
    for _ in 0..ROUNDS {
        norm = scattered_terms(alloc, 1024)?.norm();
    }
    Ok(norm)
}

fn main(rt: HostRuntime) -> ExitCode {
    match measure(rt.alloc()) {
        Ok(norm) => {
            let _ = println!(rt; "norm {norm}");
            ExitCode::from(0)
        }
        Err(_) => ExitCode::from(1),
    }
}
