//! The codes of the standard tableaux of a size.
ghost use Rattle.std.specs.Prelude.{◌≡◌, ◌+◌, ◌≤◌, ◌++◌, length, OnOk, IfOk};
ghost use Rattle.std.specs.List.{All, flat_map};
ghost use Rattle.realisations.specs.IndexKinds.{by_tableau};
ghost use Rattle.linear_combos.specs.CodeLists.{ListsIndices};
ghost use Rattle.tableaux.specs.NumberedTableaux.{IsShorter, longer_codes};

use crate::lattice::follows;
use hopf_num::OutOfMemory;
use linear_combos::{Code, Codes};
use std::alloc::Global;

// Adds the code with each letter that may come behind it.
fn push_longer(out: &mut Codes, code: &Code) -> Result<(), OutOfMemory>
    requires { IsShorter code.now }
    ensures { OnOk result (out.new ≡ out.old ++ longer_codes code.now) }
{
    for at in 0..code.len() + 1 {
        let letter = at as u8 + 1;
        if follows(code, letter) {
            out.push(code.with(letter))?;
        }
    }
    Ok(())
}

// The codes with a letter more.
fn longer(alloc: Global, codes: &Codes) -> Result<Codes, OutOfMemory>
    requires { All IsShorter codes.now }
    ensures { IfOk result (λ more. more ≡ flat_map longer_codes codes.now) }
{
    let mut more = Codes::new(alloc);
    for at in 0..codes.len() {
        push_longer(&mut more, codes.at(at))?;
    }
    Ok(more)
}

/// The codes of the standard tableaux of size n, each once, in canonical order.
///
/// Those of size n + 1 are those of size n with each letter behind them that is 1 or less frequent than the
/// letter before it. There are as many as permutations that are their own inverses, 140,152 for n = 12.
pub fn list(alloc: Global, n: u32) -> Result<Codes, OutOfMemory>
    requires { n ≤ 12 }
    ensures { IfOk result (ListsIndices by_tableau n) }
{
    let mut codes = Codes::new(alloc);
    codes.push(Code::empty())?;
    for _ in 0..n {
        codes = longer(alloc, &codes)?;
    }
    Ok(codes)
}
