//! The basis S of the free Schensted algebra.
ghost use Rattle.std.specs.Prelude.{ℕ};
ghost use Rattle.basis_names.specs.declared.bases.BasisId.TheVariants.{FsymS as id_s};

use crate::classes::class_words;
use crate::codes::{insertion_code, inverse, is_small_tableau, tableau};
use crate::cutting::cuts_of_class;
use crate::factors::products;
use basis_names::BasisId;
use hopf_num::OutOfMemory;
use index_rules::{Algebra, ClassSpace, Coalgebra, Signs, Space, signed_sum};
use linear_combos::{Code, Codes, Combo};
use permutation_words::standardise;
use std::alloc::Global;
use tableaux::list;

/// The basis of standard tableaux: S of t is the sum of the words whose recording tableau is t, that is,
/// whose standardisation has an inverse with the insertion tableau t (Poirier, Reutenauer 1995).
///
/// A product is the sum over the tableaux whose first numbers form the first factor, and whose others,
/// restricted to them, the second: all tableaux of the degree are looked at, of which there are as many as
/// permutations that are their own inverses. A coproduct is the sum over the permutations with the insertion
/// tableau t, and over their cuts into two words whose standardisations are reading words of tableaux: the
/// permutations grow letter by letter, so the cost grows with their number, which is that of the standard
/// tableaux of the shape of t, and the cube of the degree.
#[derive(Drop)]
pub struct FsymS;

impl Space for FsymS {
    ghost basis = { id_s };

    fn basis() -> BasisId {
        BasisId::FsymS
    }

    fn degree(code: &Code) -> u32 {
        code.len() as u32
    }

    fn is_index(code: &Code) -> bool {
        is_small_tableau(code)
    }

    fn list(alloc: Global, degree: u32) -> Result<Codes, OutOfMemory> {
        list(alloc, degree)
    }

    fn word_of(_alloc: Global, code: &Code) -> Result<Code, OutOfMemory> {
        let rows = tableau(code);
        let word = rows.reading_word();
        Ok(inverse(&word))
    }
}

impl ClassSpace for FsymS {
    fn class_of(_alloc: Global, point: &Code) -> Result<Code, OutOfMemory> {
        let standard = standardise(point);
        let places = inverse(&standard);
        Ok(insertion_code(&places))
    }
}

impl Algebra for FsymS {
    ghost product_growth = { 3 };

    fn product(alloc: Global, left: &Code, right: &Code) -> Result<Combo, OutOfMemory> {
        let codes = products(alloc, left, right)?;
        signed_sum(alloc, &codes, Signs::Plus)
    }
}

impl Coalgebra for FsymS {
    ghost coproduct_growth = { 4 };

    fn coproduct(alloc: Global, code: &Code) -> Result<Combo, OutOfMemory> {
        let words = class_words(alloc, code)?;
        cuts_of_class(alloc, &words)
    }
}
