//! The bases whose antipodes the recursion finds.
ghost use Rattle.std.proofs.Common.{arith};
ghost use Rattle.std.specs.Prelude.{◌+◌, ◌*◌, ◌≤◌};
ghost use Rattle.index_rules.specs.Spaces.{limit_for};

use fqsym::{FqsymF, FqsymG};
use fsym::FsymS;
use index_rules::{Algebra, Coalgebra};
use ncsf::{NcsfL, NcsfR, NcsfS};
use pbt::PbtP;
use qsym::{QsymF, QsymM};
use wqsym::WqsymM;

/// A basis of a Hopf algebra whose antipodes, and the sums that they are found by, have room within the degree
/// limit.
pub trait Antipode: Algebra + Coalgebra {
    // a coproduct with the antipodes of its first codes, of norm at most 2^(5n), has products of norm at most 2^(5n)
    ghost room: { (Self.coproduct_growth + 10) * limit_for Self.basis ≤ 126 };
}

impl Antipode for QsymM {
    ghost room = { omega arith };
}

impl Antipode for QsymF {
    ghost room = { omega arith };
}

impl Antipode for NcsfS {
    ghost room = { omega arith };
}

impl Antipode for NcsfL {
    ghost room = { omega arith };
}

impl Antipode for NcsfR {
    ghost room = { omega arith };
}

impl Antipode for FqsymF {
    ghost room = { omega arith };
}

impl Antipode for FqsymG {
    ghost room = { omega arith };
}

impl Antipode for WqsymM {
    ghost room = { omega arith };
}

impl Antipode for PbtP {
    ghost room = { omega arith };
}

impl Antipode for FsymS {
    ghost room = { omega arith };
}
