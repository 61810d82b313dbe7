//! The bases, their algebras and their names.
ghost use Rattle.std.specs.Prelude.{◌≡◌};
ghost use Rattle.basis_names.specs.Bases.{algebra_of, limit_of, name_of, name_of_algebra, bases, named};

/// A combinatorial Hopf algebra.
#[derive(Clone, Copy, Debug, PartialEq, Eq)]
pub enum AlgebraId {
    /// Quasi-symmetric functions (Gessel 1984).
    Qsym,
    /// Noncommutative symmetric functions (Gelfand, Krob, Lascoux, Leclerc, Retakh and Thibon 1995).
    Ncsf,
    /// Free quasi-symmetric functions, over permutations (Malvenuto and Reutenauer 1995; Duchamp, Hivert
    /// and Thibon 2002).
    Fqsym,
    /// Word quasi-symmetric functions, over packed words (Hivert 1999).
    Wqsym,
    /// Free symmetric functions, over standard tableaux (Poirier and Reutenauer 1995).
    Fsym,
    /// The algebra of planar binary trees (Loday and Ronco 1998; Hivert, Novelli and Thibon 2005).
    Pbt,
}

/// A basis of an algebra.
#[derive(Clone, Copy, Debug, PartialEq, Eq)]
pub enum BasisId {
    /// The monomial quasi-symmetric functions.
    QsymM,
    /// The fundamental quasi-symmetric functions.
    QsymF,
    /// The complete noncommutative symmetric functions.
    NcsfS,
    /// The elementary noncommutative symmetric functions.
    NcsfL,
    /// The ribbons.
    NcsfR,
    /// The fundamental basis of the free quasi-symmetric functions.
    FqsymF,
    /// Its dual, by inverse permutations.
    FqsymG,
    /// The monomial basis over packed words.
    WqsymM,
    /// The tableau Schur functions.
    FsymS,
    /// The basis over planar binary trees, by their classes of permutations.
    PbtP,
}

/// All bases.
pub const BASES: [BasisId; 10] = [
    BasisId::QsymM,
    BasisId::QsymF,
    BasisId::NcsfS,
    BasisId::NcsfL,
    BasisId::NcsfR,
    BasisId::FqsymF,
    BasisId::FqsymG,
    BasisId::WqsymM,
    BasisId::FsymS,
    BasisId::PbtP,
];

/// The algebra of a basis.
pub fn algebra(basis: BasisId) -> AlgebraId
    ensures { result ≡ algebra_of basis }
{
    match basis {
        BasisId::QsymM | BasisId::QsymF => AlgebraId::Qsym,
        BasisId::NcsfS | BasisId::NcsfL | BasisId::NcsfR => AlgebraId::Ncsf,
        BasisId::FqsymF | BasisId::FqsymG => AlgebraId::Fqsym,
        BasisId::WqsymM => AlgebraId::Wqsym,
        BasisId::FsymS => AlgebraId::Fsym,
        BasisId::PbtP => AlgebraId::Pbt,
    }
}

/// The greatest degree of the values of an algebra.
pub fn limit(algebra: AlgebraId) -> u32
    ensures { result ≡ limit_of algebra }
{
    match algebra {
        AlgebraId::Qsym | AlgebraId::Ncsf => 10,
        AlgebraId::Fqsym | AlgebraId::Fsym | AlgebraId::Pbt => 7,
        AlgebraId::Wqsym => 6,
    }
}

/// The name of an algebra.
pub fn algebra_name(algebra: AlgebraId) -> &'static [u8]
    ensures { result.now ≡ name_of_algebra algebra }
{
    match algebra {
        AlgebraId::Qsym => b"QSym",
        AlgebraId::Ncsf => b"NCSF",
        AlgebraId::Fqsym => b"FQSym",
        AlgebraId::Wqsym => b"WQSym",
        AlgebraId::Fsym => b"FSym",
        AlgebraId::Pbt => b"PBT",
    }
}

/// The name of a basis: that of its algebra, a point and a letter.
pub fn basis_name(basis: BasisId) -> &'static [u8]
    ensures { result.now ≡ name_of basis }
{
    match basis {
        BasisId::QsymM => b"QSym.M",
        BasisId::QsymF => b"QSym.F",
        BasisId::NcsfS => b"NCSF.S",
        BasisId::NcsfL => b"NCSF.L",
        BasisId::NcsfR => b"NCSF.R",
        BasisId::FqsymF => b"FQSym.F",
        BasisId::FqsymG => b"FQSym.G",
        BasisId::WqsymM => b"WQSym.M",
        BasisId::FsymS => b"FSym.S",
        BasisId::PbtP => b"PBT.P",
    }
}

// The first of these bases that has the name.
fn named_among(bases: &[BasisId], name: &[u8]) -> Option<BasisId>
    ensures { result ≡ named bases.now name.now }
{
    for basis in bases {
        if name == basis_name(*basis) {
            return Some(*basis);
        }
    }
    None
}

/// The basis with this name, or `None` exactly where it is the name of none.
pub fn basis_named(name: &[u8]) -> Option<BasisId>
    ensures { result ≡ named bases name.now }
{
    named_among(&BASES, name)
}
