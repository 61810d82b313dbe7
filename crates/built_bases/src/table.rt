//! The table of the built bases.
ghost use Rattle.std.specs.Prelude.{◌≡◌};
ghost use Rattle.built_bases.specs.Table.{is_built};

use basis_names::BasisId;

/// Whether a basis is built: its elements are read, computed with and printed. A session that names
/// another one is told that it is not built yet.
pub fn is_built_basis(basis: BasisId) -> bool
    ensures { result ≡ is_built basis }
{
    match basis {
        BasisId::QsymM => true,
        BasisId::QsymF => true,
        BasisId::NcsfS => true,
        BasisId::NcsfL => true,
        BasisId::NcsfR => true,
        BasisId::FqsymF => true,
        BasisId::FqsymG => true,
        BasisId::WqsymM => true,
        BasisId::FsymS => true,
        BasisId::PbtP => true,
    }
}
