//! Prints basis elements.
ghost use Rattle.std.specs.Prelude.{◌≡◌, ◌++◌, OnOk, OnErr};
ghost use Rattle.value_texts.specs.Text.{index_text};

use basis_names::basis_name;
use hopf_io::Bytes;
use hopf_laws::BasisId;
use hopf_num::OutOfMemory;
use index_spellings::append_index;
use linear_combos::Code;
use std::alloc::Global;

/// Appends a basis element: the name of the basis, and the spelling of the index with a code.
///
/// After an error nothing was appended.
pub fn print_index(
    alloc: Global,
    basis: BasisId,
    code: &Code,
    out: &mut Bytes,
) -> Result<(), OutOfMemory>
    ensures ok { OnOk result (out.new ≡ out.old ++ index_text basis code.now) }
    ensures err { OnErr result (out.new ≡ out.old) }
{
    let mut text = Bytes::new(alloc);
    append_element(basis, code, &mut text)?;
    out.push_all(text.as_slice())
}

// Appends a basis element. After an error some of it may have been appended.
pub(crate) fn append_element(
    basis: BasisId,
    code: &Code,
    out: &mut Bytes,
) -> Result<(), OutOfMemory>
    ensures { OnOk result (out.new ≡ out.old ++ index_text basis code.now) }
{
    out.push_all(basis_name(basis))?;
    append_index(basis, code, out)
}
