//! The forms of the language beside numbers, names, sums, tensor products, products and quotients, and
//! which of them are built.
ghost use Rattle.std.specs.Prelude.{◌≡◌};
ghost use Rattle.built_forms.specs.Forms.{is_built_map, is_built};

use basis_names::BasisId;
use built_bases::is_built_basis;
use session_tokens::Linear;

/// A form of the language that may come later than others.
#[derive(Clone, Copy, Debug, PartialEq, Eq)]
pub enum Form {
    /// The elements of a basis, and conversions to it.
    Basis(BasisId),
    /// A conversion to any basis.
    Conversion,
    /// A linear function.
    Linear(Linear),
    /// `pair`.
    Pairing,
    /// `along`.
    Along,
    /// `==`.
    Equality,
}

// Whether a linear function is built.
fn is_built_linear(map: Linear) -> bool
    ensures { result ≡ is_built_map map }
{
    match map {
        Linear::Coproduct => true,
        Linear::Antipode => true,
        Linear::Counit => true,
        Linear::Mult => true,
        Linear::Commute => true,
    }
}

/// Whether a form is built: a statement that has it can be evaluated.
pub fn is_built_form(form: Form) -> bool
    ensures { result ≡ is_built form }
{
    match form {
        Form::Basis(basis) => is_built_basis(basis),
        Form::Conversion => true,
        Form::Linear(map) => is_built_linear(map),
        Form::Pairing => false,
        Form::Along => false,
        Form::Equality => true,
    }
}
