//! The look for a form that is not built.
ghost use Rattle.std.specs.Prelude.{◌≡◌};
ghost use Rattle.built_forms.specs.Forms.{begins_unbuilt as begins_with_unbuilt};

use crate::{Form, is_built_form};
use session_tokens::Lexeme;

/// Whether lexemes begin with a form that is not built. It takes no memory, and looks at the first two
/// lexemes.
pub fn begins_unbuilt(lexemes: &[Lexeme]) -> bool
    ensures { result ≡ begins_with_unbuilt lexemes.now }
{
    match lexemes {
        [Lexeme::Basis(basis), Lexeme::Open, ..] => {
            !is_built_form(Form::Basis(*basis)) || !is_built_form(Form::Conversion)
        }
        [Lexeme::Basis(basis), ..] => !is_built_form(Form::Basis(*basis)),
        [Lexeme::Linear(map), ..] => !is_built_form(Form::Linear(*map)),
        [Lexeme::Pair, ..] => !is_built_form(Form::Pairing),
        [Lexeme::Along, ..] => !is_built_form(Form::Along),
        [Lexeme::Equals, ..] => !is_built_form(Form::Equality),
        _ => false,
    }
}
