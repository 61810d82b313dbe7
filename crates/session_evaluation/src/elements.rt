//! The value of a basis element.
ghost use Rattle.session_evaluation.specs.Elements.{IsSpelled};
ghost use Rattle.session_evaluation.specs.Evaluation.{OrMemory};
ghost use Rattle.session_evaluation.specs.EvaluationSteps.{IsElement};

use crate::EvaluationRefusal;
use basis_names::BasisId;
use basis_routes::{Refusal, Value};
use hopf_num::OutOfMemory;
use index_spellings::index_in;
use session_tokens::Lexeme;
use std::alloc::Global;

/// The basis element of a built basis and the index that the items of a list spell.
pub fn value_of_element(
    alloc: Global,
    basis: BasisId,
    items: &[Lexeme],
) -> Result<Value, EvaluationRefusal>
    requires { IsSpelled basis items.now }
    ensures { OrMemory (IsElement basis items.now) result }
{
    let Some(code) = index_in(basis, items) else {
        unreachable!()
    };
    match Value::element(alloc, basis, code) {
        Ok(value) => Ok(value),
        Err(OutOfMemory) => Err(EvaluationRefusal::Value(Refusal::Memory)),
    }
}
