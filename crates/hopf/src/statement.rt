//! What a statement comes to, and its line.
ghost use Rattle.std.specs.Prelude.{◌≡◌, ◌++◌, [], ◌∷◌, OnErr, IfOk};
ghost use Rattle.session_evaluation.specs.Built.{IsBuilt, IsBuiltStatement};
ghost use Rattle.hopf_laws.specs.Values.{IsValue};
ghost use Rattle.session_evaluation.specs.Evaluation.{Evaluates, Compares};
ghost use Rattle.session_evaluation.specs.Names.{AreValues};
ghost use Rattle.hopf.specs.Outcomes.{refused_as, Keeps, IsOutcomeOf, IsOutcome, truth_text as text_of_truth, line_of as line_of_outcome};
ghost use Rattle.hopf.specs.Sessions.{IsTold};
ghost use Rattle.hopf.specs.Transcript.{unfinished_refusal};

use crate::refusal::{StatementRefusal, line_of_refusal};
use basis_routes::{Refusal, Value};
use hopf_io::Bytes;
use hopf_num::OutOfMemory;
use session_evaluation::{EvaluationRefusal, Names, are_equal, value_of};
use session_grammar::{Expr, Statement};
use session_reading::{GrammarFault, parse};
use session_tokens::Name;
use std::alloc::Global;
use value_texts::print_value;

/// The most bytes of the text of a statement.
pub const TEXT_LIMIT: usize = 65_536;

/// What a statement comes to.
#[derive(Drop)]
pub enum Outcome {
    /// The empty statement prints nothing.
    Empty,
    /// An assignment gave its name a value, and prints nothing.
    Kept,
    /// It prints this text.
    Printed(Bytes),
    /// It prints `true` where both sides of an equality mean the same, and else `false`.
    Compared(bool),
    /// It is refused, and changed nothing.
    Refused(StatementRefusal),
}

// The outcome of a fault of the grammar; want of memory is none.
fn outcome_of_fault(fault: GrammarFault) -> Result<Outcome, OutOfMemory>
    ensures fault { IfOk result (λ outcome. outcome ≡ Outcome.Refused (StatementRefusal.Grammar fault)) }
    ensures told { IfOk result IsTold }
{
    match fault {
        GrammarFault::Memory => Err(OutOfMemory),
        fault => Ok(Outcome::Refused(StatementRefusal::Grammar(fault))),
    }
}

// The value of an expression, or its refusal; want of memory is none.
fn evaluated(
    alloc: Global,
    names: &Names,
    x: &Expr,
) -> Result<Result<Value, EvaluationRefusal>, OutOfMemory>
    requires { IsBuilt x.now }
    ensures { IfOk result (Evaluates names.now x.now) }
{
    match value_of(alloc, names, x) {
        Err(EvaluationRefusal::Value(Refusal::Memory)) => Err(OutOfMemory),
        answer => Ok(answer),
    }
}

// The refusal of a statement whose expression has no value.
fn refusal_of(refusal: EvaluationRefusal) -> StatementRefusal
    ensures { result ≡ refused_as refusal }
{
    match refusal {
        EvaluationRefusal::UnknownName(name) => StatementRefusal::UnknownName(name),
        EvaluationRefusal::Value(refusal) => StatementRefusal::Value(refusal),
    }
}

// The outcome of a sum that is to be printed.
fn outcome_of_print(alloc: Global, names: &Names, x: &Expr) -> Result<Outcome, OutOfMemory>
    requires values { AreValues names.now }
    requires built { IsBuilt x.now }
    ensures outcome { IfOk result (λ outcome. IsOutcomeOf names.now (Statement.Print x.now) outcome names.now) }
    ensures told { IfOk result IsTold }
{
    match evaluated(alloc, names, x)? {
        Ok(value) => {
            let mut text = Bytes::new(alloc);
            print_value(alloc, &value, &mut text)?;
            Ok(Outcome::Printed(text))
        }
        Err(refusal) => Ok(Outcome::Refused(refusal_of(refusal))),
    }
}

// The name has the value, where there is room for it.
fn keep(names: &mut Names, name: Name, value: Value) -> Result<Outcome, OutOfMemory>
    requires { IsValue value }
    ensures ok { IfOk result (λ outcome. Keeps names.old name value outcome names.new) }
    ensures told { IfOk result IsTold }
    ensures err { OnErr result (names.new ≡ names.old) }
{
    if !names.has_room_for(name.as_slice()) {
        return Ok(Outcome::Refused(StatementRefusal::TooManyNames));
    }
    names.assign(name, value)?;
    Ok(Outcome::Kept)
}

// The outcome of an assignment.
fn outcome_of_assignment(
    alloc: Global,
    names: &mut Names,
    name: Name,
    x: &Expr,
) -> Result<Outcome, OutOfMemory>
    requires values { AreValues names.old }
    requires built { IsBuilt x.now }
    ensures outcome { IfOk result (λ outcome. IsOutcomeOf names.old (Statement.Assign name x.now) outcome names.new) }
    ensures told { IfOk result IsTold }
    ensures err { OnErr result (names.new ≡ names.old) }
{
    match evaluated(alloc, names, x)? {
        Ok(value) => keep(names, name, value),
        Err(refusal) => Ok(Outcome::Refused(refusal_of(refusal))),
    }
}

// Whether two expressions are equal, or the refusal; want of memory is none.
fn compared(
    alloc: Global,
    names: &Names,
    x: &Expr,
    y: &Expr,
) -> Result<Result<bool, EvaluationRefusal>, OutOfMemory>
    requires first { IsBuilt x.now }
    requires second { IsBuilt y.now }
    ensures { IfOk result (Compares names.now x.now y.now) }
{
    match are_equal(alloc, names, x, y) {
        Err(EvaluationRefusal::Value(Refusal::Memory)) => Err(OutOfMemory),
        answer => Ok(answer),
    }
}

// The outcome of an equality.
fn outcome_of_equality(
    alloc: Global,
    names: &Names,
    x: &Expr,
    y: &Expr,
) -> Result<Outcome, OutOfMemory>
    requires values { AreValues names.now }
    requires first { IsBuilt x.now }
    requires second { IsBuilt y.now }
    ensures outcome { IfOk result (λ outcome. IsOutcomeOf names.now (Statement.Equal x.now y.now) outcome names.now) }
    ensures told { IfOk result IsTold }
{
    match compared(alloc, names, x, y)? {
        Ok(same) => Ok(Outcome::Compared(same)),
        Err(refusal) => Ok(Outcome::Refused(refusal_of(refusal))),
    }
}

// The outcome of a statement.
fn outcome_of(
    alloc: Global,
    names: &mut Names,
    statement: Statement,
) -> Result<Outcome, OutOfMemory>
    requires values { AreValues names.old }
    requires built { IsBuiltStatement statement }
    ensures outcome { IfOk result (λ outcome. IsOutcomeOf names.old statement outcome names.new) }
    ensures told { IfOk result IsTold }
    ensures err { OnErr result (names.new ≡ names.old) }
{
    match statement {
        Statement::Empty => Ok(Outcome::Empty),
        Statement::Print(x) => outcome_of_print(alloc, names, &x),
        Statement::Assign { name, value } => outcome_of_assignment(alloc, names, name, &value),
        Statement::Equal(x, y) => outcome_of_equality(alloc, names, &x, &y),
    }
}

/// The outcome of the text of a statement, without leading blanks and without its `;`. An accepted
/// assignment gives its name the value; nothing else changes the names.
pub fn outcome_of_text(
    alloc: Global,
    names: &mut Names,
    text: &[u8],
) -> Result<Outcome, OutOfMemory>
    ensures values { AreValues names.old }
    ensures outcome { IfOk result (λ outcome. IsOutcome names.old text.now outcome names.new) }
    ensures told { IfOk result IsTold }
    ensures err { OnErr result (names.new ≡ names.old) }
{
    names.are_values();
    if text.len() > TEXT_LIMIT {
        return Ok(Outcome::Refused(StatementRefusal::TooLong));
    }
    match parse(alloc, text) {
        Ok(statement) => outcome_of(alloc, names, statement),
        Err(fault) => outcome_of_fault(fault),
    }
}

/// The refusal of a text whose `;` did not come.
pub fn refusal_of_unfinished(text: &[u8]) -> StatementRefusal
    ensures { result ≡ unfinished_refusal text.now }
{
    if text.len() > TEXT_LIMIT {
        StatementRefusal::TooLong
    } else {
        StatementRefusal::Unfinished
    }
}

// A text as a line.
fn line_with(alloc: Global, text: &[u8]) -> Result<Bytes, OutOfMemory>
    ensures { IfOk result (λ line. line ≡ text.now ++ 10 ∷ []) }
{
    let mut line = Bytes::new(alloc);
    line.push_all(text)?;
    line.push_all(b"\n")?;
    Ok(line)
}

// The text of what an equality tells.
fn truth_text(same: bool) -> &'static [u8]
    ensures { result.now ≡ text_of_truth same }
{
    if same { b"true" } else { b"false" }
}

/// The line of the outcome of the statement with this number, with its line feed, or nothing.
pub fn line_of(alloc: Global, number: u64, outcome: &Outcome) -> Result<Bytes, OutOfMemory>
    ensures { IfOk result (λ line. line ≡ line_of_outcome number outcome.now) }
{
    match outcome {
        Outcome::Empty | Outcome::Kept => Ok(Bytes::new(alloc)),
        Outcome::Printed(text) => line_with(alloc, text.as_slice()),
        Outcome::Compared(same) => line_with(alloc, truth_text(*same)),
        Outcome::Refused(refusal) => line_of_refusal(alloc, number, refusal),
    }
}
