//! Why a statement is refused, and the line that says so.
ghost use Rattle.std.specs.Prelude.{◌≡◌, ◌++◌, OnOk, IfOk};
ghost use Rattle.basis_names.specs.Bases.{name_of_algebra};
ghost use Rattle.hopf.specs.Refusals.{number_of_fault, number_of_value, number_of, text_of_fault, text_of_value, text_not_in, text_of, refusal_line};

use basis_names::{AlgebraId, algebra_name};
use basis_routes::Refusal;
use hopf_io::Bytes;
use hopf_num::OutOfMemory;
use index_spellings::append_list;
use linear_combos::Code;
use session_reading::GrammarFault;
use session_tokens::Name;
use std::alloc::Global;

/// Why a statement is refused.
#[derive(Drop)]
pub enum StatementRefusal {
    /// Its text has more than 65,536 bytes.
    TooLong,
    /// The input ended before its `;`.
    Unfinished,
    /// It is no statement that can be evaluated.
    Grammar(GrammarFault),
    /// A name has no value: no assignment to it was accepted before.
    UnknownName(Name),
    /// An operation has no value.
    Value(Refusal),
    /// An assignment would give a 257th name.
    TooManyNames,
}

// The number of a fault of the grammar.
fn fault_number(fault: &GrammarFault) -> u32
    ensures { result ≡ number_of_fault fault.now }
{
    match fault {
        GrammarFault::TooDeep => 3,
        GrammarFault::Syntax(_) => 4,
        GrammarFault::Number(_) => 5,
        GrammarFault::ReservedName(_) => 6,
        GrammarFault::BadIndex(_) => 7,
        GrammarFault::NotBuilt => 20,
        GrammarFault::Memory => 0,
    }
}

// The number of the refusal of an operation.
fn value_number(refusal: Refusal) -> u32
    ensures { result ≡ number_of_value refusal }
{
    match refusal {
        Refusal::Rank => 9,
        Refusal::Component => 10,
        Refusal::NotScalar => 11,
        Refusal::ZeroDivisor => 12,
        Refusal::Mixed(_, _) => 13,
        Refusal::NoRoute(_, _) => 14,
        Refusal::NoPairing(_, _) => 15,
        Refusal::Degree { .. } => 16,
        Refusal::TooLarge(_) => 17,
        Refusal::NotInSub { .. } => 18,
        Refusal::NotBuilt => 20,
        Refusal::Memory => 0,
    }
}

// The number of a refusal.
fn number(refusal: &StatementRefusal) -> u32
    ensures { result ≡ number_of refusal.now }
{
    match refusal {
        StatementRefusal::TooLong => 1,
        StatementRefusal::Unfinished => 2,
        StatementRefusal::Grammar(fault) => fault_number(fault),
        StatementRefusal::UnknownName(_) => 8,
        StatementRefusal::Value(refusal) => value_number(*refusal),
        StatementRefusal::TooManyNames => 19,
    }
}

// Appends two texts.
fn push_both(first: &[u8], second: &[u8], out: &mut Bytes) -> Result<(), OutOfMemory>
    ensures { OnOk result (out.new ≡ out.old ++ (first.now ++ second.now)) }
{
    out.push_all(first)?;
    out.push_all(second)
}

// Appends the names of two algebras, each with a text before it.
fn push_algebras(
    before: &[u8],
    a: AlgebraId,
    between: &[u8],
    b: AlgebraId,
    out: &mut Bytes,
) -> Result<(), OutOfMemory>
    ensures { OnOk result (out.new ≡ out.old ++ (before.now ++ name_of_algebra a ++ between.now ++ name_of_algebra b)) }
{
    push_both(before, algebra_name(a), out)?;
    push_both(between, algebra_name(b), out)
}

// Appends that an element is not in an algebra, since it reads differently at two words.
fn push_not_in(algebra: AlgebraId, u: Code, v: Code, out: &mut Bytes) -> Result<(), OutOfMemory>
    ensures { OnOk result (out.new ≡ out.old ++ text_not_in algebra u v) }
{
    push_both(b"not in ", algebra_name(algebra), out)?;
    out.push_all(b": ")?;
    append_list(&u, out)?;
    out.push_all(b" and ")?;
    append_list(&v, out)?;
    out.push_all(b" read differently")
}

// Appends the text of a fault of the grammar.
fn push_fault(alloc: Global, fault: &GrammarFault, out: &mut Bytes) -> Result<(), OutOfMemory>
    ensures { OnOk result (out.new ≡ out.old ++ text_of_fault fault.now) }
{
    match fault {
        GrammarFault::TooDeep => out.push_all(b"brackets are nested deeper than 64"),
        GrammarFault::Syntax(place) => {
            out.push_all(format!(in alloc; "syntax error at byte {place}")?.as_bytes())
        }
        GrammarFault::Number(place) => {
            out.push_all(format!(in alloc; "number at byte {place} is too large")?.as_bytes())
        }
        GrammarFault::ReservedName(word) => push_both(b"reserved name ", word.as_slice(), out),
        GrammarFault::BadIndex(place) => {
            out.push_all(format!(in alloc; "bad index at byte {place}")?.as_bytes())
        }
        GrammarFault::NotBuilt => out.push_all(b"not built yet"),
        GrammarFault::Memory => out.push_all(b"out of memory"),
    }
}

// Appends the text of the refusal of an operation.
fn push_value(alloc: Global, refusal: Refusal, out: &mut Bytes) -> Result<(), OutOfMemory>
    ensures { OnOk result (out.new ≡ out.old ++ text_of_value refusal) }
{
    match refusal {
        Refusal::Rank => out.push_all(b"wrong rank"),
        Refusal::Component => out.push_all(b"no such component"),
        Refusal::NotScalar => out.push_all(b"divisor is not a scalar"),
        Refusal::ZeroDivisor => out.push_all(b"division by zero"),
        Refusal::Mixed(a, b) => push_algebras(b"no common algebra for ", a, b" and ", b, out),
        Refusal::NoRoute(a, b) => push_algebras(b"no conversion from ", a, b" to ", b, out),
        Refusal::NoPairing(a, b) => push_algebras(b"no pairing of ", a, b" and ", b, out),
        Refusal::Degree { degree, limit } => {
            out.push_all(format!(in alloc; "degree {degree} is past {limit}")?.as_bytes())
        }
        Refusal::TooLarge(_) => out.push_all(b"coefficient room passed"),
        Refusal::NotInSub { algebra, u, v } => push_not_in(algebra, u, v, out),
        Refusal::NotBuilt => out.push_all(b"not built yet"),
        Refusal::Memory => out.push_all(b"out of memory"),
    }
}

// Appends the text of a refusal.
fn push_text(alloc: Global, refusal: &StatementRefusal, out: &mut Bytes) -> Result<(), OutOfMemory>
    ensures { OnOk result (out.new ≡ out.old ++ text_of refusal.now) }
{
    match refusal {
        StatementRefusal::TooLong => out.push_all(b"statement is longer than 65536 bytes"),
        StatementRefusal::Unfinished => out.push_all(b"statement has no semicolon"),
        StatementRefusal::Grammar(fault) => push_fault(alloc, fault, out),
        StatementRefusal::UnknownName(name) => push_both(b"unknown name ", name.as_slice(), out),
        StatementRefusal::Value(refusal) => push_value(alloc, *refusal, out),
        StatementRefusal::TooManyNames => out.push_all(b"more than 256 names"),
    }
}

/// The line of a refusal in the statement with this number, with its line feed.
pub fn line_of_refusal(
    alloc: Global,
    statement: u64,
    refusal: &StatementRefusal,
) -> Result<Bytes, OutOfMemory>
    ensures { IfOk result (λ line. line ≡ refusal_line statement refusal.now) }
{
    let number = number(refusal);
    let mut line = Bytes::new(alloc);
    line.push_all(format!(in alloc; "error {number} in statement {statement}: ")?.as_bytes())?;
    push_text(alloc, refusal, &mut line)?;
    line.push_all(b"\n")?;
    Ok(line)
}
