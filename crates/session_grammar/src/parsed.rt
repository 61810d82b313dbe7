//! The statement that lexemes are.
ghost use Rattle.std.specs.Prelude.{◌≡◌, IfOk};
ghost use Rattle.session_grammar.specs.ParserSteps.{empty_stack};
ghost use Rattle.session_grammar.specs.Parses.{IsParsed};

use crate::Statement;
use crate::state::{Base, Mode, Stack};
use hopf_num::OutOfMemory;
use session_tokens::Lexeme;
use std::alloc::Global;
use std::mem;

/// What lexemes are.
#[derive(Drop)]
pub enum Parsed {
    /// This statement and no other.
    Read(Statement),
    /// No statement. The lexeme at this place, counted from 0, is the first for which none begins with
    /// the lexemes up to and with it; at their number it is the end.
    Stops(usize),
}

// The same, over a stack in which nothing was read.
fn read(alloc: Global, stack: &mut Stack, mut lexemes: Vec<Lexeme>) -> Result<Parsed, OutOfMemory>
    requires { stack.old ≡ empty_stack Base.Plain }
    ensures { IfOk result (IsParsed lexemes.items) }
{
    let mut mode = Mode::First;
    let count = lexemes.len();
    for place in 0..count {
        let lexeme = mem::replace(&mut lexemes[place], Lexeme::Other);
        match stack.step(alloc, mode, lexeme)? {
            None => return Ok(Parsed::Stops(place)),
            Some(next) => mode = next,
        }
    }
    match stack.finish(alloc, mode)? {
        None => Ok(Parsed::Stops(count)),
        Some(statement) => Ok(Parsed::Read(statement)),
    }
}

/// The statement that the lexemes are, or the place of the first for which none begins with those up
/// to and with it. The time and the memory are linear in the number of lexemes and in the bytes of
/// their names. Brackets nest to any depth, and to drop a statement takes stack in proportion to it.
pub fn statement_of(alloc: Global, lexemes: Vec<Lexeme>) -> Result<Parsed, OutOfMemory>
    ensures { IfOk result (IsParsed lexemes.items) }
{
    let mut stack = Stack::new(alloc, Base::Plain);
    read(alloc, &mut stack, lexemes)
}
