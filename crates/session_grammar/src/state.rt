//! The state of the parser: the expressions that are open, and what is awaited.
ghost use Rattle.std.specs.Prelude.{◌≡◌, ◌<◌, ◌+◌, ◌-◌, ◌++◌, ◌∷◌, [], nat_eq, IfOk};
ghost use Rattle.session_grammar.specs.ListStates.{listing, element_at};
ghost use Rattle.session_grammar.specs.ParserSteps.{is_after};

use crate::{Expr, Factor, Signed};
use basis_names::BasisId;
use hopf_num::OutOfMemory;
use session_tokens::{Lexeme, Linear, Name};
use sqlite_items::{Boxed, Items};
use std::alloc::Global;
use std::marker::Model;

/// What is applied to the value in brackets, and to a component where one is named: a conversion or
/// a linear function.
#[derive(Clone, Copy)]
pub enum Map {
    /// The conversion to this basis.
    Convert(BasisId),
    /// This linear function.
    Linear(Linear),
}

/// What an open bracket was opened for.
#[derive(Drop)]
pub enum Call {
    /// A sum in brackets.
    Group,
    /// The operand of a map.
    Mapped(Map),
    /// The first operand of `pair`.
    First,
    /// The second operand of `pair`, behind the first.
    Second(Boxed<Expr>),
    /// The operand of `along`.
    Along,
}

/// An open sum.
#[derive(Drop)]
pub struct Level {
    /// Its parts so far.
    pub parts: Items<Signed>,
    /// Whether the next part is subtracted.
    pub minus: bool,
    /// The tensor factors of that part so far.
    pub tensor: Items<Expr>,
    /// The factors of its next tensor factor so far.
    pub factors: Items<Factor>,
    /// Whether the next factor divides.
    pub divides: bool,
    /// What the bracket inside was opened for, where one is open.
    pub call: Call,
}

/// A list behind the name of a basis: the basis, how many lists are open inside the list, and its
/// lexemes so far, without its own brackets.
#[derive(Drop)]
pub struct Listing {
    basis: BasisId,
    depth: usize,
    items: Items<Lexeme>,
}

impl Model for Listing {
    ghost use Rattle.std.specs.Prelude.{◌≤◌, length};
    ghost use Rattle.session_grammar.specs.ListStates.{ListState};

    ghost Value = { ListState };

    ghost view = { λ l. record { basis = l.basis; depth = l.depth; items = l.items } };

    // each list that is open was opened by a lexeme
    ghost invariant = { λ l. l.depth ≤ length l.items };
}

impl Listing {
    /// A list in which nothing was read.
    pub fn new(alloc: Global, basis: BasisId) -> Listing
        ensures { result ≡ listing basis 0 [] }
    {
        Listing {
            basis,
            depth: 0,
            items: Items::new(alloc),
        }
    }

    /// Whether no list is open inside.
    pub fn is_flat(&self) -> bool
        ensures { result ≡ nat_eq self.now.depth 0 }
    {
        self.depth == 0
    }

    /// The list with one more lexeme.
    pub fn followed_by(self, lexeme: Lexeme) -> Result<Listing, OutOfMemory>
        ensures { IfOk result (λ l. l ≡ listing self.basis self.depth (self.items ++ lexeme ∷ [])) }
    {
        let Listing {
            basis,
            depth,
            mut items,
        } = self;
        items.push(lexeme)?;
        Ok(Listing {
            basis,
            depth,
            items,
        })
    }

    /// The list with a list opened in it.
    pub fn opened(self) -> Result<Listing, OutOfMemory>
        ensures { IfOk result (λ l. l ≡ listing self.basis (self.depth + 1) (self.items ++ Lexeme.LeftBracket ∷ [])) }
    {
        let Listing {
            basis,
            depth,
            mut items,
        } = self;
        items.push(Lexeme::LeftBracket)?;
        let _count = items.len();
        Ok(Listing {
            basis,
            depth: depth + 1,
            items,
        })
    }

    /// The list with the innermost list in it closed.
    pub fn closed(self) -> Result<Listing, OutOfMemory>
        requires { 0 < self.depth }
        ensures { IfOk result (λ l. l ≡ listing self.basis (self.depth - 1) (self.items ++ Lexeme.RightBracket ∷ [])) }
    {
        let Listing {
            basis,
            depth,
            mut items,
        } = self;
        items.push(Lexeme::RightBracket)?;
        Ok(Listing {
            basis,
            depth: depth - 1,
            items,
        })
    }

    /// The element that the list spells.
    pub fn element(self) -> Expr
        ensures { result ≡ element_at self.basis self.items }
    {
        let Listing {
            basis,
            depth: _,
            items,
        } = self;
        Expr::Element(basis, items)
    }
}

/// What is awaited. It is moved at each lexeme, so its expressions stand in boxes.
#[derive(Drop)]
pub enum Mode {
    /// A statement.
    First,
    /// What follows the first lexeme, a word.
    Word(Lexeme),
    /// A sum.
    Start,
    /// An operand.
    Operand,
    /// What follows an operand.
    After,
    /// The bracket of a call.
    Opens(Call),
    /// A list or a bracket, behind the name of a basis.
    Basis(BasisId),
    /// An item, or the end of a list.
    List(Listing),
    /// An item.
    Item(Listing),
    /// A comma or the end of a list, behind an item.
    Behind(Listing),
    /// The number of a component, for a map.
    Count(Map, Boxed<Expr>),
    /// The end of the call of a map.
    Counted(Map, Boxed<Expr>, u128),
    /// The number of a component, for `along`.
    Component(Boxed<Expr>),
    /// The comma behind it.
    Components(Boxed<Expr>, u128),
    /// The name of a basis, for `along`.
    Through(Boxed<Expr>, u128, Items<BasisId>),
    /// A comma, or the end of `along`.
    Passed(Boxed<Expr>, u128, Items<BasisId>),
}

impl Mode {
    /// Whether what follows an operand is awaited.
    pub fn is_after(&self) -> bool
        ensures { result ≡ is_after self.now }
    {
        matches!(self, Mode::After)
    }
}

/// What the sum outside all brackets is for.
#[derive(Drop)]
pub enum Base {
    /// To be printed, or the left side of an equation.
    Plain,
    /// To be given to a name.
    Assigned(Name),
    /// The right side of an equation with this left side.
    Right(Expr),
}

/// The open expressions.
#[derive(Drop)]
pub struct Stack {
    /// What the statement is.
    pub base: Base,
    /// The levels outside the innermost one, the outermost first.
    pub below: Items<Level>,
    /// The innermost level.
    pub level: Level,
}

/// Drops what is awaited. A call of its own, since what is awaited has many forms.
pub fn discard(_mode: Mode) {}
