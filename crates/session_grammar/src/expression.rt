//! Expressions and statements of the language.
ghost use Rattle.std.specs.Prelude.{◌≡◌, IfOk};

use basis_names::BasisId;
use hopf_num::OutOfMemory;
use session_tokens::{Lexeme, Linear, Name};
use sqlite_items::{Boxed, Items};
use std::alloc::Global;
use std::marker::Model;

/// The bases that a value is taken through, one or more, in their order.
#[derive(Drop)]
pub struct BasisList {
    bases: Vec<BasisId>,
}

impl Model for BasisList {
    ghost use Rattle.std.specs.Prelude.{List};
    ghost use Rattle.basis_names.specs.declared.bases.BasisId.{BasisId};

    ghost Value = { List BasisId };

    ghost view = { λ b. b.bases.items };
}

impl BasisList {
    // The list of these bases.
    pub(crate) fn from_slice(alloc: Global, bases: &[BasisId]) -> Result<BasisList, OutOfMemory>
        ensures { IfOk result (λ list. list ≡ bases.now) }
    {
        Ok(BasisList {
            bases: Vec::from_slice(alloc, bases)?,
        })
    }

    /// The bases as a slice, which takes no memory.
    pub fn as_slice(&self) -> &[BasisId]
        ensures { result.now ≡ self.now }
    {
        self.bases.as_slice()
    }
}

/// A component of a value.
#[derive(Clone, Copy, Debug, PartialEq, Eq)]
pub enum Place {
    /// The only one.
    Only,
    /// The one with this number, counted from 1. Numbers from 2^32 - 1 on are all `u32::MAX`; as 0, it
    /// is the number of none.
    At(u32),
}

/// An expression. Its parts are evaluated from left to right. It owns its memory: a part behind a box
/// or a list for each of its parts, so its size is linear in the number of lexemes that it was read
/// from.
#[cycle(expr)]
#[derive(Drop)]
pub enum Expr {
    /// A scalar, a whole number. Those of lexemes are at most 2^127, which stands for every greater one.
    Number(u128),
    /// A basis element, by its basis and the lexemes between the brackets of its index. They are a list
    /// by the grammar; which lists are indices, the grammar does not say.
    Element(BasisId, Items<Lexeme>),
    /// The value of a name.
    Named(Name),
    /// A conversion of a component to a basis.
    Convert {
        /// The basis that the component is taken to.
        to: BasisId,
        /// The value.
        value: Boxed<Expr>,
        /// The component.
        at: Place,
    },
    /// A linear function on a component.
    Apply {
        /// The function.
        map: Linear,
        /// The value.
        value: Boxed<Expr>,
        /// The component.
        at: Place,
    },
    /// The pairing of two values.
    Pair(Boxed<Expr>, Boxed<Expr>),
    /// Conversions of a component through a list of bases, one after the other.
    Along {
        /// The value.
        value: Boxed<Expr>,
        /// The number of the component, as in `Place::At`.
        component: u32,
        /// The bases.
        through: BasisList,
    },
    /// A sum of signed parts: two or more, or one that is subtracted.
    Sum(Items<Signed>),
    /// A tensor product of two or more factors.
    Tensor(Items<Expr>),
    /// A product of two or more factors and divisors, from left to right.
    Product(Items<Factor>),
}

/// A part of a sum.
#[cycle(expr)]
#[derive(Drop)]
pub struct Signed {
    /// Whether it is subtracted.
    pub minus: bool,
    /// Its value.
    pub value: Expr,
}

/// A part of a product.
#[cycle(expr)]
#[derive(Drop)]
pub struct Factor {
    /// Whether it is a divisor. The first part is none.
    pub divides: bool,
    /// Its value.
    pub value: Expr,
}

/// A statement.
#[derive(Drop)]
pub enum Statement {
    /// Nothing is done.
    Empty,
    /// A word is given a value.
    Assign {
        /// The word; the grammar allows reserved ones.
        name: Name,
        /// The value.
        value: Expr,
    },
    /// A value is printed.
    Print(Expr),
    /// Whether two values are equal is printed.
    Equal(Expr, Expr),
}
