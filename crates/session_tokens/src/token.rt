//! Tokens, and lists of them.
ghost use Rattle.std.specs.Prelude.{◌≡◌, ◌<◌, length, slice_index_or};

use std::marker::Model;

/// What a token is.
#[derive(Clone, Copy, Debug, PartialEq, Eq)]
pub enum Kind {
    /// A longest run of digits.
    Number,
    /// A letter followed by a longest run of letters, digits, `_` and `.`.
    Word,
    /// One of `[`, `]`, `(`, `)`, `,`, `+`, `-`, `*`, `/`, `#`, `:=` and `==`.
    Sign,
    /// A byte that fits nowhere.
    Other,
    /// The end of the text.
    End,
}

/// A token of a text of at most 65,536 bytes.
#[derive(Clone, Copy, Debug, PartialEq, Eq)]
pub struct Token {
    /// What it is.
    pub kind: Kind,
    /// 1 plus the number of bytes before it, from 1 to 65,537.
    pub place: u32,
    /// How many bytes it has, up to 65,536: 0 at the end of the text, else at least 1.
    pub length: u32,
}

/// The tokens of a text, in order, and its end. A token owns no bytes: they are a slice of the text.
#[derive(Drop)]
pub struct Tokens {
    items: Vec<Token>,
}

impl Model for Tokens {
    ghost use Rattle.std.specs.Prelude.{List};
    ghost use Rattle.session_tokens.specs.declared.token.Token.{Token};

    ghost Value = { List Token };

    ghost view = { λ t. t.items.items };
}

impl Tokens {
    // The list of these tokens.
    pub(crate) fn from_vec(items: Vec<Token>) -> Tokens
        ensures { result ≡ items.items }
    {
        Tokens { items }
    }

    /// How many tokens there are, with the end.
    pub fn len(&self) -> usize
        ensures { result ≡ length self.now }
    {
        self.items.len()
    }

    /// The token at a place of the list, counted from 0.
    pub fn at(&self, index: usize) -> Token
        requires { index < length self.now }
        ensures { result ≡ slice_index_or self.now index result }
    {
        self.items[index]
    }

    /// The tokens as a slice, which takes no memory.
    pub fn as_slice(&self) -> &[Token]
        ensures { result.now ≡ self.now }
    {
        self.items.as_slice()
    }
}
