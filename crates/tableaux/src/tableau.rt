//! Tableaux, and row insertion.
ghost use Rattle.std.specs.Prelude.{◌≡◌, ◌+◌, ◌≤◌, [], IsTrue, length, MatchOption, Some};
ghost use Rattle.std.specs.List.{concat};
ghost use Rattle.realisations.specs.IndexKinds.{is_permutation, is_standard_tableau};
ghost use Rattle.realisations.specs.Standardisation.{count_same};
ghost use Rattle.realisations.specs.Tableaux.{enter, reading_word as reading_word_of, rows_of, tableau_code};
ghost use Rattle.tableau_laws.specs.LatticeWords.{IsLatticeWord};
ghost use Rattle.tableaux.specs.Sizes.{IsSmallTableauCode};

use crate::lattice::is_lattice_word;
use crate::rows::{bump, smaller, with_row};
use arrayvec::ArrayVec;
use linear_combos::Code;
use std::marker::Model;

// The most letters.
const MOST: usize = 12;

/// A tableau of at most 12 distinct letters: rows that rise to the right, in columns that rise downwards.
///
/// It is seen as the list of its rows, the first row first, and kept by its letters in rising order and the
/// number of the row of each. No call of a tableau takes memory.
#[derive(Drop)]
pub struct Tableau {
    letters: ArrayVec<u8, 12>,
    rows: Code,
}

impl Model for Tableau {
    ghost use Rattle.std.specs.Prelude.{List, ℕ};
    ghost use Rattle.tableau_laws.specs.NumberedRows.{rows_by};
    ghost use Rattle.tableaux.specs.NumberedTableaux.{IsKept};

    ghost Value = { List (List ℕ) };

    ghost view = { λ t. rows_by t.letters.items t.rows };

    ghost invariant = { λ t. IsKept t.letters.items t.rows };
}

impl Tableau {
    /// The tableau with no letter.
    pub fn empty() -> Tableau
        ensures { result ≡ [] }
    {
        Tableau {
            letters: ArrayVec::new(),
            rows: Code::empty(),
        }
    }

    // The standard tableau of a lattice word.
    fn numbered(code: &Code) -> Tableau
        requires lattice { IsLatticeWord code.now }
        requires small { length code.now ≤ 12 }
        ensures { result ≡ rows_of code.now }
    {
        let mut letters = ArrayVec::new();
        for at in 0..code.len() {
            letters.push(at as u8 + 1);
        }
        Tableau {
            letters,
            rows: *code,
        }
    }

    /// The standard tableau with a code, or `None` exactly where the code is that of no standard tableau of
    /// at most 12 letters.
    ///
    /// The code of a standard tableau has, for each number from 1 to its size, the row in which it stands,
    /// counted from 1. The cost grows with the square of the size.
    pub fn from_code(code: &Code) -> Option<Tableau>
        ensures { MatchOption result (IsSmallTableauCode code.now → ⊥) (λ t. (t ≡ rows_of code.now) × (IsTrue (is_standard_tableau t)) × (tableau_code t ≡ code.now) × (length code.now ≤ 12)) }
    {
        if code.len() > MOST || !is_lattice_word(code) {
            return None;
        }
        Some(Tableau::numbered(code))
    }

    /// The code of a standard tableau: for each number from 1 to its size, the row in which it stands,
    /// counted from 1.
    pub fn code(&self) -> Code
        requires { IsTrue (is_standard_tableau self.now) }
        ensures { result ≡ tableau_code self.now }
    {
        self.rows
    }

    /// Row insertion (Schensted 1961) of a letter that is none of at most 11 letters: it takes the place of
    /// the first greater letter of the first row, which enters the next row, and so forth; where there is
    /// none it is appended. The cost grows with the number of letters: they are passed once.
    pub fn insert(&mut self, letter: u8)
        requires room { length (concat self.old) ≤ 11 }
        requires new { count_same letter (concat self.old) ≡ 0 }
        ensures { self.new ≡ enter (Some letter) self.old }
    {
        let at = smaller(letter, self.letters.as_slice());
        let front = self.rows.prefix(at).with(1);
        let behind = self.rows.suffix(at);
        self.rows = bump(&front, &behind);
        self.letters.insert(at, letter);
    }

    /// The reading word of a standard tableau: its rows from left to right, the last row first. It is a
    /// permutation of its size; the cost grows with the square of the size.
    pub fn reading_word(&self) -> Code
        requires { IsTrue (is_standard_tableau self.now) }
        ensures value { result ≡ reading_word_of self.now }
        ensures permutes { IsTrue (is_permutation result) }
        ensures small { length result ≤ 12 }
    {
        let mut word = Code::empty();
        let size = self.rows.len();
        for later in 0..size {
            let row = (size - later) as u8;
            word = with_row(&word, self.letters.as_slice(), &self.rows, row);
        }
        word
    }
}
