//! Faults that are seen in the lexemes one by one.
ghost use Rattle.std.specs.Prelude.{◌≡◌, length};
ghost use Rattle.session_reading.specs.Faults.{begins_large};
ghost use Rattle.session_reading.specs.Sights.{found_or as first_found};

use built_forms::begins_unbuilt;
use index_spellings::begins_bad_list;
use session_tokens::{Lexeme, NUMBER_LIMIT};

/// The first places, counted from 0, at which something is seen that is refused.
#[derive(Clone, Copy, Debug, PartialEq, Eq)]
pub struct Sights {
    /// A number of 2^127 or more.
    pub large_number: Option<usize>,
    /// A form that is not built.
    pub unbuilt: Option<usize>,
    /// The name of a basis before a list that spells no index of it.
    pub bad_list: Option<usize>,
}

// Whether a number that is too large stands in front.
fn is_large(lexemes: &[Lexeme]) -> bool
    ensures { result ≡ begins_large lexemes.now }
{
    match lexemes {
        [Lexeme::Number(number), ..] => *number >= NUMBER_LIMIT,
        _ => false,
    }
}

// The place that was found, or else this one where it is seen here.
fn found_or(found: Option<usize>, is_here: bool, place: usize) -> Option<usize>
    ensures { result ≡ first_found found is_here place }
{
    match found {
        Some(earlier) => Some(earlier),
        None => if is_here { Some(place) } else { None },
    }
}

impl Sights {
    ghost use Rattle.built_forms.specs.Forms.{begins_unbuilt as begins_with_unbuilt};
    ghost use Rattle.index_spellings.specs.Indices.{begins_bad_list as begins_with_bad_list};
    ghost use Rattle.session_reading.specs.Sights.{AreFound};

    /// What is seen in lexemes. It takes no memory, and one pass.
    pub fn of(lexemes: &[Lexeme]) -> Sights
        ensures { AreFound lexemes.now (length lexemes.now) result }
    {
        let mut sights = Sights {
            large_number: None,
            unbuilt: None,
            bad_list: None,
        };
        for place in 0..lexemes.len() {
            sights.look(&lexemes[place..], place);
        }
        sights
    }

    // Looks at what begins at a place.
    fn look(&mut self, rest: &[Lexeme], place: usize)
        ensures large_number { self.new.large_number ≡ first_found self.old.large_number (begins_large rest.now) place }
        ensures unbuilt { self.new.unbuilt ≡ first_found self.old.unbuilt (begins_with_unbuilt rest.now) place }
        ensures bad_list { self.new.bad_list ≡ first_found self.old.bad_list (begins_with_bad_list rest.now) place }
    {
        if let [Lexeme::Number(_), ..] = rest {
            self.large_number = found_or(self.large_number, is_large(rest), place);
            return;
        }
        self.unbuilt = found_or(self.unbuilt, begins_unbuilt(rest), place);
        if let [Lexeme::Basis(_), ..] = rest {
            self.bad_list = found_or(self.bad_list, begins_bad_list(rest), place);
        }
    }
}
