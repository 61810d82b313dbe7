//! The brackets of lists.
ghost use Rattle.std.specs.Prelude.{◌≡◌, ◌≤◌, length, take, drop, suc};
ghost use Rattle.session_grammar.specs.Grammar.{inside};
ghost use Rattle.index_spellings.specs.Items.{after_list};

use session_tokens::Lexeme;

// How many lexemes stand before the bracket that closes the list, behind its first one.
fn inside_length(lexemes: &[Lexeme]) -> usize
    ensures within { result ≤ length lexemes.now }
    ensures value { take result lexemes.now ≡ inside 0 lexemes.now }
    ensures after { drop (suc result) lexemes.now ≡ after_list 0 lexemes.now }
{
    let mut depth: usize = 0;
    for place in 0..lexemes.len() {
        match lexemes[place] {
            Lexeme::LeftBracket => depth += 1,
            Lexeme::RightBracket => {
                if depth == 0 {
                    return place;
                }
                depth -= 1;
            }
            _ => {}
        }
    }
    lexemes.len()
}

// The lexemes before the bracket that closes the list, behind its first one.
pub(crate) fn inside_list(lexemes: &[Lexeme]) -> &[Lexeme]
    ensures { result.now ≡ inside 0 lexemes.now }
{
    &lexemes[..inside_length(lexemes)]
}

// The lexemes behind that bracket; none where it is missing.
pub(crate) fn behind_list(lexemes: &[Lexeme]) -> &[Lexeme]
    ensures { result.now ≡ after_list 0 lexemes.now }
{
    let len = inside_length(lexemes);
    if len == lexemes.len() {
        return &lexemes[len..];
    }
    &lexemes[len + 1..]
}
