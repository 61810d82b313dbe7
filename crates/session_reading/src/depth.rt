//! How deep brackets are nested.
ghost use Rattle.std.specs.Prelude.{◌≡◌};
ghost use Rattle.session_reading.specs.Faults.{opens_past_64};

use session_tokens::Lexeme;

/// The greatest number of open brackets.
pub const DEPTH_LIMIT: u32 = 64;

/// Whether more than 64 brackets are open somewhere. A closing bracket where none is open counts
/// nothing. It takes no memory.
pub fn is_too_deep(lexemes: &[Lexeme]) -> bool
    ensures { result ≡ opens_past_64 0 lexemes.now }
{
    let mut depth: u32 = 0;
    for lexeme in lexemes {
        match lexeme {
            Lexeme::Open | Lexeme::LeftBracket => {
                if depth >= DEPTH_LIMIT {
                    return true;
                }
                depth += 1;
            }
            Lexeme::Close | Lexeme::RightBracket => depth = depth.saturating_sub(1),
            _ => {}
        }
    }
    false
}
