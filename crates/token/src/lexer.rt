//! The lexer: from the bytes of a text to its tokens.
ghost use Rattle.std.specs.Prelude.{◌≤◌, map, length, Ok, Err, MatchResult};
ghost use Rattle.token.specs.Items.{Computed};
ghost use Rattle.token.specs.Lexing.{StuckInWords};
ghost use Rattle.token.specs.Lexings.{Told, Lexable, OneLexing};
ghost use Rattle.token.specs.Views.{lexeme_view};

use super::fault::ReadFault;
use super::pieces::Pieces;
use super::token::Lexeme;
use std::alloc::Global;

/// How many bytes a text may have.
const BYTES: usize = 8192;

/// How many tokens a text may have.
const TOKENS: usize = 1024;

/// Refuses a text with its first stray byte.
fn check(text: &[u8]) -> Result<(), ReadFault>
    requires { length text.now ≤ 8192 }
    ensures { MatchResult result (λ _. Lexable text.now) (λ f. Told text.now (Err f)) }
{
    for piece in Pieces::of(text) {
        piece?;
    }
    Ok(())
}

/// The tokens of a text that is short enough and has no stray byte.
fn gather<'a>(heap: Global, text: &'a [u8]) -> Result<Vec<Lexeme<'a>>, ReadFault>
    requires short { length text.now ≤ 8192 }
    requires lexable { Lexable text.now }
    ensures { MatchResult result (λ v. Told text.now (Ok (map lexeme_view v.items))) (λ f. Told text.now (Err f)) }
{
    let mut found = Vec::new(heap);
    for piece in Pieces::of(text) {
        let (place, piece) = piece?;
        let Some(token) = piece.token else {
            continue;
        };
        if found.len() == TOKENS {
            return Err(ReadFault::TooManyTokens { place });
        }
        found.push(Lexeme { token, place })?;
    }
    Ok(found)
}

/// The tokens of a text, each at its place. Refused with the first listed fault at its lowest place: over 8,192 bytes;
/// a byte that begins no token, or a comment or title that has no end; a 1,025th token. The text is only looked at.
pub fn lex<'a>(heap: Global, text: &'a [u8]) -> Result<Vec<Lexeme<'a>>, ReadFault>
    ensures told { MatchResult result (λ v. Told text.now (Ok (map lexeme_view v.items))) (λ f. Told text.now (Err f)) }
    ensures one { OneLexing text.now }
    ensures words { StuckInWords }
    ensures computed { Computed text.now }
{
    if text.len() > BYTES {
        return Err(ReadFault::TooLong);
    }
    check(text)?;
    gather(heap, text)
}
