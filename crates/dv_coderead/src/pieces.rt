// The tokens of a line by what they mean.
ghost use Rattle.std.specs.Prelude.{◌≡◌, IfOk};
ghost use Rattle.std.specs.List.{All};
ghost use Rattle.dv_lex.specs.Lines.{lexeme_in, lexemes_in, AreTokens, IsInside};
ghost use Rattle.dv_lex.specs.Grammar.{IsLexeme};
ghost use Rattle.dv_coderead.specs.Pieces.{pieces_in, pieces_of, piece_in, piece_of};

use crate::words::string;
use dv_defs::Chars;
use dv_lex::{Token, TokenKind, char_unit};
use std::alloc::{AllocError, Global};

/// A word, a mark, the units of a string or the unit of a character.
#[derive(Drop)]
pub enum Piece<'a> {
    Word(&'a [u8]),
    Mark(u8),
    Str(Chars),
    Char(u16),
}

/// The pieces that the tokens of a line are.
///
/// # Errors
///
/// Want of memory.
pub fn read_tokens<'a>(
    alloc: Global,
    text: &'a [u8],
    tokens: &[Token],
) -> Result<Vec<Piece<'a>>, AllocError>
    requires inside { All (IsInside text.now) tokens.now }
    requires tokens { AreTokens text.now tokens.now }
    ensures { IfOk result (λ v. pieces_in v.items ≡ pieces_of (lexemes_in text.now tokens.now)) }
{
    let mut pieces = Vec::new(alloc);
    for token in tokens {
        pieces.push(read_token(alloc, text, token)?)?;
    }
    Ok(pieces)
}

/// The piece that a token is.
fn read_token<'a>(alloc: Global, text: &'a [u8], token: &Token) -> Result<Piece<'a>, AllocError>
    requires inside { IsInside text.now token.now }
    requires token { IsLexeme (lexeme_in text.now token.now) }
    ensures { IfOk result (λ p. piece_in p ≡ piece_of (lexeme_in text.now token.now)) }
{
    let word = token.bytes(text);
    Ok(match token.kind {
        TokenKind::Word => Piece::Word(word),
        TokenKind::Mark => Piece::Mark(word[0]),
        TokenKind::Str => Piece::Str(string(alloc, word)?),
        TokenKind::Char => Piece::Char(char_unit(word)),
    })
}
