// What the tokens of a line have to do with what it holds. Each law is the contract of a function that does nothing.
ghost use Rattle.dv_lex.specs.Laws.Grammar.{TokensAreFound, TokensAreAll, WordsAreTokens, StringsAreTokens, CharactersAreTokens, LexemesAreTokens};

/// What is read of a line of UTF-8 is what it holds.
pub fn tokens_are_found()
    ensures { TokensAreFound }
{}

/// What a line holds is what is read of it, so it holds one list of tokens at most, and none where reading finds a fault.
pub fn tokens_are_all()
    ensures { TokensAreAll }
{}

/// Plain bytes are one token, up to the first byte that is not plain.
pub fn words_are_tokens()
    ensures { WordsAreTokens }
{}

/// A string literal is one token, whatever is behind it, and so is a character literal.
pub fn literals_are_tokens()
    ensures strings { StringsAreTokens }
    ensures characters { CharactersAreTokens }
{}

/// Every token that is read of a line of UTF-8 is one of its kind, and in UTF-8 itself.
pub fn lexemes_are_tokens()
    ensures { LexemesAreTokens }
{}
