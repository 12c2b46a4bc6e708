//! The tokens of a script, for those who show scripts.
ghost use Rattle.std.specs.Prelude.{◌≡◌, ◌≤◌, [], length, map, IfOk, IsOk, IsTrue};
ghost use Rattle.lara_syntax.specs.Atoms.{is_plain_word};
ghost use Rattle.lara_syntax.specs.Tokens.{items_of, stop_of};
ghost use Rattle.lara_syntax.specs.TokenLists.{token_of, Show, ShowAll};
ghost use Rattle.lara_syntax.specs.Limits.{most_bytes};

use crate::item::{Item, Lexeme};
use crate::scan::{ItemList, read_items};
use lara_base::{Content, Copied, List};
use lara_data::Refusal;
use std::alloc::{AllocError, Global};

/// What a token is.
#[derive(Drop)]
pub enum TokenWord {
    /// A letter or `_`, followed by letters, digits and `_`, at most 64 bytes; a longer one is `TooLong`.
    Name,
    /// One of the 39 words that are no names.
    Keyword,
    /// Decimal digits, with any number of leading zeros, and a value up to 2^64 - 1. A greater value, or a letter or `_`
    /// right after the digits, is `BadNumber`.
    Number(u64),
    /// The content after escapes, at most 1,024 bytes. A text is `"`, then bytes from 20 hexadecimal on except `"`, `\`
    /// and 7F (bytes 80 to FF stand as they are), or the escapes `\"`, `\\` and `\xHH` with two hexadecimal digits of
    /// either case, then `"`. Anything else, or more content, is `BadText`.
    Text(Content),
    /// One of `= ; , : [ ] { } ( ) + * ++ == != < <= > >=`, the longest first.
    Sign,
}

/// A token: `at` is its first byte, counted from 0, and `len` its number of bytes in the script.
#[derive(Drop)]
pub struct Token {
    pub at: u32,
    pub len: u32,
    pub word: TokenWord,
}

/// The tokens of a script, in order. `stopped` is the first byte that begins no token or begins a bad one, with its
/// kind; None where the tokens go to the end.
#[derive(Drop)]
pub struct TokenList {
    pub list: List<Token>,
    pub stopped: Option<Refusal>,
}

impl Copied for TokenWord {
    fn copy(&self, alloc: Global) -> Result<Self, AllocError>
        ensures same { IfOk result (λ r. r ≡ self.now) }
        ensures exact { IsTrue (is_plain_word self.now) → IsOk result }
    {
        match self {
            TokenWord::Name => Ok(TokenWord::Name),
            TokenWord::Keyword => Ok(TokenWord::Keyword),
            TokenWord::Number(n) => Ok(TokenWord::Number(*n)),
            TokenWord::Text(content) => Ok(TokenWord::Text(content.copy(alloc)?)),
            TokenWord::Sign => Ok(TokenWord::Sign),
        }
    }
}

impl Copied for Token {
    fn copy(&self, alloc: Global) -> Result<Self, AllocError>
        ensures same { IfOk result (λ r. r ≡ self.now) }
        ensures exact { IsTrue (is_plain_word self.now.word) → IsOk result }
    {
        Ok(Token {
            at: self.at,
            len: self.len,
            word: self.word.copy(alloc)?,
        })
    }
}

impl Copied for TokenList {
    fn copy(&self, alloc: Global) -> Result<Self, AllocError>
        ensures same { IfOk result (λ r. r ≡ self.now) }
        ensures empty { self.now.list ≡ [] → IsOk result }
    {
        Ok(TokenList {
            list: self.list.copy(alloc)?,
            stopped: self.stopped,
        })
    }
}

// An item without the name, the keyword or the sign that it is.
fn token_of(item: Item) -> Token
    ensures { result ≡ token_of item }
{
    let Item { at, len, lexeme } = item;
    let word = match lexeme {
        Lexeme::Name(_) => TokenWord::Name,
        Lexeme::Key(_) => TokenWord::Keyword,
        Lexeme::Number(n) => TokenWord::Number(n),
        Lexeme::Text(content) => TokenWord::Text(content),
        Lexeme::Sign(_) => TokenWord::Sign,
    };
    Token { at, len, word }
}

fn tokens_of(alloc: Global, items: List<Item>) -> Result<List<Token>, AllocError>
    ensures { IfOk result (λ l. l ≡ map token_of items) }
{
    let tokens: Vec<Token> = items.into_vec().into_iter().map(token_of).collect(alloc)?;
    Ok(List::from_vec(tokens))
}

fn exact_tokens(alloc: Global, bytes: &[u8]) -> Result<TokenList, AllocError>
    requires { length bytes.now ≤ most_bytes }
    ensures { IfOk result (λ t. (t.list ≡ map token_of (items_of bytes.now)) × (t.stopped ≡ stop_of bytes.now)) }
{
    let ItemList { list, stopped } = read_items(alloc, bytes)?;
    Ok(TokenList {
        list: tokens_of(alloc, list)?,
        stopped,
    })
}

/// The tokens of a script of at most 1,048,576 bytes. Between them stand white space, which is space, tab, CR and LF, and
/// comments, which go from `#` to the end of the line: an LF or the end of the script; a CR alone does not end one. A byte
/// that begins no token is `BadByte`. Each refusal has its token's first byte as place.
#[tactic(auto, using(crate::proofs::SliceLaws::token_laws))]
pub fn tokens(alloc: Global, bytes: &[u8]) -> Result<TokenList, AllocError>
    requires { length bytes.now ≤ most_bytes }
    ensures exact { IfOk result (λ t. (t.list ≡ map token_of (items_of bytes.now)) × (t.stopped ≡ stop_of bytes.now)) }
    ensures reading { IfOk result (λ t. Show bytes.now t.list t.stopped) }
    ensures only { IfOk result (λ t. ShowAll bytes.now t.list t.stopped) }
{
    let tokens = exact_tokens(alloc, bytes)?;
    Ok(tokens)
}
