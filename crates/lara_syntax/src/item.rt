//! A word of a script, read: what the grammar is over.
use lara_base::{Content, Name};

/// A word at its place: `at` is its first byte, `len` its number of bytes.
#[derive(Drop)]
pub struct Item {
    pub at: u32,
    pub len: u32,
    pub lexeme: Lexeme,
}

/// What a word is.
#[derive(Drop)]
pub enum Lexeme {
    Name(Name),
    Key(Keyword),
    Number(u64),
    Text(Content),
    Sign(Sign),
}

/// The words that are no names.
#[derive(Clone, Copy)]
pub enum Keyword {
    Agg,
    And,
    Apply,
    As,
    By,
    Count,
    Dist,
    Else,
    False,
    Filter,
    Flag,
    If,
    Inf,
    Join,
    Last,
    Len,
    Load,
    Map,
    MaxMin,
    MinPlus,
    Nat,
    None,
    Not,
    Num,
    Or,
    Path,
    Print,
    Promote,
    Rename,
    Repeat,
    Store,
    Table,
    Text,
    Then,
    To,
    True,
    Union,
    Where,
    With,
}

/// The signs, in the order `= ; , : [ ] { } ( ) + * ++ == != < <= > >=`.
#[derive(Clone, Copy)]
pub enum Sign {
    Is,
    Semi,
    Comma,
    Colon,
    OpenBracket,
    CloseBracket,
    OpenBrace,
    CloseBrace,
    Open,
    Close,
    Plus,
    Times,
    PlusPlus,
    Equal,
    NotEqual,
    Less,
    LessEqual,
    Greater,
    GreaterEqual,
}
