//! How keywords and signs are written.
ghost use Rattle.std.specs.Prelude.{◌≡◌};
ghost use Rattle.lara_syntax.specs.FixedWords.{keyword_text, sign_text, keyword_of, sign_of, same_keyword, same_sign};

use crate::item::{Keyword, Sign};

const KEYWORDS: [Keyword; 39] = [
    Keyword::Agg,
    Keyword::And,
    Keyword::Apply,
    Keyword::As,
    Keyword::By,
    Keyword::Count,
    Keyword::Dist,
    Keyword::Else,
    Keyword::False,
    Keyword::Filter,
    Keyword::Flag,
    Keyword::If,
    Keyword::Inf,
    Keyword::Join,
    Keyword::Last,
    Keyword::Len,
    Keyword::Load,
    Keyword::Map,
    Keyword::MaxMin,
    Keyword::MinPlus,
    Keyword::Nat,
    Keyword::None,
    Keyword::Not,
    Keyword::Num,
    Keyword::Or,
    Keyword::Path,
    Keyword::Print,
    Keyword::Promote,
    Keyword::Rename,
    Keyword::Repeat,
    Keyword::Store,
    Keyword::Table,
    Keyword::Text,
    Keyword::Then,
    Keyword::To,
    Keyword::True,
    Keyword::Union,
    Keyword::Where,
    Keyword::With,
];

const SIGNS: [Sign; 19] = [
    Sign::Is,
    Sign::Semi,
    Sign::Comma,
    Sign::Colon,
    Sign::OpenBracket,
    Sign::CloseBracket,
    Sign::OpenBrace,
    Sign::CloseBrace,
    Sign::Open,
    Sign::Close,
    Sign::Plus,
    Sign::Times,
    Sign::PlusPlus,
    Sign::Equal,
    Sign::NotEqual,
    Sign::Less,
    Sign::LessEqual,
    Sign::Greater,
    Sign::GreaterEqual,
];

impl Keyword {
    fn text(self) -> &'static [u8]
        ensures { result.now ≡ keyword_text self }
    {
        match self {
            Keyword::Agg => b"agg",
            Keyword::And => b"and",
            Keyword::Apply => b"apply",
            Keyword::As => b"as",
            Keyword::By => b"by",
            Keyword::Count => b"count",
            Keyword::Dist => b"dist",
            Keyword::Else => b"else",
            Keyword::False => b"false",
            Keyword::Filter => b"filter",
            Keyword::Flag => b"flag",
            Keyword::If => b"if",
            Keyword::Inf => b"inf",
            Keyword::Join => b"join",
            Keyword::Last => b"last",
            Keyword::Len => b"len",
            Keyword::Load => b"load",
            Keyword::Map => b"map",
            Keyword::MaxMin => b"maxmin",
            Keyword::MinPlus => b"minplus",
            Keyword::Nat => b"nat",
            Keyword::None => b"none",
            Keyword::Not => b"not",
            Keyword::Num => b"num",
            Keyword::Or => b"or",
            Keyword::Path => b"path",
            Keyword::Print => b"print",
            Keyword::Promote => b"promote",
            Keyword::Rename => b"rename",
            Keyword::Repeat => b"repeat",
            Keyword::Store => b"store",
            Keyword::Table => b"table",
            Keyword::Text => b"text",
            Keyword::Then => b"then",
            Keyword::To => b"to",
            Keyword::True => b"true",
            Keyword::Union => b"union",
            Keyword::Where => b"where",
            Keyword::With => b"with",
        }
    }

    /// Whether two keywords are one, which their texts tell.
    pub fn same(self, other: Keyword) -> bool
        ensures { result ≡ same_keyword self other }
    {
        self.text() == other.text()
    }
}

impl Sign {
    fn text(self) -> &'static [u8]
        ensures { result.now ≡ sign_text self }
    {
        match self {
            Sign::Is => b"=",
            Sign::Semi => b";",
            Sign::Comma => b",",
            Sign::Colon => b":",
            Sign::OpenBracket => b"[",
            Sign::CloseBracket => b"]",
            Sign::OpenBrace => b"{",
            Sign::CloseBrace => b"}",
            Sign::Open => b"(",
            Sign::Close => b")",
            Sign::Plus => b"+",
            Sign::Times => b"*",
            Sign::PlusPlus => b"++",
            Sign::Equal => b"==",
            Sign::NotEqual => b"!=",
            Sign::Less => b"<",
            Sign::LessEqual => b"<=",
            Sign::Greater => b">",
            Sign::GreaterEqual => b">=",
        }
    }

    /// Whether two signs are one, which their texts tell.
    pub fn same(self, other: Sign) -> bool
        ensures { result ≡ same_sign self other }
    {
        self.text() == other.text()
    }
}

/// The keyword that is written so.
#[tactic(auto, unfolding(crate::specs::FixedWords::keyword_of))]
pub fn keyword_of(text: &[u8]) -> Option<Keyword>
    ensures { result ≡ keyword_of text.now }
{
    KEYWORDS.iter().copied().find(|k| k.text() == text)
}

/// The sign that is written so.
#[tactic(auto, unfolding(crate::specs::FixedWords::sign_of))]
pub fn sign_of(text: &[u8]) -> Option<Sign>
    ensures { result ≡ sign_of text.now }
{
    SIGNS.iter().copied().find(|s| s.text() == text)
}
