//! The signs that stand between words.

ghost use Rattle.std.specs.Prelude.{◌≡◌};
ghost use Rattle.reader.specs.Sign.{sign_text};
ghost use Rattle.reader.specs.Reading.{sign_of};
ghost use Rattle.reader.specs.Parsing.{comparison_of};

use terms::cond::Cmp;

/// A sign of one or two characters.
#[derive(Clone, Copy, Debug, PartialEq, Eq)]
pub enum Sign {
    Comma,
    Dot,
    Open,
    Close,
    Equal,
    NotEqual,
    Less,
    LessOrEqual,
    Greater,
    GreaterOrEqual,
    Plus,
    Minus,
    Star,
    Semicolon,
}

/// Each sign, a longer one before each that it begins with.
const SIGNS: [Sign; 14] = [
    Sign::LessOrEqual,
    Sign::NotEqual,
    Sign::GreaterOrEqual,
    Sign::Less,
    Sign::Greater,
    Sign::Equal,
    Sign::Comma,
    Sign::Dot,
    Sign::Open,
    Sign::Close,
    Sign::Plus,
    Sign::Minus,
    Sign::Star,
    Sign::Semicolon,
];

impl Sign {
    /// Its characters.
    pub fn text(self) -> &'static [u8]
        ensures { result.now ≡ sign_text self }
    {
        match self {
            Sign::Comma => b",",
            Sign::Dot => b".",
            Sign::Open => b"(",
            Sign::Close => b")",
            Sign::Equal => b"=",
            Sign::NotEqual => b"<>",
            Sign::Less => b"<",
            Sign::LessOrEqual => b"<=",
            Sign::Greater => b">",
            Sign::GreaterOrEqual => b">=",
            Sign::Plus => b"+",
            Sign::Minus => b"-",
            Sign::Star => b"*",
            Sign::Semicolon => b";",
        }
    }

    /// The longest sign that the bytes begin with.
    #[tactic(auto, unfolding(crate::specs::Reading::sign_of))]
    pub(crate) fn at_front(bytes: &[u8]) -> Option<Sign>
        ensures { result ≡ sign_of bytes.now }
    {
        SIGNS
            .iter()
            .copied()
            .find(|sign| bytes.starts_with(sign.text()))
    }
    /// The comparison that it is, if it is one.
    #[tactic(auto, unfolding(crate::specs::Parsing::comparison_of))]
    pub(crate) fn comparison(self) -> Option<Cmp>
        ensures { result ≡ comparison_of self }
    {
        match self {
            Sign::Equal => Some(Cmp::Eq),
            Sign::NotEqual => Some(Cmp::Ne),
            Sign::Less => Some(Cmp::Lt),
            Sign::LessOrEqual => Some(Cmp::Le),
            Sign::Greater => Some(Cmp::Gt),
            Sign::GreaterOrEqual => Some(Cmp::Ge),
            _ => None,
        }
    }
}
