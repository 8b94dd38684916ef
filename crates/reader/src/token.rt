//! Tokens, and where they stand in a text.

use crate::keyword::Keyword;
use crate::sign::Sign;

/// What a text is made of, between its blanks.
#[derive(Debug, Drop)]
pub enum Token<'a> {
    /// A keyword, in any case of its letters.
    Keyword(Keyword),
    /// A sign.
    Sign(Sign),
    /// A name of a relation or a column: small letters, digits and `_`.
    Name(&'a [u8]),
    /// A number in digits; `u64::MAX` stands for every number from there on.
    Integer(u64),
    /// What stands between quotes, a doubled quote read as one.
    Text(String),
}

/// A token, and the offset of its first byte.
#[derive(Debug, Drop)]
pub struct Placed<'a> {
    pub token: Token<'a>,
    pub offset: usize,
}
