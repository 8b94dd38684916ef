//! Tokens read from left to right, one token of look-ahead.

ghost use Rattle.std.specs.Prelude.{◌≡◌, ◌<◌, List, [], ◌∷◌, ◌↔◌, IsTrue, MatchOption, length, drop};
ghost use Rattle.reader.specs.declared.fault.Rule.TheVariants as rules;
ghost use Rattle.reader.specs.Symbol.{Symbol, symbol_of, symbols_of, key, sign};
ghost use Rattle.reader.specs.Tree.{constant_tree};
ghost use Rattle.reader.specs.Parsing.{eat, expect, Reads, is_name, name_at, number_at, plain_at, comparison_at};

use crate::fault::{ReadFault, Rule};
use crate::keyword::Keyword;
use crate::sign::Sign;
use crate::token::{Placed, Token};
use crate::tree::{Constant, Named};
use std::marker::Model;
use terms::cond::Cmp;

/// Stands for the end of a text, whatever its length: an offset beyond any byte.
pub const BEYOND: usize = usize::MAX;

/// The tokens of a text that are still to be read.
#[derive(Drop)]
pub struct Cursor<'a> {
    rest: &'a [Placed<'a>],
}

impl<'a> Model for Cursor<'a> {
    ghost use Rattle.std.specs.Prelude.{List};
    ghost use Rattle.reader.specs.Symbol.{Symbol, symbols_of};

    ghost Value = { List Symbol };

    ghost view = { λ c. symbols_of c.rest.now };
}

impl<'a> Cursor<'a> {
    /// All tokens of a text.
    pub fn new(tokens: &'a [Placed<'a>]) -> Cursor<'a>
        ensures { result ≡ symbols_of tokens.now }
    {
        Cursor { rest: tokens }
    }

    /// Whether no token is left.
    pub fn is_at_end(&self) -> bool
        ensures { IsTrue result ↔ (self.now ≡ []) }
    {
        self.rest.is_empty()
    }

    /// Where the next token stands, `BEYOND` where none is left. It has no `ensures`, since contracts
    /// see a cursor as its symbols, and a symbol has no offset.
    pub fn offset(&self) -> usize {
        self.rest.first().map_or(BEYOND, |placed| placed.offset)
    }

    /// The refusal of the next token.
    pub fn refusal(&self) -> ReadFault
        ensures { result.rule ≡ rules.Syntax }
    {
        ReadFault::new(Rule::Syntax, self.offset())
    }

    /// The next token.
    fn peek(&self) -> Option<&'a Token<'a>>
        ensures { MatchOption result (self.now ≡ []) (λ token. self.now ≡ symbol_of token.now ∷ drop 1 self.now) }
    {
        match self.rest.first() {
            Some(placed) => Some(&placed.token),
            None => None,
        }
    }

    /// Passes over the next token.
    fn advance(&mut self)
        requires { 0 < length self.old }
        ensures { self.new ≡ drop 1 self.old }
    {
        let tokens = self.rest;
        self.rest = &tokens[1..];
    }

    /// Passes over the next token if it is this sign.
    #[tactic(auto, unfolding(crate::specs::Parsing::eat))]
    pub fn eat_sign(&mut self, wanted: Sign) -> bool
        ensures found { result ≡ (eat (sign wanted) self.old).0 }
        ensures rest { self.new ≡ (eat (sign wanted) self.old).1 }
    {
        match self.peek() {
            Some(Token::Sign(found)) if *found == wanted => {
                self.advance();
                true
            }
            _ => false,
        }
    }

    /// Passes over the next token if it is this keyword.
    #[tactic(auto, unfolding(crate::specs::Parsing::eat))]
    pub fn eat_keyword(&mut self, wanted: Keyword) -> bool
        ensures found { result ≡ (eat (key wanted) self.old).0 }
        ensures rest { self.new ≡ (eat (key wanted) self.old).1 }
    {
        match self.peek() {
            Some(Token::Keyword(found)) if *found == wanted => {
                self.advance();
                true
            }
            _ => false,
        }
    }

    /// Passes over this sign, and refuses another token.
    #[tactic(auto, unfolding(crate::specs::Parsing::expect, crate::specs::Parsing::given))]
    pub fn expect_sign(&mut self, wanted: Sign) -> Result<(), ReadFault>
        ensures { Reads (λ x. x) result self.new (expect (sign wanted) self.old) }
    {
        if self.eat_sign(wanted) {
            Ok(())
        } else {
            Err(self.refusal())
        }
    }

    /// Passes over this keyword, and refuses another token.
    #[tactic(auto, unfolding(crate::specs::Parsing::expect, crate::specs::Parsing::given))]
    pub fn expect_keyword(&mut self, wanted: Keyword) -> Result<(), ReadFault>
        ensures { Reads (λ x. x) result self.new (expect (key wanted) self.old) }
    {
        if self.eat_keyword(wanted) {
            Ok(())
        } else {
            Err(self.refusal())
        }
    }

    /// Whether a name is next.
    #[tactic(auto, unfolding(crate::specs::Parsing::is_name))]
    pub fn is_name(&self) -> bool
        ensures { result ≡ is_name self.now }
    {
        matches!(self.peek(), Some(Token::Name(_)))
    }

    /// Reads a name.
    #[tactic(auto, unfolding(crate::specs::Parsing::name_at))]
    pub fn named(&mut self) -> Result<Named<'a>, ReadFault>
        ensures { Reads (λ n. n.name.now) result self.new (name_at self.old) }
    {
        let offset = self.offset();
        match self.peek() {
            Some(Token::Name(name)) => {
                self.advance();
                Ok(Named {
                    name: *name,
                    offset,
                })
            }
            _ => Err(self.refusal()),
        }
    }

    /// Reads a number.
    #[tactic(auto, unfolding(crate::specs::Parsing::number_at))]
    pub fn number(&mut self) -> Result<u64, ReadFault>
        ensures { Reads (λ n. n) result self.new (number_at self.old) }
    {
        match self.peek() {
            Some(Token::Integer(magnitude)) => {
                self.advance();
                Ok(*magnitude)
            }
            _ => Err(self.refusal()),
        }
    }

    /// Reads the sign of a comparison.
    #[tactic(auto, unfolding(crate::specs::Parsing::comparison_at, crate::specs::Parsing::and_then))]
    pub fn comparison(&mut self) -> Result<Cmp, ReadFault>
        ensures { Reads (λ c. c) result self.new (comparison_at self.old) }
    {
        match self.peek() {
            Some(Token::Sign(sign)) => match sign.comparison() {
                Some(comparison) => {
                    self.advance();
                    Ok(comparison)
                }
                None => Err(self.refusal()),
            },
            _ => Err(self.refusal()),
        }
    }

    /// Reads a text, or a number with no sign before it.
    #[tactic(auto, unfolding(crate::specs::Parsing::plain_at))]
    pub fn plain(&mut self) -> Result<Constant<'a>, ReadFault>
        ensures { Reads constant_tree result self.new (plain_at self.old) }
    {
        let offset = self.offset();
        match self.peek() {
            Some(Token::Integer(magnitude)) => {
                self.advance();
                Ok(Constant::Integer {
                    is_negative: false,
                    magnitude: *magnitude,
                    offset,
                    digits: offset,
                })
            }
            Some(Token::Text(text)) => {
                self.advance();
                Ok(Constant::Text {
                    text: text.as_str(),
                    offset,
                })
            }
            _ => Err(self.refusal()),
        }
    }
}
