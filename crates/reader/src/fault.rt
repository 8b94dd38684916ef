//! Why a text was refused, and where.

ghost use Rattle.reader.specs.Refusal.{rule_number, rule_name};
ghost use Rattle.std.specs.Prelude.{min, Some, ◌≡◌, ◌≢◌, ℕ, ◌≤◌};

use std::alloc::{AllocError, AllocFailed};
use std::fmt;
use std::marker::Model;
use terms::memory::Memory;

/// The rule that a text breaks.
#[derive(Clone, Copy, Debug, PartialEq, Eq)]
pub enum Rule {
    /// The text has more than 4,096 bytes.
    TooLong,
    /// A character begins no token, or a text has an excluded character or no end.
    Character,
    /// No statement goes on with this token.
    Syntax,
    /// The schema has no such relation.
    NoRelation,
    /// The relations of the statement have no such column.
    NoColumn,
    /// More than one relation of the statement has the column.
    Ambiguous,
    /// A value or a column is of another type than the place asks for.
    WrongType,
    /// An update would change a key.
    KeyColumn,
    /// A join does not go by the key of the joined relation and a column before it.
    JoinNotKey,
    /// A row has another number of values than the relation has columns.
    Count,
    /// Something is larger than the language allows.
    Limit,
    /// Memory ran out, which says nothing of the text.
    Memory,
}

impl Rule {
    /// The rule's number in messages.
    pub fn number(self) -> u8
        ensures { result ≡ rule_number self }
    {
        match self {
            Rule::TooLong => 1,
            Rule::Character => 2,
            Rule::Syntax => 3,
            Rule::NoRelation => 4,
            Rule::NoColumn => 5,
            Rule::Ambiguous => 6,
            Rule::WrongType => 7,
            Rule::KeyColumn => 8,
            Rule::JoinNotKey => 9,
            Rule::Count => 10,
            Rule::Limit => 11,
            Rule::Memory => 12,
        }
    }

    /// The rule's name in messages.
    pub fn name(self) -> &'static str
        ensures { result.now ≡ rule_name self }
    {
        match self {
            Rule::TooLong => "TooLong",
            Rule::Character => "Character",
            Rule::Syntax => "Syntax",
            Rule::NoRelation => "NoRelation",
            Rule::NoColumn => "NoColumn",
            Rule::Ambiguous => "Ambiguous",
            Rule::WrongType => "Type",
            Rule::KeyColumn => "KeyColumn",
            Rule::JoinNotKey => "JoinNotKey",
            Rule::Count => "Count",
            Rule::Limit => "Limit",
            Rule::Memory => "Memory",
        }
    }
}

/// A refusal of a text: the rule that it breaks, and the byte at which it does. That memory ran out
/// is told at offset 0.
#[derive(Clone, Copy, Debug, PartialEq, Eq)]
pub struct ReadFault {
    rule: Rule,
    offset: usize,
}

impl Model for ReadFault {
    ghost use Rattle.std.specs.Prelude.{◌≡◌};
    ghost use Rattle.reader.specs.declared.fault.Rule.TheVariants.{Memory};
    ghost use Rattle.reader.specs.Fault.{Fault};

    ghost Value = { Fault };

    ghost view = { λ f. record { rule = f.rule; offset = f.offset } };

    ghost inverse = { λ f. record { rule = f.rule; offset = f.offset } };

    ghost invariant = { λ f. f.rule ≡ Memory → f.offset ≡ 0 };
}

impl ReadFault {
    /// A fault of the text. That memory ran out is no fault of a text: it is made of the error that
    /// says so.
    pub fn new(rule: Rule, offset: usize) -> ReadFault
        requires { rule ≢ Rule.Memory }
        ensures rule { result.rule ≡ rule }
        ensures offset { result.offset ≡ offset }
    {
        ReadFault { rule, offset }
    }

    /// The rule that the text breaks.
    pub fn rule(&self) -> Rule
        ensures { result ≡ self.now.rule }
    {
        self.rule
    }

    /// The offset in bytes, 0 where memory ran out.
    pub fn offset(&self) -> usize
        ensures offset { result ≡ self.now.offset }
        ensures memory { self.now.rule ≡ Rule.Memory → result ≡ 0 }
    {
        self.offset
    }

    /// The same fault, at the text's end where it lay beyond it.
    pub fn within(self, end: usize) -> ReadFault
        ensures rule { result.rule ≡ self.rule }
        ensures offset { result.offset ≡ min self.offset end }
        ensures memory { self.rule ≡ Rule.Memory → result.offset ≡ 0 }
    {
        ReadFault {
            rule: self.rule,
            offset: self.offset.min(end),
        }
    }
}

impl fmt::Display for ReadFault {
    ghost use Rattle.reader.specs.Refusal.{fault_text};

    ghost output = { λ fault. Some (fault_text fault) };

    fn fmt<W: fmt::Write>(&self, f: &mut fmt::Formatter<W>) -> fmt::Result {
        let number = self.rule.number();
        let name = self.rule.name();
        let offset = self.offset;
        write!(f, "{number} {name} at {offset}")
    }
}

impl From<AllocError> for ReadFault {
    ghost use Rattle.reader.specs.Fault.{memory_fault};

    ghost from_gives = { λ _ fault. fault ≡ memory_fault };

    fn from(_error: AllocError) -> ReadFault {
        ReadFault {
            rule: Rule::Memory,
            offset: 0,
        }
    }
}

impl<T: Drop> From<AllocFailed<T>> for ReadFault {
    ghost use Rattle.reader.specs.Fault.{memory_fault};

    ghost from_gives = { λ _ fault. fault ≡ memory_fault };

    fn from(_error: AllocFailed<T>) -> ReadFault {
        ReadFault {
            rule: Rule::Memory,
            offset: 0,
        }
    }
}

impl From<Memory> for ReadFault {
    ghost use Rattle.reader.specs.Fault.{memory_fault};

    ghost from_gives = { λ _ fault. fault ≡ memory_fault };

    fn from(_error: Memory) -> ReadFault {
        ReadFault {
            rule: Rule::Memory,
            offset: 0,
        }
    }
}
