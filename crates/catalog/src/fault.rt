//! Why a catalogue was refused.

ghost use Rattle.std.specs.Prelude.{◌≡◌, ◌≢◌, ◌⊎◌, Some, None};
ghost use Rattle.std.specs.Option.{option_copied};
ghost use Rattle.catalog.specs.Fault.{rule_number, rule_name, shown_text, cell_text, fault_text};
ghost use Rattle.catalog.specs.declared.fault.Rule.TheVariants as rules;

use crate::trail::{ListItem, Trail};
use reader::print_constant::PrintedConstant;
use std::alloc::{AllocError, AllocFailed, Global};
use std::fmt;
use std::marker::Model;
use terms::memory::Memory;
use terms::row::Row;
use terms::seq::Seq;
use terms::text::Text;
use terms::value::Value;

/// A column and its value in a cell.
#[derive(Debug, Drop)]
pub struct Shown {
    pub column: Text,
    pub value: Value,
}

impl fmt::Display for Shown {
    ghost output = { λ shown. Some (shown_text shown) };

    fn fmt<W: fmt::Write>(&self, f: &mut fmt::Formatter<W>) -> fmt::Result {
        write!(f, "{} = {}", self.column, PrintedConstant(&self.value))
    }
}

/// A cell of a row split: a row, and what tells it from the other cells.
#[derive(Debug, Drop)]
pub struct Cell {
    pub row: Row,
    /// The values in the columns that a condition of the split names, in the relation's order.
    pub shown: Seq<Shown>,
}

impl fmt::Display for Cell {
    ghost output = { λ cell. Some (cell_text cell) };

    fn fmt<W: fmt::Write>(&self, f: &mut fmt::Formatter<W>) -> fmt::Result {
        let Some((first, others)) = self.shown.as_slice().split_first() else {
            return Ok(());
        };
        write!(f, "{first}")?;
        for shown in others {
            write!(f, ", {shown}")?;
        }
        Ok(())
    }
}

/// The rule that a catalogue breaks.
#[derive(Debug, Drop)]
pub enum Rule {
    /// The text is no TOML, or no UTF-8.
    Toml,
    /// A key is missing, unknown, or has a value of another kind.
    Field,
    /// A name is no name.
    Name,
    /// A name stands twice.
    Twice,
    /// The catalogue has no such site.
    NoSite,
    /// The first column of a relation is no integer.
    KeyType,
    /// A column is named twice in the groups of a split.
    ColumnTwice,
    /// A column is in no group of a split.
    ColumnLost,
    /// A column is not there, or not among those around a node.
    ColumnAbsent,
    /// A constant is of another type than its column.
    WrongType,
    /// A row that meets the conditions on the way to a split meets no branch.
    Gap(Cell),
    /// A row that meets the conditions on the way to a split meets two branches or more.
    Overlap(Cell),
    /// Something is larger than a catalogue may be.
    Limit,
    /// Memory ran out, which says nothing of the text.
    Memory,
}

impl Rule {
    /// The rule's number in messages.
    pub fn number(&self) -> u8
        ensures { result ≡ rule_number self.now }
    {
        match self {
            Rule::Toml => 1,
            Rule::Field => 2,
            Rule::Name => 3,
            Rule::Twice => 4,
            Rule::NoSite => 5,
            Rule::KeyType => 6,
            Rule::ColumnTwice => 7,
            Rule::ColumnLost => 8,
            Rule::ColumnAbsent => 9,
            Rule::WrongType => 10,
            Rule::Gap(_) => 11,
            Rule::Overlap(_) => 12,
            Rule::Limit => 13,
            Rule::Memory => 14,
        }
    }

    /// The rule's name in messages.
    pub fn name(&self) -> &'static str
        ensures { result.now ≡ rule_name self.now }
    {
        match self {
            Rule::Toml => "Toml",
            Rule::Field => "Field",
            Rule::Name => "Name",
            Rule::Twice => "Twice",
            Rule::NoSite => "NoSite",
            Rule::KeyType => "KeyType",
            Rule::ColumnTwice => "ColumnTwice",
            Rule::ColumnLost => "ColumnLost",
            Rule::ColumnAbsent => "ColumnAbsent",
            Rule::WrongType => "Type",
            Rule::Gap(_) => "Gap",
            Rule::Overlap(_) => "Overlap",
            Rule::Limit => "Limit",
            Rule::Memory => "Memory",
        }
    }
}

/// A refusal of a catalogue: the rule that it breaks, and the relation in which it does, if it is in one.
/// That memory ran out is told of none.
#[derive(Debug, Drop)]
pub struct CatFault {
    rule: Rule,
    relation: Option<Text>,
    trail: Trail,
}

impl Model for CatFault {
    ghost use Rattle.std.specs.Prelude.{◌≡◌, None};
    ghost use Rattle.catalog.specs.declared.fault.Rule.TheVariants.{Memory};
    ghost use Rattle.catalog.specs.Fault.{Fault};

    ghost Value = { Fault };

    ghost view = { λ f. record { rule = f.rule; relation = f.relation } };

    ghost invariant = { λ f. f.rule ≡ Memory → f.relation ≡ None };
}

impl CatFault {
    /// A fault outside of the relations. That memory ran out is no fault of a text: it is made of the
    /// error that says so.
    pub fn new(rule: Rule) -> CatFault
        requires { rule ≢ Rule.Memory }
        ensures rule { result.rule ≡ rule }
        ensures relation { result.relation ≡ None }
    {
        CatFault::outside(rule)
    }

    /// A fault outside of the relations, or that memory ran out.
    pub(crate) fn outside(rule: Rule) -> CatFault
        ensures rule { result.rule ≡ rule }
        ensures relation { result.relation ≡ None }
    {
        CatFault::at(Trail::new(), rule)
    }

    /// A fault at a part of the document outside of the relations, or that memory ran out.
    pub(crate) fn at(trail: Trail, rule: Rule) -> CatFault
        ensures rule { result.rule ≡ rule }
        ensures relation { result.relation ≡ None }
    {
        CatFault {
            rule,
            relation: None,
            trail,
        }
    }

    /// A fault at a part of the relation of this name.
    pub(crate) fn in_relation(alloc: Global, name: &str, trail: Trail, rule: Rule) -> CatFault
        ensures { ((result.rule ≡ rule) × (result.relation ≡ Some name.now)) ⊎ (result.rule ≡ Rule.Memory) }
    {
        if matches!(rule, Rule::Memory) {
            return CatFault::outside(rule);
        }
        match Text::copy_of(alloc, name) {
            Ok(name) => CatFault {
                rule,
                relation: Some(name),
                trail,
            },
            Err(_) => CatFault::outside(Rule::Memory),
        }
    }

    /// The rule that the catalogue breaks.
    pub fn rule(&self) -> &Rule
        ensures { result.now ≡ self.now.rule }
    {
        &self.rule
    }

    /// The name of the relation in which it does, if it is in one.
    pub fn relation(&self) -> Option<&Text>
        ensures named { option_copied result ≡ self.now.relation }
        ensures memory { self.now.rule ≡ Rule.Memory → self.now.relation ≡ None }
    {
        self.relation.as_ref()
    }

    /// The items on the way to the part of the document that breaks the rule, from the relation's table, or from the
    /// root: a branch or group for each split, and last a column's or a site's text. No contract says which.
    pub fn trail(&self) -> &[ListItem] {
        self.trail.items()
    }
}

impl fmt::Display for CatFault {
    ghost output = { λ fault. Some (fault_text fault) };

    fn fmt<W: fmt::Write>(&self, f: &mut fmt::Formatter<W>) -> fmt::Result {
        write!(f, "{} {}", self.rule.number(), self.rule.name())?;
        if let Some(relation) = &self.relation {
            write!(f, " {relation}")?;
        }
        match &self.rule {
            Rule::Gap(cell) | Rule::Overlap(cell) => write!(f, " {cell}"),
            _ => Ok(()),
        }
    }
}

impl From<Memory> for CatFault {
    ghost from_gives = { λ _ fault. fault.rule ≡ rules.Memory };

    fn from(_error: Memory) -> CatFault {
        CatFault::outside(Rule::Memory)
    }
}

impl<T: Drop> From<AllocFailed<T>> for CatFault {
    ghost from_gives = { λ _ fault. fault.rule ≡ rules.Memory };

    fn from(_error: AllocFailed<T>) -> CatFault {
        CatFault::outside(Rule::Memory)
    }
}

impl From<Memory> for Rule {
    ghost from_gives = { λ _ rule. rule ≡ rules.Memory };

    fn from(_error: Memory) -> Rule {
        Rule::Memory
    }
}

impl From<AllocError> for Rule {
    ghost from_gives = { λ _ rule. rule ≡ rules.Memory };

    fn from(_error: AllocError) -> Rule {
        Rule::Memory
    }
}

impl<T: Drop> From<AllocFailed<T>> for Rule {
    ghost from_gives = { λ _ rule. rule ≡ rules.Memory };

    fn from(_error: AllocFailed<T>) -> Rule {
        Rule::Memory
    }
}
