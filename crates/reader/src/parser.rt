//! The grammar of commands. Each production is a function, which reads as far as it goes and refuses the first token
//! with which no command goes on.

ghost use Rattle.std.specs.Prelude.{◌≡◌, ◌≢◌, ◌⊎◌, List, IfOk, IfErr};
ghost use Rattle.reader.specs.declared.fault.Rule.TheVariants as rules;
ghost use Rattle.reader.specs.declared.sign.Sign.TheVariants as mark;
ghost use Rattle.reader.specs.declared.keyword.Keyword.TheVariants as word;
ghost use Rattle.reader.specs.Symbol.{symbols_of, key, sign};
ghost use Rattle.reader.specs.Tree.{column_tree, columns_tree, constant_tree, constants_tree, listed_tree, condition_tree, conditions_tree, join_tree, joins_tree, select_tree, insert_tree, assigned_tree, assignment_tree, assignments_tree, update_tree, delete_tree, written_tree};
ghost use Rattle.reader.specs.Tree as tree;
ghost use Rattle.reader.specs.Grammar.{Writes, WriteOneCommand, WritesConditions, WriteOneListOfConditions};
ghost use Rattle.reader.specs.Parsing.{Reads, Gives, items_at, column_at, constant_at, listed_at, condition_at, where_at, joined_at, joins_from, joins_at, select_at, insert_at, sum_at, assigned_at, assignment_at, update_at, delete_at, bare_at, written_at, command_at, conditions_alone_at};

use crate::cursor::Cursor;
use crate::fault::ReadFault;
use crate::keyword::Keyword;
use crate::sign::Sign;
use crate::token::Placed;
use crate::tree::{
    Assigned, Assignment, Column, Condition, Constant, Delete, Insert, Join, Listed, Select,
    Update, Written,
};
use std::alloc::Global;

/// `column = name [ "." name ]`
#[tactic(auto, unfolding(crate::specs::Parsing::column_at, crate::specs::Parsing::and_then, crate::specs::Parsing::given))]
fn column<'a>(cursor: &mut Cursor<'a>) -> Result<Column<'a>, ReadFault>
    ensures { Reads column_tree result cursor.new (column_at cursor.old) }
{
    let first = cursor.named()?;
    if cursor.eat_sign(Sign::Dot) {
        let second = cursor.named()?;
        Ok(Column {
            relation: Some(first.name),
            name: second.name,
            offset: first.offset,
        })
    } else {
        Ok(Column {
            relation: None,
            name: first.name,
            offset: first.offset,
        })
    }
}

/// `constant = [ "-" ] integer | text`
#[tactic(auto, unfolding(crate::specs::Parsing::constant_at, crate::specs::Parsing::and_then, crate::specs::Parsing::given))]
fn constant<'a>(cursor: &mut Cursor<'a>) -> Result<Constant<'a>, ReadFault>
    ensures { Reads constant_tree result cursor.new (constant_at cursor.old) }
{
    let offset = cursor.offset();
    if cursor.eat_sign(Sign::Minus) {
        let digits = cursor.offset();
        let magnitude = cursor.number()?;
        Ok(Constant::Integer {
            is_negative: true,
            magnitude,
            offset,
            digits,
        })
    } else {
        cursor.plain()
    }
}

/// `condition = column comparison constant`
#[tactic(auto, unfolding(crate::specs::Parsing::condition_at, crate::specs::Parsing::and_then))]
fn condition<'a>(cursor: &mut Cursor<'a>) -> Result<Condition<'a>, ReadFault>
    ensures { Reads condition_tree result cursor.new (condition_at cursor.old) }
{
    let column = column(cursor)?;
    let comparison = cursor.comparison()?;
    let constant = constant(cursor)?;
    Ok(Condition {
        column,
        comparison,
        constant,
    })
}

/// `columns = column { "," column }`
fn columns<'a>(alloc: Global, cursor: &mut Cursor<'a>) -> Result<Vec<Column<'a>>, ReadFault>
    ensures { Reads columns_tree result cursor.new (items_at column_at (sign mark.Comma) cursor.old) }
{
    let mut columns = Vec::new(alloc);
    loop {
        columns.push(column(cursor)?)?;
        if !cursor.eat_sign(Sign::Comma) {
            return Ok(columns);
        }
    }
}

/// `constants = constant { "," constant }`
fn constants<'a>(alloc: Global, cursor: &mut Cursor<'a>) -> Result<Vec<Constant<'a>>, ReadFault>
    ensures { Reads constants_tree result cursor.new (items_at constant_at (sign mark.Comma) cursor.old) }
{
    let mut constants = Vec::new(alloc);
    loop {
        constants.push(constant(cursor)?)?;
        if !cursor.eat_sign(Sign::Comma) {
            return Ok(constants);
        }
    }
}

/// `conditions = condition { AND condition }`
fn conditions<'a>(alloc: Global, cursor: &mut Cursor<'a>) -> Result<Vec<Condition<'a>>, ReadFault>
    ensures { Reads conditions_tree result cursor.new (items_at condition_at (key word.And) cursor.old) }
{
    let mut conditions = Vec::new(alloc);
    loop {
        conditions.push(condition(cursor)?)?;
        if !cursor.eat_keyword(Keyword::And) {
            return Ok(conditions);
        }
    }
}

/// `[ WHERE conditions ]`
#[tactic(auto, unfolding(crate::specs::Parsing::where_at, crate::specs::Parsing::given))]
fn where_clause<'a>(alloc: Global, cursor: &mut Cursor<'a>) -> Result<Vec<Condition<'a>>, ReadFault>
    ensures { Reads conditions_tree result cursor.new (where_at cursor.old) }
{
    if cursor.eat_keyword(Keyword::Where) {
        conditions(alloc, cursor)
    } else {
        Ok(Vec::new(alloc))
    }
}

/// `list = "*" | columns`
#[tactic(auto, unfolding(crate::specs::Parsing::listed_at, crate::specs::Parsing::and_then, crate::specs::Parsing::given))]
fn listed<'a>(alloc: Global, cursor: &mut Cursor<'a>) -> Result<Listed<'a>, ReadFault>
    ensures { Reads listed_tree result cursor.new (listed_at cursor.old) }
{
    let offset = cursor.offset();
    if cursor.eat_sign(Sign::Star) {
        Ok(Listed::All { offset })
    } else {
        Ok(Listed::Columns(columns(alloc, cursor)?))
    }
}

/// `joined = name ON column "=" column`, which follows JOIN.
#[tactic(auto, unfolding(crate::specs::Parsing::joined_at, crate::specs::Parsing::and_then))]
fn joined<'a>(cursor: &mut Cursor<'a>) -> Result<Join<'a>, ReadFault>
    ensures { Reads join_tree result cursor.new (joined_at cursor.old) }
{
    let relation = cursor.named()?;
    cursor.expect_keyword(Keyword::On)?;
    let left = column(cursor)?;
    cursor.expect_sign(Sign::Equal)?;
    let right = column(cursor)?;
    Ok(Join {
        relation,
        left,
        right,
    })
}

/// `joined [ JOIN joined ]`, which follows JOIN.
#[tactic(auto, unfolding(crate::specs::Parsing::joins_from, crate::specs::Parsing::and_then, crate::specs::Parsing::given))]
fn joins_from<'a>(alloc: Global, cursor: &mut Cursor<'a>) -> Result<Vec<Join<'a>>, ReadFault>
    ensures { Reads joins_tree result cursor.new (joins_from cursor.old) }
{
    let mut joins = Vec::new(alloc);
    joins.push(joined(cursor)?)?;
    if cursor.eat_keyword(Keyword::Join) {
        joins.push(joined(cursor)?)?;
    }
    Ok(joins)
}

/// `joins = [ JOIN joined [ JOIN joined ] ]`
#[tactic(auto, unfolding(crate::specs::Parsing::joins_at, crate::specs::Parsing::given))]
fn joins<'a>(alloc: Global, cursor: &mut Cursor<'a>) -> Result<Vec<Join<'a>>, ReadFault>
    ensures { Reads joins_tree result cursor.new (joins_at cursor.old) }
{
    if cursor.eat_keyword(Keyword::Join) {
        joins_from(alloc, cursor)
    } else {
        Ok(Vec::new(alloc))
    }
}

/// `select = list FROM name joins [ WHERE conditions ]`, which follows SELECT.
#[tactic(auto, unfolding(crate::specs::Parsing::select_at, crate::specs::Parsing::and_then))]
fn select<'a>(alloc: Global, cursor: &mut Cursor<'a>) -> Result<Select<'a>, ReadFault>
    ensures { Reads select_tree result cursor.new (select_at cursor.old) }
{
    let listed = listed(alloc, cursor)?;
    cursor.expect_keyword(Keyword::From)?;
    let relation = cursor.named()?;
    let joins = joins(alloc, cursor)?;
    let conditions = where_clause(alloc, cursor)?;
    Ok(Select {
        listed,
        relation,
        joins,
        conditions,
    })
}

/// `insert = INTO name VALUES "(" constants ")"`, which follows INSERT.
#[tactic(auto, unfolding(crate::specs::Parsing::insert_at, crate::specs::Parsing::and_then))]
fn insert<'a>(alloc: Global, cursor: &mut Cursor<'a>) -> Result<Insert<'a>, ReadFault>
    ensures { Reads insert_tree result cursor.new (insert_at cursor.old) }
{
    cursor.expect_keyword(Keyword::Into)?;
    let relation = cursor.named()?;
    cursor.expect_keyword(Keyword::Values)?;
    cursor.expect_sign(Sign::Open)?;
    let values = constants(alloc, cursor)?;
    let close = cursor.offset();
    cursor.expect_sign(Sign::Close)?;
    Ok(Insert {
        relation,
        values,
        close,
    })
}

/// `sum = name ( "+" | "-" ) integer`
#[tactic(auto, unfolding(crate::specs::Parsing::sum_at, crate::specs::Parsing::and_then, crate::specs::Parsing::given))]
fn sum<'a>(cursor: &mut Cursor<'a>) -> Result<Assigned<'a>, ReadFault>
    ensures { Reads assigned_tree result cursor.new (sum_at cursor.old) }
{
    let column = cursor.named()?;
    let is_negative = cursor.eat_sign(Sign::Minus);
    if !is_negative {
        cursor.expect_sign(Sign::Plus)?;
    }
    let digits = cursor.offset();
    let magnitude = cursor.number()?;
    Ok(Assigned::Sum {
        column,
        is_negative,
        magnitude,
        digits,
    })
}

/// `assigned = constant | sum`
#[tactic(auto, unfolding(crate::specs::Parsing::assigned_at, crate::specs::Parsing::and_then))]
fn assigned<'a>(cursor: &mut Cursor<'a>) -> Result<Assigned<'a>, ReadFault>
    ensures { Reads assigned_tree result cursor.new (assigned_at cursor.old) }
{
    if cursor.is_name() {
        sum(cursor)
    } else {
        Ok(Assigned::Constant(constant(cursor)?))
    }
}

/// `assignment = name "=" assigned`
#[tactic(auto, unfolding(crate::specs::Parsing::assignment_at, crate::specs::Parsing::and_then))]
fn assignment<'a>(cursor: &mut Cursor<'a>) -> Result<Assignment<'a>, ReadFault>
    ensures { Reads assignment_tree result cursor.new (assignment_at cursor.old) }
{
    let column = cursor.named()?;
    cursor.expect_sign(Sign::Equal)?;
    let value = assigned(cursor)?;
    Ok(Assignment { column, value })
}

/// `assignments = assignment { "," assignment }`
fn assignments<'a>(alloc: Global, cursor: &mut Cursor<'a>) -> Result<Vec<Assignment<'a>>, ReadFault>
    ensures { Reads assignments_tree result cursor.new (items_at assignment_at (sign mark.Comma) cursor.old) }
{
    let mut assignments = Vec::new(alloc);
    loop {
        assignments.push(assignment(cursor)?)?;
        if !cursor.eat_sign(Sign::Comma) {
            return Ok(assignments);
        }
    }
}

/// `update = name SET assignments [ WHERE conditions ]`, which follows UPDATE.
#[tactic(auto, unfolding(crate::specs::Parsing::update_at, crate::specs::Parsing::and_then))]
fn update<'a>(alloc: Global, cursor: &mut Cursor<'a>) -> Result<Update<'a>, ReadFault>
    ensures { Reads update_tree result cursor.new (update_at cursor.old) }
{
    let relation = cursor.named()?;
    cursor.expect_keyword(Keyword::Set)?;
    let sets = assignments(alloc, cursor)?;
    let conditions = where_clause(alloc, cursor)?;
    Ok(Update {
        relation,
        sets,
        conditions,
    })
}

/// `delete = FROM name [ WHERE conditions ]`, which follows DELETE.
#[tactic(auto, unfolding(crate::specs::Parsing::delete_at, crate::specs::Parsing::and_then))]
fn delete<'a>(alloc: Global, cursor: &mut Cursor<'a>) -> Result<Delete<'a>, ReadFault>
    ensures { Reads delete_tree result cursor.new (delete_at cursor.old) }
{
    cursor.expect_keyword(Keyword::From)?;
    let relation = cursor.named()?;
    let conditions = where_clause(alloc, cursor)?;
    Ok(Delete {
        relation,
        conditions,
    })
}

/// `bare = BEGIN | COMMIT | ROLLBACK`
#[tactic(auto, unfolding(crate::specs::Parsing::bare_at, crate::specs::Parsing::given))]
fn bare<'a>(cursor: &mut Cursor<'a>) -> Result<Written<'a>, ReadFault>
    ensures { Reads written_tree result cursor.new (bare_at cursor.old) }
{
    if cursor.eat_keyword(Keyword::Begin) {
        Ok(Written::Begin)
    } else if cursor.eat_keyword(Keyword::Commit) {
        Ok(Written::Commit)
    } else if cursor.eat_keyword(Keyword::Rollback) {
        Ok(Written::Rollback)
    } else {
        Err(cursor.refusal())
    }
}

/// `written = SELECT select | INSERT insert | UPDATE update | DELETE delete | REFRAGMENT name | bare`
#[tactic(auto, unfolding(crate::specs::Parsing::written_at, crate::specs::Parsing::and_then, crate::specs::Parsing::given))]
fn written<'a>(alloc: Global, cursor: &mut Cursor<'a>) -> Result<Written<'a>, ReadFault>
    ensures { Reads written_tree result cursor.new (written_at cursor.old) }
{
    if cursor.eat_keyword(Keyword::Select) {
        Ok(Written::Select(select(alloc, cursor)?))
    } else if cursor.eat_keyword(Keyword::Insert) {
        Ok(Written::Insert(insert(alloc, cursor)?))
    } else if cursor.eat_keyword(Keyword::Update) {
        Ok(Written::Update(update(alloc, cursor)?))
    } else if cursor.eat_keyword(Keyword::Delete) {
        Ok(Written::Delete(delete(alloc, cursor)?))
    } else if cursor.eat_keyword(Keyword::Refragment) {
        Ok(Written::Refragment(cursor.named()?))
    } else {
        bare(cursor)
    }
}

/// `command = written [ ";" ]`, and nothing after it.
#[tactic(auto, unfolding(crate::specs::Parsing::command_at, crate::specs::Parsing::and_then))]
fn command<'a>(alloc: Global, cursor: &mut Cursor<'a>) -> Result<Written<'a>, ReadFault>
    ensures { Gives written_tree result (command_at cursor.old) }
{
    let written = written(alloc, cursor)?;
    cursor.eat_sign(Sign::Semicolon);
    if cursor.is_at_end() {
        Ok(written)
    } else {
        Err(cursor.refusal())
    }
}

/// The command that the tokens of a text write.
///
/// The refusal of tokens that write none stands at the first token with which no command goes on, or at
/// `BEYOND` where the tokens end too early.
pub fn parse<'a>(alloc: Global, tokens: &'a [Placed<'a>]) -> Result<Written<'a>, ReadFault>
    ensures found { IfOk result (λ written. Writes (symbols_of tokens.now) (written_tree written)) }
    ensures none { IfErr result (λ fault. fault.rule ≢ rules.Memory → (written : tree.Written) → ¬ (Writes (symbols_of tokens.now) written)) }
    ensures rule { IfErr result (λ fault. (fault.rule ≡ rules.Syntax) ⊎ (fault.rule ≡ rules.Memory)) }
{
    command(alloc, &mut Cursor::new(tokens))
}

/// Tokens write one command at most.
pub fn one_reading()
    ensures { WriteOneCommand }
{}

/// `conditions`, and nothing after them.
#[tactic(auto, unfolding(crate::specs::Parsing::conditions_alone_at, crate::specs::Parsing::and_then))]
fn conditions_alone<'a>(
    alloc: Global,
    cursor: &mut Cursor<'a>,
) -> Result<Vec<Condition<'a>>, ReadFault>
    ensures { Gives conditions_tree result (conditions_alone_at cursor.old) }
{
    let conditions = conditions(alloc, cursor)?;
    if cursor.is_at_end() {
        Ok(conditions)
    } else {
        Err(cursor.refusal())
    }
}

/// The conditions that the tokens of a text write, with no WHERE before and no semicolon after.
///
/// The refusal of tokens that write none stands at the first token with which no conditions go on, or at
/// `BEYOND` where the tokens end too early.
pub fn parse_conditions<'a>(
    alloc: Global,
    tokens: &'a [Placed<'a>],
) -> Result<Vec<Condition<'a>>, ReadFault>
    ensures found { IfOk result (λ conditions. WritesConditions (symbols_of tokens.now) (conditions_tree conditions)) }
    ensures none { IfErr result (λ fault. fault.rule ≢ rules.Memory → (conditions : List tree.Condition) → ¬ (WritesConditions (symbols_of tokens.now) conditions)) }
    ensures rule { IfErr result (λ fault. (fault.rule ≡ rules.Syntax) ⊎ (fault.rule ≡ rules.Memory)) }
{
    conditions_alone(alloc, &mut Cursor::new(tokens))
}

/// Tokens write one list of conditions at most.
pub fn one_reading_of_conditions()
    ensures { WriteOneListOfConditions }
{}
