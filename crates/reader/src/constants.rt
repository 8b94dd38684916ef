//! Constants: the values that they are in columns of a type.

ghost use Rattle.std.specs.Prelude.{◌≡◌, ◌≢◌, ◌<◌, ◌-◌, ◌^◌, IfErr};
ghost use Rattle.reader.specs.declared.fault.Rule.TheVariants as rules;
ghost use Rattle.reader.specs.Breaks.{Refuses, ConstantBreaks, ComparedBreaks};
ghost use Rattle.reader.specs.Names.{integer_of, value_of, compared_of, number_of};
ghost use Rattle.reader.specs.Resolving.{Resolves};
ghost use Rattle.reader.specs.Tree.{constant_tree, integer};

use crate::fault::{ReadFault, Rule};
use crate::tree::Constant;
use std::alloc::Global;
use terms::text::Text;
use terms::value::{Kind, Value};

/// The most bytes of a text that a condition compares with.
pub const CONSTANT_LIMIT: usize = 100;

/// An integer that fits 64 bits, or a Limit at its digits.
fn integer(is_negative: bool, magnitude: u64, digits: usize) -> Result<Value, ReadFault>
    ensures exact { Resolves (λ v. v) result (integer_of is_negative magnitude) }
    ensures rule { IfErr result (λ fault. ConstantBreaks fault.rule Kind.Int (integer is_negative magnitude)) }
{
    let greatest: u64 = if is_negative { 1 << 63 } else { (1 << 63) - 1 };
    if magnitude > greatest {
        return Err(ReadFault::new(Rule::Limit, digits));
    }
    let number = i128::from(magnitude);
    Ok(Value::Int(if is_negative {
        (-number) as i64
    } else {
        number as i64
    }))
}

/// The number that a sum adds, negative where it is taken away.
pub fn number(is_negative: bool, magnitude: u64, digits: usize) -> Result<i64, ReadFault>
    ensures exact { Resolves (λ n. n) result (number_of is_negative magnitude) }
    ensures rule { Refuses result (λ rule. (rule ≡ rules.Limit) × (2 ^ 63 - 1 < magnitude)) }
{
    if magnitude > (1 << 63) - 1 {
        return Err(ReadFault::new(Rule::Limit, digits));
    }
    let number = i128::from(magnitude);
    Ok(if is_negative {
        (-number) as i64
    } else {
        number as i64
    })
}

/// The value of a constant in a column of this type.
pub fn value(alloc: Global, kind: Kind, constant: &Constant<'_>) -> Result<Value, ReadFault>
    ensures exact { Resolves (λ v. v) result (value_of kind (constant_tree constant.now)) }
    ensures rule { Refuses result (λ rule. ConstantBreaks rule kind (constant_tree constant.now)) }
{
    match (kind, constant) {
        (
            Kind::Int,
            Constant::Integer {
                is_negative,
                magnitude,
                digits,
                ..
            },
        ) => integer(*is_negative, *magnitude, *digits),
        (Kind::Text, Constant::Text { text, .. }) => Ok(Value::Text(Text::copy_of(alloc, text)?)),
        (Kind::Int, Constant::Text { offset, .. }) => Err(ReadFault::new(Rule::WrongType, *offset)),
        (Kind::Text, Constant::Integer { offset, .. }) => Err(ReadFault::new(
            Rule::WrongType,
            *offset,
        )),
    }
}

/// The value that a condition on a column of this type compares with.
pub fn compared(alloc: Global, kind: Kind, constant: &Constant<'_>) -> Result<Value, ReadFault>
    ensures exact { Resolves (λ v. v) result (compared_of kind (constant_tree constant.now)) }
    ensures rule { Refuses result (λ rule. ComparedBreaks rule kind (constant_tree constant.now)) }
{
    if let (Kind::Text, Constant::Text { text, offset }) = (kind, constant) {
        if text.len() > CONSTANT_LIMIT {
            return Err(ReadFault::new(Rule::Limit, *offset));
        }
    }
    value(alloc, kind, constant)
}
