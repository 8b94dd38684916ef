//! Laws of plans, each as the contract of a function that does nothing.

ghost use Rattle.plan.specs.Contents.{ContentsAscend};
ghost use Rattle.plan.specs.Given.{BroughtIsRead, ContentsGive, ReadsGive};
ghost use Rattle.plan.specs.Picked.{FetchesAreTold, OneListOfFetches};

use catalog::laws::{leaf_names_are_unique, some_leaf_serves};

/// The contents of a whole database give what the reads of a statement look for, and so does what these
/// reads leave of the contents.
pub fn contents_give()
    ensures contents { ContentsGive }
    ensures reads { ReadsGive }
{}

/// Whatever whole database the parts are of that the fetches of a statement bring, they are what the reads
/// of its needs leave of the contents.
pub fn brought_is_read()
    ensures { BroughtIsRead }
{
    leaf_names_are_unique();
}

/// The fetches of a statement are those that a function of the catalogue and the statement gives, and no
/// others.
pub fn fetches_are_told()
    ensures told { FetchesAreTold }
    ensures one { OneListOfFetches }
{
    some_leaf_serves();
}

/// The content of each leaf, of every whole database that fits the schema, has parts that fit the leaf's
/// columns, in strictly ascending order of their keys.
pub fn contents_ascend()
    ensures { ContentsAscend }
{}
