//! REFRAGMENT, over whole relations.

ghost use Rattle.std.specs.Prelude.{◌≡◌};
ghost use Rattle.meaning.specs.Meaning.{after_refragment};

use crate::answer::Answer;
use crate::statement::Refragment;
use crate::whole::Whole;

/// Runs a REFRAGMENT, which changes no whole relation: it tells how many rows there are.
pub fn run_refragment(whole: &Whole, refragment: &Refragment) -> Answer
    ensures { result ≡ (after_refragment refragment.now whole.now).0 }
{
    Answer::Changed(whole.rows(&refragment.relation.name).len() as u64)
}
