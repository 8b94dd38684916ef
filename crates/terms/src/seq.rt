//! Lists.

ghost use Rattle.std.specs.Prelude.{◌≡◌, List, [], IfOk, length};

use crate::copy::{TryCopy, copy_all};
use crate::memory::Memory;
use crate::same::{Same, same_all};
use std::alloc::Global;
use std::marker::Model;

/// A list, which contracts see as the list of its items.
#[derive(Debug, Drop)]
pub struct Seq<T> {
    items: Vec<T>,
}

impl<T> Model for Seq<T> {
    ghost use Rattle.std.specs.Prelude.{List};
    ghost use Rattle.std.specs.Coded.{coded_list};

    ghost Value = { List T };

    ghost coded = { coded_list T.code };

    ghost view = { λ s. s.items.items };
}

impl<T> Seq<T> {
    pub fn new(items: Vec<T>) -> Seq<T>
        ensures { result ≡ items.items }
    {
        Seq { items }
    }

    pub fn as_slice(&self) -> &[T]
        ensures { result.now ≡ self.now }
    {
        self.items.as_slice()
    }

    pub fn into_vec(self) -> Vec<T>
        ensures { result.items ≡ self }
    {
        self.items
    }
}

impl<T: TryCopy> TryCopy for Seq<T> {
    fn copy(&self) -> Result<Seq<T>, Memory> {
        let items = copy_all(*self.items.allocator(), self.items.as_slice())?;
        Ok(Seq { items })
    }
}

impl<T: Same> Same for Seq<T> {
    fn same(&self, other: &Seq<T>) -> bool {
        same_all(self.as_slice(), other.as_slice())
    }
}

impl TryCopy for usize {
    fn copy(&self) -> Result<usize, Memory> {
        Ok(*self)
    }
}
