//! Lists of columns, whose copies share them.

ghost use Rattle.std.specs.Prelude.{◌≡◌, IfOk};

use std::marker::Model;
use std::sync::ArcSlice;
use terms::copy::TryCopy;
use terms::memory::Memory;

/// Columns by their numbers, in order. Contracts see the list of the numbers. A copy takes no memory.
#[derive(Debug, Drop)]
pub struct ColumnList {
    numbers: ArcSlice<usize>,
}

impl Model for ColumnList {
    ghost use Rattle.std.specs.Prelude.{List, ℕ};
    ghost use Rattle.std.specs.Arc.{arc_slice_items};

    ghost Value = { List ℕ };

    ghost view = { λ c. arc_slice_items c.numbers };
}

impl ColumnList {
    pub fn new(numbers: Vec<usize>) -> Result<ColumnList, Memory>
        ensures { IfOk result (λ columns. columns ≡ numbers.items) }
    {
        let numbers = ArcSlice::from_vec(numbers)?;
        Ok(ColumnList { numbers })
    }

    pub fn as_slice(&self) -> &[usize]
        ensures { result.now ≡ self.now }
    {
        self.numbers.as_slice()
    }
}

impl TryCopy for ColumnList {
    fn copy(&self) -> Result<ColumnList, Memory> {
        let numbers = self.numbers.clone()?;
        Ok(ColumnList { numbers })
    }
}
