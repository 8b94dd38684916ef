//! The laws of fragmentation, each as the contract of a function that does nothing.

ghost use Rattle.catalog.specs.Cover.{SomeServes, OneServes, SomeServesBelow, OneServesBelow, OneLeafBelow, NeededIsWanted};
ghost use Rattle.catalog.specs.Laws.{ExactlyOneLeaf, SomeLeaf, OneRebuilt, LeafNamesAreUnique, ContentAt, SameListing, OneCatalogueOfText, FaultyIsNotValid};
ghost use Rattle.catalog.specs.Cells.{CellsAreFixed, CellsDecide};
ghost use Rattle.catalog.specs.Item.{ItemIsValid, ItemFragments};
ghost use Rattle.catalog.specs.Emp.{EmpIsValid, EmpFragments};

use reader::read_conds::one_list_of_conds;
use terms::test_values::{test_rows_suffice, test_values_fit};

/// For every row that fits and every column outside the key exactly one leaf whose conditions hold
/// has the column.
pub fn exactly_one_leaf()
    ensures { ExactlyOneLeaf }
{}

/// Of every row that fits the conditions of some leaf hold.
pub fn some_leaf()
    ensures { SomeLeaf }
{}

/// Of every row that fits the conditions of some wanted leaf hold, whatever columns are needed; and so
/// below any conditions that hold of the row.
pub fn some_leaf_serves()
    ensures whole { SomeServes }
    ensures below { SomeServesBelow }
{}

/// Exactly one wanted leaf whose conditions hold has a needed column; and so within any columns, where
/// each leaf that has it is wanted.
pub fn one_leaf_serves()
    ensures whole { OneServes }
    ensures below { OneServesBelow }
    ensures any { OneLeafBelow }
    ensures wanted { NeededIsWanted }
{}

/// At most one relation is rebuilt from the contents of the leaves of a valid tree.
pub fn one_rebuilt()
    ensures { OneRebuilt }
{}

/// Each leaf of a catalogue is the one that its name finds.
pub fn leaf_names_are_unique()
    ensures { LeafNamesAreUnique }
{}

/// Contents by their keys: a leaf's content has at each key the part of the relation's row, and rows
/// with ascending keys that have the same at each key are the same.
pub fn contents_by_key()
    ensures content { ContentAt }
    ensures same { SameListing }
{}

/// A text is one of at most one catalogue.
pub fn one_catalogue_of_text()
    ensures { OneCatalogueOfText }
{
    one_list_of_conds();
}

/// A catalogue in which a gap or an overlap is the first is not valid.
pub fn faulty_is_not_valid()
    ensures { FaultyIsNotValid }
{}

/// A row split fixes its cells and their order.
pub fn cells_are_fixed()
    ensures { CellsAreFixed }
{}

/// A row split is exact where no cell is a fault; and the first cell that is one is a row that fits,
/// meets the conditions on the way, and meets no branch or two or more. A caller that writes this call
/// knows so.
pub fn cells_decide()
    ensures { CellsDecide }
{
    test_rows_suffice();
    test_values_fit();
}

/// The built-in split of `item` by zones is valid, and its leaves have all columns.
pub fn item_split()
    ensures valid { ItemIsValid }
    ensures fragments { ItemFragments }
{}

/// The nested split of `emp` is valid: the name in one leaf, the rest by departments in two others.
pub fn emp_split()
    ensures valid { EmpIsValid }
    ensures fragments { EmpFragments }
{}
