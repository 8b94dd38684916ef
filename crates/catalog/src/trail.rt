//! How a part of a document is reached.

ghost use Rattle.std.specs.Prelude.{◌≡◌};
ghost use Rattle.catalog.specs.Trail.{item_index, item_key};

/// An item of one of a document's lists, by its index there.
#[derive(Clone, Copy, Debug)]
pub enum ListItem {
    Site(usize),
    Column(usize),
    /// A branch of a row split.
    Branch(usize),
    /// A group of a column split.
    Group(usize),
}

impl ListItem {
    /// The key at which its list stands.
    pub fn key(&self) -> &'static str
        ensures { result.now ≡ item_key self.now }
    {
        match self {
            ListItem::Site(_) => "sites",
            ListItem::Column(_) => "columns",
            ListItem::Branch(_) => "rows",
            ListItem::Group(_) => "cols",
        }
    }

    /// Its index in the list, from 0.
    pub fn index(&self) -> usize
        ensures { result ≡ item_index self.now }
    {
        match self {
            ListItem::Site(index)
            | ListItem::Column(index)
            | ListItem::Branch(index)
            | ListItem::Group(index) => { *index }
        }
    }
}

/// The most items on the way to a part: one for each split.
const MOST: usize = 4;

/// The items on the way to a part of a document, from the table of its relation, or from the root. Which these are no
/// contract says: they are for whoever is told of a fault.
#[derive(Clone, Copy, Debug)]
pub(crate) struct Trail {
    items: [ListItem; MOST],
    count: usize,
}

impl Trail {
    /// No items.
    pub(crate) fn new() -> Trail {
        Trail {
            items: [ListItem::Site(0); MOST],
            count: 0,
        }
    }

    /// Goes on to an item.
    pub(crate) fn enter(&mut self, item: ListItem) {
        if self.count < MOST {
            self.items[self.count] = item;
        }
        self.count = self.count.saturating_add(1);
    }

    /// Goes back from the last item.
    pub(crate) fn leave(&mut self) {
        self.count = self.count.saturating_sub(1);
    }

    /// The items.
    pub(crate) fn items(&self) -> &[ListItem] {
        &self.items[..self.count.min(MOST)]
    }
}
