//! Changes of one leaf, key by key.

use terms::part::Part;

/// What is to become of a key of a leaf: a part to put, or none where the part is to go.
#[derive(Debug, Drop)]
pub struct Change<'a> {
    pub key: i64,
    pub part: Option<&'a Part>,
}
