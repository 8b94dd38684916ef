//! The built-in catalogue: one relation, split by rows over two sites.

/// The built-in catalogue, as a file of it would stand.
pub const BUILT_IN: &str = "sites = [\"north\", \"south\"]

[relations.item]
columns = [\"id int\", \"zone int\", \"label text\"]
[[relations.item.rows]]
where = \"zone < 10\"
site = \"north\"
[[relations.item.rows]]
where = \"zone >= 10\"
site = \"south\"
";

/// What the built-in catalogue is called in place of a file.
pub const BUILT_IN_NAME: &str = "the built-in catalogue";
