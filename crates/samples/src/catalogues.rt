//! The catalogues that the tests speak of.

/// One relation split by columns and then by rows, the other by rows.
pub const EMP_AND_DEPT: &str = "sites = [\"north\", \"south\"]

[relations.emp]
columns = [\"id int\", \"name text\", \"dept int\", \"pay int\"]
[[relations.emp.cols]]
of = [\"name\"]
site = \"north\"
[[relations.emp.cols]]
of = [\"dept\", \"pay\"]
[[relations.emp.cols.rows]]
where = \"dept < 10\"
site = \"north\"
[[relations.emp.cols.rows]]
where = \"dept >= 10\"
site = \"south\"

[relations.dept]
columns = [\"no int\", \"title text\"]
[[relations.dept.rows]]
where = \"no < 10\"
site = \"north\"
[[relations.dept.rows]]
where = \"no >= 10\"
site = \"south\"
";

/// The same relations: the first is split by rows alone.
pub const EMP_BY_ROWS: &str = "sites = [\"north\", \"south\"]

[relations.emp]
columns = [\"id int\", \"name text\", \"dept int\", \"pay int\"]
[[relations.emp.rows]]
where = \"dept < 10\"
site = \"south\"
[[relations.emp.rows]]
where = \"dept >= 10\"
site = \"north\"

[relations.dept]
columns = [\"no int\", \"title text\"]
[[relations.dept.rows]]
where = \"no < 10\"
site = \"north\"
[[relations.dept.rows]]
where = \"no >= 10\"
site = \"south\"
";

/// The same relations: the second is split into three parts.
pub const DEPT_IN_THREE: &str = "sites = [\"north\", \"south\"]

[relations.emp]
columns = [\"id int\", \"name text\", \"dept int\", \"pay int\"]
[[relations.emp.rows]]
where = \"dept < 10\"
site = \"south\"
[[relations.emp.rows]]
where = \"dept >= 10\"
site = \"north\"

[relations.dept]
columns = [\"no int\", \"title text\"]
[[relations.dept.rows]]
where = \"no < 5\"
site = \"south\"
[[relations.dept.rows]]
where = \"no >= 5 AND no < 11\"
site = \"north\"
[[relations.dept.rows]]
where = \"no >= 11\"
site = \"south\"
";

/// One relation, split by rows.
pub const ITEM: &str = "sites = [\"north\", \"south\"]

[relations.item]
columns = [\"id int\", \"zone int\", \"label text\"]
[[relations.item.rows]]
where = \"zone < 10\"
site = \"north\"
[[relations.item.rows]]
where = \"zone >= 10\"
site = \"south\"
";

/// One relation whose two columns are in a leaf each.
pub const PAIR: &str = "sites = [\"north\"]

[relations.pair]
columns = [\"id int\", \"one int\", \"other int\"]
[[relations.pair.cols]]
of = [\"one\"]
site = \"north\"
[[relations.pair.cols]]
of = [\"other\"]
site = \"north\"
";
