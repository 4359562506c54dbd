//! Catalogs of small stores, for tests and for the demonstration that `cs_cli` runs.

/// Two columns of ints in two orders on two sites, without joins: each site alone has the whole table.
pub const TWO_ORDERS: &str = r#"version = 1
table = "t"
key = "id"
sites = 2
[[column]]
name = "id"
kind = "int"
[[column]]
name = "v"
kind = "int"
[[projection]]
name = "a"
columns = ["id", "v"]
codes = [4, 4]
sort = ["id"]
cuts = []
sites = [1]
joins = []
[[projection]]
name = "b"
columns = ["id", "v"]
codes = [4, 4]
sort = ["v"]
cuts = []
sites = [2]
joins = []
"#;

/// Three columns, one of texts. The second projection lacks the key and has two segments. Each projection joins to the
/// other.
pub const CITIES: &str = r#"version = 1
table = "t"
key = "id"
sites = 3
[[column]]
name = "id"
kind = "int"
[[column]]
name = "city"
kind = "text"
[[column]]
name = "v"
kind = "int"
[[projection]]
name = "a"
columns = ["id", "city", "v"]
codes = [3, 1, 4]
sort = ["id"]
cuts = []
sites = [1]
joins = ["b"]
[[projection]]
name = "b"
columns = ["city", "v"]
codes = [1, 4]
sort = ["city"]
cuts = ["m"]
sites = [2, 3]
joins = ["a"]
"#;

/// Two columns in three projections of two segments each, on six sites, without joins.
pub const THREE_PROJECTIONS: &str = r#"version = 1
table = "t"
key = "id"
sites = 6
[[column]]
name = "id"
kind = "int"
[[column]]
name = "v"
kind = "int"
[[projection]]
name = "a"
columns = ["id", "v"]
codes = [3, 4]
sort = ["id"]
cuts = [3]
sites = [1, 2]
joins = []
[[projection]]
name = "b"
columns = ["id", "v"]
codes = [4, 1]
sort = ["v"]
cuts = [15]
sites = [3, 4]
joins = []
[[projection]]
name = "c"
columns = ["id", "v"]
codes = [4, 3]
sort = ["v", "id"]
cuts = [25]
sites = [5, 6]
joins = []
"#;

/// Three columns of ints. Two projections have a part of them each and join to each other; a third has all.
pub const SPLIT_COLUMNS: &str = r#"version = 1
table = "t"
key = "id"
sites = 3
[[column]]
name = "id"
kind = "int"
[[column]]
name = "v"
kind = "int"
[[column]]
name = "w"
kind = "int"
[[projection]]
name = "a"
columns = ["id", "v"]
codes = [4, 4]
sort = ["id"]
cuts = []
sites = [1]
joins = ["b"]
[[projection]]
name = "b"
columns = ["w"]
codes = [4]
sort = ["w"]
cuts = []
sites = [2]
joins = ["a"]
[[projection]]
name = "c"
columns = ["id", "v", "w"]
codes = [4, 4, 3]
sort = ["w"]
cuts = []
sites = [3]
joins = []
"#;
