//! The catalogs of small stores whose columns are ints.

// Two columns in three projections of two segments each, on six sites, without joins.
pub const THREE_ORDERS: &str = r#"version = 2
safety = "rows"
table = "t"
key = "id"
sites = 6
[[column]]
name = "id"
kind = "int"
[[column]]
name = "v"
kind = "int"
[[projection]]
name = "a"
columns = ["id", "v"]
codes = [4, 4]
sort = ["id"]
cuts = [3]
sites = [1, 2]
joins = []
[[projection]]
name = "b"
columns = ["id", "v"]
codes = [4, 4]
sort = ["v"]
cuts = [15]
sites = [3, 4]
joins = []
[[projection]]
name = "c"
columns = ["id", "v"]
codes = [4, 4]
sort = ["v", "id"]
cuts = [25]
sites = [5, 6]
joins = []
"#;

// The second projection lacks the key and has two segments. Each projection joins to the other.
pub const NUMBERED_CITIES: &str = r#"version = 2
safety = "rows"
table = "t"
key = "id"
sites = 3
[[column]]
name = "id"
kind = "int"
[[column]]
name = "city"
kind = "int"
[[column]]
name = "v"
kind = "int"
[[projection]]
name = "a"
columns = ["id", "city", "v"]
codes = [4, 4, 4]
sort = ["id"]
cuts = []
sites = [1]
joins = ["b"]
[[projection]]
name = "b"
columns = ["city", "v"]
codes = [4, 4]
sort = ["city"]
cuts = [2]
sites = [2, 3]
joins = ["a"]
"#;

// Two columns in two projections of one segment each, on two sites, without joins.
pub const TWO_ORDERS: &str = r#"version = 2
safety = "rows"
table = "t"
key = "id"
sites = 2
[[column]]
name = "id"
kind = "int"
[[column]]
name = "v"
kind = "int"
[[projection]]
name = "a"
columns = ["id", "v"]
codes = [4, 4]
sort = ["id"]
cuts = []
sites = [1]
joins = []
[[projection]]
name = "b"
columns = ["id", "v"]
codes = [4, 4]
sort = ["v"]
cuts = []
sites = [2]
joins = []
"#;
