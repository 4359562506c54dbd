//! Bytes that cannot be a line of `catalog_cases`.
use cs_catalog::explain;
use cs_schema::samples::TWO_ORDERS;

#[test]
fn explains_nothing_where_no_rule_is_broken(rt: HostRuntime) {
    for bytes in [TWO_ORDERS.as_bytes(), b"=", b"\xff"] {
        assert!(rt; matches!(explain(rt.alloc(), bytes), Ok(None)), "{bytes:?}");
    }
}
