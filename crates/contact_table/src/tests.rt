use crate::Table;

// What the pairs below weigh, each at one of its limits or set twice.
fn told(a: u8, b: u8) -> i32 {
    match (a, b) {
        (1, 15) | (15, 1) => 1_000,
        (2, 15) | (15, 2) => -3,
        (15, 15) => -1_000,
        _ => 0,
    }
}

#[test]
fn a_pair_has_its_last_weight_in_either_order_and_no_other_has_one(rt: HostRuntime) {
    let mut table = Table::new();
    table.set_weight(1, 15, 1_000);
    table.set_weight(2, 15, 7);
    table.set_weight(1, 1, 9);
    table.set_weight(15, 15, -1_000);
    table.set_weight(15, 2, -3);
    table.set_weight(1, 1, 0);
    assert!(rt; table.push_threshold(5));
    for a in 0..16 {
        for b in 0..16 {
            assert_eq!(rt; table.weight(a, b), told(a, b));
        }
    }
}

#[test]
fn the_threshold_of_a_delta_is_the_one_of_its_number(rt: HostRuntime) {
    let mut table = Table::new();
    assert_eq!(rt; table.thresholds(), 0);
    assert_eq!(rt; table.threshold(0), 4_294_967_296);
    assert_eq!(rt; table.threshold(1), 0);
    assert!(rt; table.push_threshold(4_294_967_296));
    assert!(rt; table.push_threshold(0));
    assert!(rt; table.push_threshold(7));
    table.set_weight(1, 2, 3);
    assert_eq!(rt; table.thresholds(), 3);
    let cases: [(i64, u64); 9] = [
        (i64::MIN, 4_294_967_296),
        (-1, 4_294_967_296),
        (0, 4_294_967_296),
        (1, 4_294_967_296),
        (2, 0),
        (3, 7),
        (4, 0),
        (4_294_967_298, 0),
        (i64::MAX, 0),
    ];
    for (delta, threshold) in cases {
        assert_eq!(rt; table.threshold(delta), threshold);
    }
}

#[test]
fn a_table_takes_1024_thresholds_and_refuses_the_next(rt: HostRuntime) {
    let mut table = Table::new();
    for threshold in 1..1_025 {
        assert!(rt; table.push_threshold(threshold));
    }
    assert!(rt; !table.push_threshold(5));
    assert_eq!(rt; table.thresholds(), 1_024);
    assert_eq!(rt; table.threshold(1), 1);
    assert_eq!(rt; table.threshold(1_024), 1_024);
    assert_eq!(rt; table.threshold(1_025), 0);
}
