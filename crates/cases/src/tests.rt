// The compiled calls answer what their contracts say.
use crate::key_ranges::*;
use crate::keys::*;

#[test]
fn keys(rt: HostRuntime) {
    assert_eq!(rt; minus_five(), -5);
    assert_eq!(rt; no_day_366_in_2099(0, 0, 0), 8);
    assert_eq!(rt; place_of_year_2000(), 946684800);
    assert!(rt; counts() == [16777216, 200, 4102444800, 820488960000]);
}

#[test]
fn ranges(rt: HostRuntime) {
    assert!(rt; lens() == [0, 1, 0, 8, 0, 0]);
    assert!(rt; held() == [true, false, false]);
}
