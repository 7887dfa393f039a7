//! Examples at the edges of both kinds.

use crate::ascending_list::AscendingList;
use crate::bit_row::BitRow;
use crate::list_record::ListRecord;
use crate::small_set::SmallSet;
use std::process::Abort;

fn from_members<S: SmallSet>(members: &[u16]) -> S {
    let mut set = S::empty();
    for n in members {
        set.insert(*n);
    }
    set
}

/// What holds of any kind; `last` is the greatest number below its width.
fn edges<S: SmallSet>(rt: &impl Abort, last: u16) {
    let mut set = S::empty();
    assert_eq!(rt; set.count(), 0);
    assert_eq!(rt; set.next_from(0), None);
    assert!(rt; set.insert(0));
    assert!(rt; !set.insert(0));
    assert!(rt; set.insert(last));
    assert!(rt; !set.insert(S::W));
    assert!(rt; !set.insert(65535));
    assert_eq!(rt; set.count(), 2);
    assert!(rt; set.contains(0) && set.contains(last) && !set.contains(S::W));
    assert_eq!(rt; set.next_from(0), Some(0));
    assert_eq!(rt; set.next_from(1), Some(last));
    assert_eq!(rt; set.next_from(last), Some(last));
    assert_eq!(rt; set.next_from(S::W), None);
}

/// The full set, and sets given in another order.
fn full<S: SmallSet>(rt: &impl Abort) {
    let mut set = S::empty();
    for n in 0..S::W {
        assert!(rt; set.insert(n));
    }
    assert_eq!(rt; set.count(), S::W);
    let some: S = from_members(&[40, 5, 63, 17, 5]);
    let same: S = from_members(&[5, 17, 40, 63]);
    assert_eq!(rt; some.count(), 4);
    assert!(rt; some.same(&same) && !some.same(&set));
    assert!(rt; set.union(&some).same(&set) && S::empty().union(&some).same(&some));
}

#[test]
fn bit_rows(rt: HostRuntime) {
    assert_eq!(rt; BitRow::width(), 256);
    edges::<BitRow>(&rt, 255);
    full::<BitRow>(&rt);
    let mut words: BitRow = from_members(&[63, 64]);
    assert_eq!(rt; words.next_from(64), Some(64));
    assert!(rt; words.insert(255) && !words.insert(256));
    assert_eq!(rt; words.next_from(65), Some(255));
}

#[test]
fn list_records(rt: HostRuntime) {
    assert_eq!(rt; ListRecord::width(), 64);
    edges::<ListRecord>(&rt, 63);
    full::<ListRecord>(&rt);
}

/// A record that fails the check means the empty set; what is written back passes it.
#[test]
fn broken_records(rt: HostRuntime) {
    let mut twice = ListRecord {
        len: 2,
        items: [5; 64],
    };
    assert!(rt; !twice.passes_check() && twice.same(&ListRecord::empty()));
    assert!(rt; twice.insert(9) && twice.passes_check() && !twice.contains(5));
    assert_eq!(rt; twice.count(), 1);
    let long = ListRecord {
        len: 65,
        items: [5; 64],
    };
    assert_eq!(rt; long.count(), 0);
    let wide = ListRecord {
        len: 1,
        items: [64; 64],
    };
    assert_eq!(rt; wide.next_from(0), None);
    let once = ListRecord {
        len: 1,
        items: [5; 64],
    };
    assert!(rt; once.passes_check());
    assert_eq!(rt; once.next_from(0), Some(5));
}

/// Where a number is added, or a union is made, what is written holds 0 in the items that are not used. A number that
/// is too great leaves all items as they were.
#[test]
fn unused_items(rt: HostRuntime) {
    let once = ListRecord {
        len: 1,
        items: [5; 64],
    };
    let mut two = once;
    assert!(rt; two.insert(9));
    assert!(rt; AscendingList::of_record(two).as_slice() == [5, 9].as_slice());
    assert!(rt; two.items.iter().skip(2).all(|x| *x == 0));
    let mut one = once;
    assert!(rt; !one.insert(64));
    assert!(rt; one.len == 1 && one.items.iter().all(|x| *x == 5));
    assert!(rt; once.union(&once).items.iter().skip(1).all(|x| *x == 0));
}
