// Lists that count more items than there are places, as none of the engine does, and one that counts fewer.
use crate::{FixedVec, Queue};
use entries::{Entry, Key};

#[test]
fn all_places_are_items(rt: HostRuntime) {
    let v = FixedVec {
        items: [7u64, 8, 9],
        len: 5,
    };
    assert_eq!(rt; v.as_slice(), [7, 8, 9].as_slice());
    assert_eq!(rt; v.clamped().len, 3);
    assert_eq!(rt; v.push_if(false, 1).as_slice(), [7, 8, 9].as_slice());
    assert_eq!(rt; v.push_if(false, 1).len, 3);
    assert_eq!(rt; v.retain(|x| *x != 8).as_slice(), [7, 9].as_slice());
    assert_eq!(rt; v.cleared().push(1).as_slice(), [1].as_slice());
}

#[test]
fn what_is_counted_is_an_item(rt: HostRuntime) {
    let v = FixedVec {
        items: [7u64, 8, 9],
        len: 2,
    };
    assert_eq!(rt; v.as_slice(), [7, 8].as_slice());
    assert_eq!(rt; v.clamped().len, 2);
    assert_eq!(rt; v.push_if(true, 1).as_slice(), [7, 8, 1].as_slice());
    assert_eq!(rt; v.push_if(false, 1).as_slice(), [7, 8].as_slice());
    assert_eq!(rt; v.retain(|x| *x != 7).as_slice(), [8].as_slice());
}

fn entry_of(context: u64) -> Entry {
    Entry {
        key: Key {
            vd: 20,
            rem_slice: 0,
            ctxt_id: context,
        },
        vtime: 10,
        weight: 1024,
        context_ref: context,
    }
}

// One entry comes in place of all of its key, and finds no room behind as many of another.
#[test]
fn put_in_place_of_its_key(rt: HostRuntime) {
    let q = Queue {
        items: [entry_of(1); 64],
        len: 65,
    };
    assert_eq!(rt; q.put_in(entry_of(1)).map(|r| r.len), Some(1));
    assert_eq!(rt; q.put_in(entry_of(2)).map(|r| r.len), None);
}
