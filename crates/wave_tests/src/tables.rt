//! The slots of a table of items, and the hash of two words.
use slot_table::{Admission, Refusal, SlotTable, mix};
use std::test::Fail;

#[test]
fn doubled_many_times(rt: HostRuntime) -> Result<(), Fail> {
    let mut table: SlotTable<u64> = SlotTable::new(rt.alloc());
    for place in 0..3000 {
        assert!(rt; table.len() == place as usize);
        assert!(rt; place != 6 || table.slots() == 8);
        assert!(rt; place != 7 || table.slots() == 16);
        let added = table.find_or_add(place as u64 * 40503, 1);
        assert!(rt; added == Ok(Admission::Added(place)));
    }
    assert!(rt; table.len() == 3000 && table.slots() == 4096);
    for place in 0..3000 {
        assert!(rt; table.find(place as u64 * 40503) == Some(place));
    }
    assert!(rt; table.find_or_add(1, 0) == Err(Refusal::Full));
    Ok(())
}

#[test]
fn mixed_words(rt: HostRuntime) {
    assert!(rt; mix(1, 2) == 4193632173);
    assert!(rt; mix(2, 1) == 1518569743);
}
