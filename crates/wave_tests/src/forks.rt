//! A map by a thread for each place of a list.
use std::alloc::Global;
use std::process::Abort;
use std::test::Fail;
use std::thread::Threads;
use thread_map::fork_each;

/// Adds to each element of a list its place, by a thread for each, and compares.
fn forked<R: Threads + Sync + Abort>(rt: &R, alloc: Global, count: u64) -> Result<(), Fail> {
    let mut held = Vec::new(alloc);
    for place in 0..count {
        held.push(place.wrapping_mul(100))?;
    }
    let add = |place: usize, number: &mut u64| *number = number.wrapping_add(place as u64);
    fork_each(rt, held.as_mut_slice(), &add);
    assert!(rt; held.len() as u64 == count);
    for (place, number) in held.iter().enumerate() {
        assert!(rt; *number == (place as u64).wrapping_mul(101));
    }
    Ok(())
}

// Each place is worked on once, with its number, for each length of the list.
#[test]
fn each_place_by_a_thread(rt: HostRuntime) -> Result<(), Fail> {
    for count in [0, 1, 2, 4, 7] {
        forked(&rt, rt.alloc(), count)?;
    }
    Ok(())
}
