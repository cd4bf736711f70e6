//! The limit and the slots of a store, and threads that share the shards of a level.
ghost use Rattle.std.specs.Prelude.{◌≡◌, ◌<◌, ◌⊎◌, ℕ, Bool, length, Ok, IfOk, All};
ghost use Rattle.dd_store.specs.Hashes.{shard_of_pair};
ghost use Rattle.dd_store.specs.Graph.{Pair, IsRef, top};
ghost use Rattle.dd_store.specs.Growing.{IsIn};
ghost use Rattle.dd_store.specs.Levels.{list_at, all_at};
ghost use Rattle.dd_store.specs.Complements.{complement_both, negate_of};
ghost use Rattle.dd_store.specs.Nodes.{node};
ghost use Rattle.dd_store.specs.View.{Has};

use crate::meeting::Meeting;
use dd_store::{Makers, Ref, Reference, SHARDS, Store, StoreFault, Watch, shard_of};
use std::alloc::{AllocError, Global};
use std::process::Abort;
use std::sync::atomic::{AtomicBool, AtomicU64, Ordering};
use std::test::Fail;
use std::thread::Threads;

/// Returns the reference that a store has returned, and fails the test if there is none.
pub(crate) fn ok(rt: &impl Abort, answer: Result<Ref, StoreFault>) -> Ref
    ensures { answer ≡ Ok result }
{
    answer.expect(rt, "refused")
}

/// Returns the complement of a reference of a store.
fn negated(store: &Store, reference: Ref) -> Ref
    requires { Has store.now reference }
    ensures value { result ≡ negate_of reference }
    ensures here { Has store.now result }
    ensures top { top store.now.levels result ≡ top store.now.levels reference }
{
    let _ = store; // For the proof.
    reference.negate()
}

#[test]
fn limit_of_three(rt: HostRuntime) -> Result<(), Fail> {
    let mut store = Store::new(rt.alloc(), 2, 3)?;
    let a = ok(&rt, store.variable(0));
    let b = ok(&rt, store.variable(1));
    let same = ok(&rt, store.make(0, b, b));
    assert!(rt; a != b && same == b);
    let r = ok(&rt, store.make(0, Ref::FALSE, b));
    let again = ok(&rt, store.make(0, Ref::FALSE, b));
    assert!(rt; again == r);
    let size = store.size(r)?;
    assert!(rt; store.count() == 3 && size == 2);
    let not_b = negated(&store, b);
    let turned = ok(&rt, store.make(0, Ref::TRUE, not_b));
    assert!(rt; turned == r.negate());
    let full = store.make(0, b, Ref::TRUE);
    assert!(rt; full == Err(StoreFault::Full));
    assert!(rt; store.find(0, b, Ref::TRUE).is_none() && store.count() == 3);
    Ok(())
}

#[test]
fn slots_of_shards(rt: HostRuntime) -> Result<(), Fail> {
    let mut store = Store::new(rt.alloc(), 2, 3)?;
    ok(&rt, store.variable(0));
    let b = ok(&rt, store.variable(1));
    ok(&rt, store.make(0, Ref::FALSE, b));
    assert!(rt; store.levels() == 2);
    assert!(rt; store.slots(0, 2) == 8 && store.slots(0, 3) == 8);
    assert!(rt; store.slots(1, 3) == 8 && store.slots(0, 0) == 0);
    Ok(())
}

/// Returns sixteen lists, of which one has a pair and then the pair of the complements, and the others are empty.
fn twice_in_one(
    alloc: Global,
    shard: usize,
    pair: (Ref, Ref),
) -> Result<Vec<Vec<(Ref, Ref)>>, AllocError>
    ensures count { IfOk result (λ lists. length lists.items ≡ 16) }
    ensures only { IfOk result (λ lists. (s : ℕ) (p : Pair) → IsIn (list_at lists.items s) p
        → (s ≡ shard) × (b : Bool) × (p ≡ complement_both b pair)) }
{
    let (lo, hi) = pair;
    let mut lists = Vec::new(alloc);
    for s in 0..16 {
        let mut list = Vec::new(alloc);
        if s == shard {
            list.push((lo, hi))?;
            list.push((lo.negate(), hi.negate()))?;
        }
        lists.push(list)?;
    }
    Ok(lists)
}

/// Two threads meet when they come to the shards 0 and 15 of a level. Another level than the wanted one is noted.
#[derive(Drop)]
struct AtEnds {
    level: u16,
    meeting: Meeting,
    elsewhere: AtomicBool,
}

impl AtEnds {
    fn of(level: u16) -> AtEnds {
        AtEnds {
            level,
            meeting: Meeting::of(2),
            elsewhere: AtomicBool::new(false),
        }
    }

    fn met(&self) -> bool {
        self.meeting.met() && !self.elsewhere.load(Ordering::SeqCst)
    }
}

impl Watch for AtEnds {
    fn at_shard(&self, shard: u8, level: u16) {
        if level != self.level {
            self.elsewhere.store(true, Ordering::SeqCst);
        }
        if shard == 0 || shard == 15 {
            self.meeting.come();
        }
    }
}

#[test]
fn two_at_shards(rt: HostRuntime) -> Result<(), Fail> {
    let mut store = Store::new(rt.alloc(), 3, 4)?;
    let _a = ok(&rt, store.variable(0));
    let b = ok(&rt, store.variable(2));
    assert!(rt; store.top(b) == 2);
    let shard = shard_of(Ref::FALSE, b) as usize;
    let lists = twice_in_one(rt.alloc(), shard, (Ref::FALSE, b))?;
    let watch = AtEnds::of(1);
    assert!(rt; store.add_all(&rt, 1, lists.as_slice(), &watch) == Ok(()));
    assert!(rt; store.count() == 3 && store.find(1, Ref::FALSE, b).is_some());
    assert!(rt; watch.met());
    Ok(())
}

/// Returns four parts: with a pair and the pair of its complements, with the same of another pair, without pairs, and
/// with the first again.
fn four_parts(
    alloc: Global,
    shard: usize,
    first: (Ref, Ref),
    second: (Ref, Ref),
) -> Result<Vec<Vec<Vec<(Ref, Ref)>>>, AllocError>
    ensures count { IfOk result (λ parts. All (λ part. length part.items ≡ 16) parts.items) }
    ensures only { IfOk result (λ parts. (s : ℕ) (p : Pair) → IsIn (all_at parts.items s) p
        → (s < 16 → s ≡ shard) × (b : Bool) × ((p ≡ complement_both b first) ⊎ (p ≡ complement_both b second))) }
{
    let (lo, hi) = first;
    let one = twice_in_one(alloc, shard, (lo, hi))?;
    let two = twice_in_one(alloc, shard, second)?;
    let none = twice_in_one(alloc, SHARDS, (lo, hi))?;
    let last = twice_in_one(alloc, shard, (lo, hi))?;
    let mut parts = Vec::new(alloc);
    parts.push(one)?;
    parts.push(two)?;
    parts.push(none)?;
    parts.push(last)?;
    Ok(parts)
}

/// Whether these are the references of the four parts: all in the list of one shard, in the order of their pairs.
fn are_four(refs: &[Vec<Ref>], old: Ref, new: Ref) -> bool {
    let wanted = [old, old.negate(), new.negate(), new, old, old.negate()];
    let mut right = refs.len() == SHARDS;
    for (shard, list) in refs.iter().enumerate() {
        let here = if shard == 3 {
            list.as_slice() == wanted.as_slice()
        } else {
            list.is_empty()
        };
        right = right && here;
    }
    right
}

/// Counts how often threads come to shards of level 0.
#[derive(Drop)]
struct Visits {
    count: AtomicU64,
}

impl Watch for Visits {
    fn at_shard(&self, shard: u8, level: u16) {
        if level == 0 && shard < 16 {
            self.count.fetch_add(1, Ordering::SeqCst);
        }
    }
}

/// Makes the nodes of four parts, with two pairs of one shard and their complements: of True and the variable of level
/// 1, and of the terminals.
fn make_four<R: Threads + Sync, H: Watch + Sync>(
    alloc: Global,
    makers: &Makers<'_, R, H>,
    store: &mut Store,
    b: Ref,
) -> Result<Result<Vec<Vec<Ref>>, StoreFault>, AllocError>
    requires levels { store.old.levels ≡ 2 }
    requires here { IsRef (node store.old) b }
    requires top { top store.old.levels b ≡ 1 }
    requires shard { shard_of_pair Reference.True b ≡ 3 }
    ensures levels { store.new.levels ≡ 2 }
    ensures here { IsRef (node store.new) b }
    ensures sixteen { IfOk result (λ made. IfOk made (λ refs. length refs.items ≡ 16)) }
{
    let first = (Ref::TRUE, b);
    let second = (Ref::TRUE, Ref::FALSE);
    let parts = four_parts(alloc, 3, first, second)?;
    let made = store.make_all(makers, 0, parts.as_slice());
    Ok(made)
}

/// Makes the nodes of the four parts twice: those that are missing are made the first time, and found the second time.
fn made_by<R: Threads + Sync + Abort, H: Watch + Sync>(
    rt: &R,
    alloc: Global,
    makers: &Makers<'_, R, H>,
) -> Result<(), AllocError> {
    let mut store = Store::new(alloc, 2, 3)?;
    let b = ok(rt, store.variable(1));
    let old = ok(rt, store.make(0, Ref::TRUE, b));
    assert!(rt; store.top(b) == 1);
    assert!(rt; shard_of(Ref::TRUE, b) == 3);
    let refs = make_four(alloc, makers, &mut store, b)?.expect(rt, "refused");
    assert!(rt; store.count() == 3);
    let new = store.find(0, Ref::FALSE, Ref::TRUE).expect(rt, "no node");
    assert!(rt; are_four(refs.as_slice(), old, new));
    let again = make_four(alloc, makers, &mut store, b)?.expect(rt, "refused");
    assert!(rt; store.count() == 3);
    assert!(rt; are_four(again.as_slice(), old, new));
    Ok(())
}

/// Makes the nodes of the four parts in a store with a limit of one node for each shard: after the failure the node of
/// the first pair is there.
fn full_by<R: Threads + Sync + Abort, H: Watch + Sync>(
    rt: &R,
    alloc: Global,
    makers: &Makers<'_, R, H>,
) -> Result<(), AllocError> {
    let mut store = Store::new(alloc, 2, 1)?;
    let b = ok(rt, store.variable(1));
    assert!(rt; store.top(b) == 1);
    assert!(rt; shard_of(Ref::TRUE, b) == 3);
    let made = make_four(alloc, makers, &mut store, b)?;
    assert!(rt; made.err() == Some(StoreFault::Full));
    assert!(rt; store.count() == 2);
    assert!(rt; store.find(0, Ref::TRUE, b).is_some());
    assert!(rt; store.find(0, Ref::FALSE, Ref::TRUE).is_none());
    Ok(())
}

/// Does both by `count` threads.
fn made_by_threads<R: Threads + Sync + Abort, H: Watch + Sync>(
    rt: &R,
    alloc: Global,
    watch: &H,
    count: u32,
) -> Result<(), AllocError> {
    let makers = Makers { rt, watch, count };
    made_by(rt, alloc, &makers)?;
    full_by(rt, alloc, &makers)
}

#[test]
fn made_by_makers(rt: HostRuntime) -> Result<(), Fail> {
    for count in [0, 1, 2, 3, 7, 16, 20] {
        let watch = Visits {
            count: AtomicU64::new(0),
        };
        made_by_threads(&rt, rt.alloc(), &watch, count)?;
        assert!(rt; watch.count.load(Ordering::SeqCst) == 48);
    }
    Ok(())
}

#[test]
fn two_makers_at_ends(rt: HostRuntime) -> Result<(), Fail> {
    for count in [2, 4] {
        let watch = AtEnds::of(0);
        made_by_threads(&rt, rt.alloc(), &watch, count)?;
        assert!(rt; watch.met());
    }
    Ok(())
}
