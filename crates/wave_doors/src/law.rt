//! Which records `reduce` accepts.
ghost use Rattle.std.specs.Prelude.{ℕ, All};
ghost use Rattle.req_table.specs.Keys.{IsKey};
ghost use Rattle.reduce_up.specs.Levels.{AreRecords};
ghost use Rattle.wave_doors.specs.Levels.{AreSplits};
ghost use Rattle.reduce_up.specs.Waves.{IsClosureOf};

use dd_store::Store;
use req_table::Key;
use wave_core::Records;

/// Shows that rows of keys with their children, by level, in which every child that is a request is recorded, may be
/// reduced. The function does nothing; its contract is the fact.
pub fn splits_are_records(store: &Store, records: &Records)
    ensures { AreSplits store.now records.now → AreRecords store.now records.now }
{
    let _ = store.levels(); // For the proof.
}

/// Shows that the records of all requests that keys of a store ask for, as a finished core has them, may be reduced.
/// The function does nothing; its contract is the fact.
pub fn closures_are_records(store: &Store, roots: &[Key], records: &Records)
    requires roots { All (IsKey store.now) roots.now }
    requires closure { (workers : ℕ) × IsClosureOf store.now workers roots.now records.now }
    ensures { AreRecords store.now records.now }
{
    let _ = store.levels(); // For the proof.
}
