//! The memory that the workers of a wave fill. It lasts from wave to wave.
ghost use Rattle.expand_work.specs.MemoryPool.{IsEmptyMemory, rows_in, without_rows};
ghost use Rattle.std.specs.Prelude.{◌≡◌, ◌+◌, ◌%◌, ◌^◌, [], replicate, IfOk};

use crate::BundlePool;
use crate::lists::PlacesBySender;
use crate::tables::Tables;
use req_table::Rows;
use std::alloc::{AllocError, Global};
use std::marker::Model;
use std::mem;

/// The memory that one worker fills.
#[derive(Drop)]
pub struct WorkerMemory {
    /// The requests that the worker was asked for, by level.
    pub tables: Tables,
    /// Their children, by level.
    pub rows: Rows,
    /// By sender the places of the requests that the worker has taken.
    pub noted: PlacesBySender,
    /// Bundles that were taken, to be filled again.
    pub spare: BundlePool,
}

/// Returns `levels` empty rows. A worker keeps the memory of all its rows, however large.
fn no_rows(alloc: Global, levels: u16) -> Result<Rows, AllocError>
    ensures { IfOk result (λ rows. rows ≡ replicate levels []) }
{
    let mut rows = Rows::new(alloc, usize::MAX);
    rows.restart(alloc, levels)?;
    Ok(rows)
}

impl WorkerMemory {
    fn new(alloc: Global, levels: u16, workers: u32) -> Result<WorkerMemory, AllocError>
        ensures { IfOk result (IsEmptyMemory levels workers) }
    {
        Ok(WorkerMemory {
            tables: Tables::new(alloc, levels)?,
            rows: no_rows(alloc, levels)?,
            noted: PlacesBySender::new(alloc, workers)?,
            spare: BundlePool::new(alloc),
        })
    }

    fn emptied(self, alloc: Global, levels: u16, workers: u32) -> Result<WorkerMemory, AllocError>
        ensures { IfOk result (IsEmptyMemory levels workers) }
    {
        let mut rows = self.rows;
        rows.restart(alloc, levels)?;
        Ok(WorkerMemory {
            tables: self.tables.emptied(alloc, levels)?,
            rows,
            noted: self.noted.emptied(alloc, workers)?,
            spare: self.spare,
        })
    }

    /// Divides it into its rows and the rest.
    pub(crate) fn split(self, alloc: Global) -> (Rows, WorkerMemory)
        ensures rows { result.0 ≡ rows_in self }
        ensures rest { result.1 ≡ without_rows self }
    {
        let mut rest = self;
        let rows = mem::replace(&mut rest.rows, Rows::new(alloc, usize::MAX));
        (rows, rest)
    }

    /// Returns memory for `levels` levels and `workers` workers with nothing in it: that of an earlier wave, emptied,
    /// if there is any.
    pub fn open(
        alloc: Global,
        used: Option<WorkerMemory>,
        levels: u16,
        workers: u32,
    ) -> Result<WorkerMemory, AllocError>
        ensures { IfOk result (IsEmptyMemory levels workers) }
    {
        match used {
            Some(space) => space.emptied(alloc, levels, workers),
            None => WorkerMemory::new(alloc, levels, workers),
        }
    }
}

/// The memory of workers between two waves, and the number of requests that were expanded in it. Contracts see only
/// this number, modulo 2^64, since memory is emptied when a worker begins.
#[derive(Drop)]
pub struct MemoryPool {
    used: Vec<WorkerMemory>,
    expanded: u64,
    /// Whether the table of a level stays with it after the level was expanded.
    keeps: bool,
}

impl Model for MemoryPool {
    ghost use Rattle.std.specs.Prelude.{ℕ};

    ghost Value = { ℕ };

    ghost view = { λ s. s.expanded };
}

impl MemoryPool {
    /// Returns a pool without memory, in which nothing was expanded yet. The table of a level that was expanded goes on
    /// to another level.
    pub fn new(alloc: Global) -> MemoryPool
        ensures { result ≡ 0 }
    {
        MemoryPool {
            used: Vec::new(alloc),
            expanded: 0,
            keeps: false,
        }
    }

    /// Returns such a pool for callers that read the keys of a wave afterwards: each table stays with its level.
    pub fn keeping(alloc: Global) -> MemoryPool
        ensures { result ≡ 0 }
    {
        MemoryPool {
            used: Vec::new(alloc),
            expanded: 0,
            keeps: true,
        }
    }

    /// Whether each table stays with its level.
    pub(crate) fn keeps(&self) -> bool {
        self.keeps
    }

    /// Takes the memory of one worker out, if there is any.
    pub fn take(&mut self) -> Option<WorkerMemory>
        ensures { self.new ≡ self.old }
    {
        self.used.pop()
    }

    /// Takes all memory out.
    pub(crate) fn take_all(&mut self, alloc: Global) -> MemoryPool
        ensures { self.new ≡ self.old }
    {
        MemoryPool {
            used: mem::replace(&mut self.used, Vec::new(alloc)),
            expanded: 0,
            keeps: self.keeps,
        }
    }

    /// Replaces the memory by that of these workers.
    pub(crate) fn refill(&mut self, used: Vec<WorkerMemory>)
        ensures { self.new ≡ self.old }
    {
        self.used = used;
    }

    /// Returns the number of requests that were expanded, modulo 2^64.
    pub fn expanded(&self) -> u64
        ensures { result ≡ self.now }
    {
        self.expanded
    }

    /// Adds a number of requests that were expanded.
    pub(crate) fn add(&mut self, requests: u64)
        ensures { self.new ≡ (self.old + requests) % 2 ^ 64 }
    {
        self.expanded = self.expanded.wrapping_add(requests);
    }
}
