//! Bundles whose requests were taken, to be filled again.
ghost use Rattle.std.specs.Prelude.{◌≡◌, [], IfOk};

use lane_queue::Bundle;
use std::alloc::{AllocError, Global};
use std::marker::Model;

/// The memory of bundles whose requests were taken. Contracts see nothing of them but that a bundle is empty when it is
/// taken.
#[derive(Drop)]
pub struct BundlePool {
    bundles: Vec<Bundle>,
}

impl Model for BundlePool {
    ghost Value = { Unit {0} };

    ghost view = { λ _. tt };
}

impl BundlePool {
    /// Returns a pool without bundles.
    pub fn new(alloc: Global) -> BundlePool {
        BundlePool {
            bundles: Vec::new(alloc),
        }
    }

    /// Returns a bundle without requests, one of the pool's if there is any. Fails if memory for a new one is refused.
    pub fn take(&mut self) -> Result<Bundle, AllocError>
        ensures { IfOk result (λ b. b ≡ []) }
    {
        match self.bundles.pop() {
            Some(bundle) => {
                let mut bundle = bundle;
                bundle.clear();
                Ok(bundle)
            }
            None => Bundle::new(*self.bundles.allocator()),
        }
    }

    /// Keeps the bundle's memory, or gives it back if the list of bundles cannot grow.
    pub fn put(&mut self, bundle: Bundle) {
        let _ = self.bundles.push(bundle);
    }
}
