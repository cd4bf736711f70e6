//! The two signals of each pair, without what else is known of it.
ghost use Rattle.std.specs.Prelude.{◌≡◌, IfOk, map};

use compare_built::subject::Subject;
use net_bench::netlist::Signal;
use std::alloc::{AllocError, Global};

/// The two signals of each pair.
pub(crate) fn signals_of(
    alloc: Global,
    subjects: &[Subject],
) -> Result<Vec<(Signal, Signal)>, AllocError>
    ensures { IfOk result (λ v. v.items ≡ map (λ s. (s.first, s.second)) subjects.now) }
{
    let mut signals = Vec::new(alloc);
    for subject in subjects {
        signals.push((subject.first, subject.second))?;
    }
    Ok(signals)
}
