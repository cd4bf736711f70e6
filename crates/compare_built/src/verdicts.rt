//! A verdict for each line of the report, of two netlists whose diagrams are in one store.
ghost use Rattle.std.specs.Prelude.{◌≡◌, ◌+◌, ◌<◌, false, length, All, IfOk};
ghost use Rattle.counter_walk.specs.DeclaredOrder.{IsOrder, by_declared};
ghost use Rattle.net_bench.specs.Circuit.{circuit};
ghost use Rattle.net_order.specs.Order.{condition, name_of};
ghost use Rattle.dd_store.specs.View.{Has};
ghost use Rattle.gate_plan.specs.Building.{reference_of};
ghost use Rattle.compare_built.specs.Conditions.{everywhere};
ghost use Rattle.compare_built.specs.Report.{IsVerdictOf, AreVerdicts};
ghost use Rattle.compare_built.specs.Comparing.{AreCompared, HaveAllVerdicts, IsVerdictOrder, as_built, as_reported, compared_of};
ghost use Rattle.compare_built.specs.Comparing.{subject_at, details_of};

use crate::extras::{Diagrams, arranged_extras, extras_of, size_of};
use crate::subject::Subject;
use crate::unmatched::{add_first_unmatched, add_second_unmatched};
use crate::verdict_order::{Details, VerdictOrder};
use counter_walk::{by_level, least_difference, least_difference_declared, value};
use dd_store::{Ref, Store};
use net_bench::netlist::Netlist;
use net_order::pairing::Pairing;
use report_text::{Bits, Name, Verdict};
use std::alloc::{AllocError, Global};

/// Two netlists with their pairing, the pairs that are compared, and the diagrams of these, those of all first signals
/// before those of all second ones. `verdict_order` says in which order of the pairing's variables verdicts are
/// reported.
#[derive(Clone, Copy, Drop)]
pub struct Comparison<'a> {
    pub first: &'a Netlist,
    pub second: &'a Netlist,
    pub given: Option<&'a Netlist>,
    pub pairing: &'a Pairing,
    pub store: &'a Store,
    pub subjects: &'a [Subject],
    pub references: &'a [Ref],
    pub verdict_order: VerdictOrder<'a>,
}

/// Returns the verdict of two functions, over the variables by level: they are equal exactly if there is no least
/// difference.
fn verdict_of(
    alloc: Global,
    store: &Store,
    of: &Diagrams<'_>,
    asked: Details,
) -> Result<Verdict, AllocError>
    requires first_known { Has store.now of.now.first }
    requires second_known { Has store.now of.now.second }
    ensures { IfOk result (λ v. IsVerdictOf store.now.levels asked everywhere
        (compared_of as_built store.now of.now.role of.now.name.now of.now.first of.now.second) v) }
{
    let role = of.role;
    let name = Name::copied(alloc, of.name)?;
    let first = of.first;
    let second = of.second;
    match least_difference(alloc, store, first, second)? {
        None => {
            let size = size_of(store, first, asked.sizes)?;
            Ok(Verdict::Equal { role, name, size })
        }
        Some(bits) => {
            let extras = extras_of(alloc, store, first, second, asked)?;
            let first = value(store, first, bits.as_slice());
            let second = value(store, second, bits.as_slice());
            Ok(Verdict::Differs {
                role,
                name,
                at: Bits::of(bits),
                first,
                second,
                extras,
            })
        }
    }
}

/// Returns the verdict of two functions, over the variables in another order, which has for each level the place of its
/// variable. The difference is the least in that order; its bits are put at their levels to evaluate both functions.
fn arranged_verdict(
    alloc: Global,
    store: &Store,
    of: &Diagrams<'_>,
    order: &[u16],
    support: bool,
) -> Result<Verdict, AllocError>
    requires first_known { Has store.now of.now.first }
    requires second_known { Has store.now of.now.second }
    requires order { IsOrder store.now.levels order.now }
    ensures { IfOk result (λ v. IsVerdictOf store.now.levels (record { sizes = false; support = support }) everywhere
        (compared_of (by_declared order.now) store.now of.now.role of.now.name.now of.now.first of.now.second) v) }
{
    let role = of.role;
    let name = Name::copied(alloc, of.name)?;
    let first = of.first;
    let second = of.second;
    match least_difference_declared(alloc, store, first, second, order)? {
        None => Ok(Verdict::Equal {
            role,
            name,
            size: None,
        }),
        Some(bits) => {
            let extras = arranged_extras(alloc, store, of, order, support)?;
            let levels = by_level(alloc, bits.as_slice(), order)?;
            let first = value(store, first, levels.as_slice());
            let second = value(store, second, levels.as_slice());
            Ok(Verdict::Differs {
                role,
                name,
                at: Bits::of(bits),
                first,
                second,
                extras,
            })
        }
    }
}

/// Returns the verdict of two functions in the order in which verdicts are reported.
fn reported_verdict(
    alloc: Global,
    store: &Store,
    of: &Diagrams<'_>,
    verdict_order: &VerdictOrder<'_>,
) -> Result<Verdict, AllocError>
    requires first_known { Has store.now of.now.first }
    requires second_known { Has store.now of.now.second }
    requires order { IsVerdictOrder store.now.levels verdict_order.now }
    ensures { IfOk result (λ v. IsVerdictOf store.now.levels (details_of verdict_order.now) everywhere
        (compared_of (as_reported verdict_order.now) store.now of.now.role of.now.name.now of.now.first of.now.second) v) }
{
    match verdict_order {
        VerdictOrder::ByLevel { asked } => verdict_of(alloc, store, of, *asked),
        VerdictOrder::Arranged { order, support } => {
            arranged_verdict(alloc, store, of, order, *support)
        }
    }
}

/// Returns the role, the name and the two diagrams of the pair at this place.
fn diagrams_of<'a>(of: &Comparison<'a>, place: usize) -> Diagrams<'a>
    requires place { place < length of.now.subjects.now }
    requires named { All (λ subject. subject.named < length of.now.first.now.names) of.now.subjects.now }
    requires two_for_each { length of.now.references.now ≡ length of.now.subjects.now + length of.now.subjects.now }
    ensures role { result.role ≡ (subject_at of.now.subjects.now place).role }
    ensures name { result.name.now ≡ name_of (circuit of.now.first.now) (subject_at of.now.subjects.now place).named }
    ensures first { result.first ≡ reference_of of.now.references.now place }
    ensures second { result.second ≡ reference_of of.now.references.now (length of.now.subjects.now + place) }
{
    let subject = of.subjects[place];
    Diagrams {
        role: subject.role,
        name: of.first.name(subject.named),
        first: of.references[place],
        second: of.references[of.subjects.len() + place],
    }
}

/// Returns the verdicts of all pairs, in their order.
fn verdicts_of_pairs(alloc: Global, of: &Comparison<'_>) -> Result<Vec<Verdict>, AllocError>
    requires compared { AreCompared (as_reported of.now.verdict_order) (circuit of.now.first.now) (circuit of.now.second.now)
        (condition of.now.given) of.now.pairing.now of.now.store.now of.now.subjects.now of.now.references.now }
    requires order { IsVerdictOrder of.now.store.now.levels of.now.verdict_order }
    ensures { IfOk result (λ v. HaveAllVerdicts (details_of of.now.verdict_order) (circuit of.now.first.now) (circuit of.now.second.now)
        (condition of.now.given) of.now.pairing.now v.items) }
{
    let mut verdicts = Vec::new(alloc);
    for i in 0..of.subjects.len() {
        let diagrams = diagrams_of(of, i);
        let verdict = reported_verdict(alloc, of.store, &diagrams, &of.verdict_order)?;
        verdicts.push(verdict)?;
    }
    Ok(verdicts)
}

/// Returns the verdicts of all pairs, then those of the outputs and registers without a partner, in the order of the
/// report. Fails if memory is refused.
pub fn verdicts_of(alloc: Global, of: &Comparison<'_>) -> Result<Vec<Verdict>, AllocError>
    requires compared { AreCompared (as_reported of.now.verdict_order) (circuit of.now.first.now) (circuit of.now.second.now)
        (condition of.now.given) of.now.pairing.now of.now.store.now of.now.subjects.now of.now.references.now }
    requires order { IsVerdictOrder of.now.store.now.levels of.now.verdict_order }
    ensures { IfOk result (λ v. AreVerdicts (details_of of.now.verdict_order) (circuit of.now.first.now) (circuit of.now.second.now)
        (condition of.now.given) of.now.pairing.now (record { variables = of.now.pairing.now.names; verdicts = v.items })) }
{
    let mut verdicts = verdicts_of_pairs(alloc, of)?;
    let naming = of.pairing.naming();
    add_first_unmatched(alloc, &mut verdicts, of.first, naming)?;
    add_second_unmatched(alloc, &mut verdicts, of.second, naming)?;
    Ok(verdicts)
}
