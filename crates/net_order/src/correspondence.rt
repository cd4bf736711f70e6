//! Which signals of two netlists correspond to each other, and which only one of them has.
ghost use Rattle.std.specs.Prelude.{IfOk, ◌≡◌, ℕ, ◌<◌, length, false, All, slice_index, slice_index_or, zip};
ghost use Rattle.net_bench.specs.Circuit.{circuit};
ghost use Rattle.net_order.specs.Order.{HaveEqualLength, correspondence, is_member, name_of, pairs_by_name, signal_named, unmatched};

use net_bench::netlist::{Netlist, Signal};
use net_names::order::Match;
use std::alloc::{AllocError, Global};
use std::marker::Model;

/// Signals of two netlists that are compared: the pairs, and those of either that are in none.
#[derive(Drop)]
pub struct Correspondence {
    pairs: Vec<(Signal, Signal)>,
    only_first: Vec<Signal>,
    only_second: Vec<Signal>,
}

impl Model for Correspondence {
    ghost use Rattle.net_order.specs.Order.{CorrespondenceModel};

    ghost Value = { CorrespondenceModel };

    ghost view = { λ a. record {
      pairs = a.pairs.items;
      only_first = a.only_first.items;
      only_second = a.only_second.items;
    } };
}

impl Correspondence {
    /// The pairs, the first netlist's signal first.
    pub fn pairs(&self) -> &[(Signal, Signal)]
        ensures { result.now ≡ self.now.pairs }
    {
        self.pairs.as_slice()
    }

    /// The first netlist's signals that are in no pair.
    pub fn only_first(&self) -> &[Signal]
        ensures { result.now ≡ self.now.only_first }
    {
        self.only_first.as_slice()
    }

    /// The second netlist's signals that are in no pair.
    pub fn only_second(&self) -> &[Signal]
        ensures { result.now ≡ self.now.only_second }
    {
        self.only_second.as_slice()
    }
}

/// Signals of one netlist that are to be compared. `seen` says for each signal of the netlist whether it is one of them.
#[derive(Drop)]
struct ComparedSignals<'a> {
    net: &'a Netlist,
    signals: &'a [Signal],
    seen: Vec<bool>,
}

impl<'a> Model for ComparedSignals<'a> {
    ghost use Rattle.net_bench.specs.Circuit.{circuit};
    ghost use Rattle.net_order.specs.Tables.{ComparedSignalsModel, AreComparedSignals};

    ghost Value = { ComparedSignalsModel };

    ghost view = { λ c. record { net = circuit c.net.now; signals = c.signals.now } };

    ghost invariant = { λ c. AreComparedSignals c.net.now c.signals.now c.seen.items };
}

/// For each signal below `count` whether it is among these.
fn membership_of(alloc: Global, count: usize, signals: &[Signal]) -> Result<Vec<bool>, AllocError>
    requires { All (λ s. s < count) signals.now }
    ensures len { IfOk result (λ v. length v.items ≡ count) }
    ensures seen { IfOk result (λ v. (s : ℕ) → s < count → slice_index_or v.items s false ≡ is_member s signals.now) }
{
    let mut seen = Vec::from_elem(alloc, false, count)?;
    for signal in signals {
        seen[signal.number() as usize] = true;
    }
    Ok(seen)
}

impl<'a> ComparedSignals<'a> {
    /// These signals of a netlist.
    fn new(
        alloc: Global,
        net: &'a Netlist,
        signals: &'a [Signal],
    ) -> Result<ComparedSignals<'a>, AllocError>
        requires { All (λ s. s < length net.now.names) signals.now }
        ensures { IfOk result (λ c. c ≡ record { net = circuit net.entry.now; signals = signals.entry.now }) }
    {
        let seen = membership_of(alloc, net.count(), signals)?;
        Ok(ComparedSignals { net, signals, seen })
    }

    /// The signals.
    fn signals(&self) -> &[Signal]
        ensures { result.now ≡ self.now.signals }
    {
        self.signals
    }

    /// The name of the signal at this place among them.
    fn name_at(&self, place: usize) -> &[u8]
        requires { place < length self.now.signals }
        ensures { result.now ≡ name_of self.now.net (slice_index self.now.signals place) }
    {
        self.net.name(self.signals[place])
    }

    /// The signal of this name, if it is one of them.
    fn find_named(&self, name: &[u8]) -> Option<Signal>
        ensures { result ≡ signal_named self.now.net self.now.signals name.now }
    {
        match self.net.find(name) {
            Some(signal) => if self.seen[signal.number() as usize] {
                Some(signal)
            } else {
                None
            },
            None => None,
        }
    }
}

/// Each of our signals with the one of the same name among theirs, if there is one.
fn pairs_of(
    alloc: Global,
    ours: &ComparedSignals<'_>,
    theirs: &ComparedSignals<'_>,
) -> Result<Vec<(Signal, Signal)>, AllocError>
    ensures { IfOk result (λ v. v.items ≡ pairs_by_name ours.now.net theirs.now.net theirs.now.signals ours.now.signals) }
{
    let mut pairs = Vec::new(alloc);
    let signals = ours.signals();
    for i in 0..signals.len() {
        match theirs.find_named(ours.name_at(i)) {
            Some(other) => pairs.push((signals[i], other))?,
            None => {}
        }
    }
    Ok(pairs)
}

/// Our signals for whose names there is none among theirs.
fn without_partner(
    alloc: Global,
    ours: &ComparedSignals<'_>,
    theirs: &ComparedSignals<'_>,
) -> Result<Vec<Signal>, AllocError>
    ensures { IfOk result (λ v. v.items ≡ unmatched ours.now.net theirs.now.net theirs.now.signals ours.now.signals) }
{
    let mut without_partner = Vec::new(alloc);
    let signals = ours.signals();
    for i in 0..signals.len() {
        match theirs.find_named(ours.name_at(i)) {
            Some(_) => {}
            None => without_partner.push(signals[i])?,
        }
    }
    Ok(without_partner)
}

/// The pairs by position: signal i of the one with signal i of the other.
fn paired_by_position(
    alloc: Global,
    left: &[Signal],
    right: &[Signal],
) -> Result<Vec<(Signal, Signal)>, AllocError>
    requires { length left.now ≡ length right.now }
    ensures { IfOk result (λ v. v.items ≡ zip left.now right.now) }
{
    let mut pairs = Vec::new(alloc);
    for i in 0..left.len() {
        pairs.push((left[i], right[i]))?;
    }
    Ok(pairs)
}

/// How these signals of the first netlist correspond to those of the second.
pub fn correspond(
    alloc: Global,
    first: &Netlist,
    second: &Netlist,
    how: Match,
    signals: &[Signal],
    others: &[Signal],
) -> Result<Correspondence, AllocError>
    requires counted { HaveEqualLength how signals.now others.now }
    requires first_known { All (λ s. s < length first.now.names) signals.now }
    requires second_known { All (λ s. s < length second.now.names) others.now }
    ensures { IfOk result (λ c. c ≡ correspondence how (circuit first.now) (circuit second.now) signals.now others.now) }
{
    match how {
        Match::Name => {
            let ours = ComparedSignals::new(alloc, first, signals)?;
            let theirs = ComparedSignals::new(alloc, second, others)?;
            let pairs = pairs_of(alloc, &ours, &theirs)?;
            let only_first = without_partner(alloc, &ours, &theirs)?;
            let only_second = without_partner(alloc, &theirs, &ours)?;
            Ok(Correspondence {
                pairs,
                only_first,
                only_second,
            })
        }
        Match::Position => {
            let pairs = paired_by_position(alloc, signals, others)?;
            Ok(Correspondence {
                pairs,
                only_first: Vec::new(alloc),
                only_second: Vec::new(alloc),
            })
        }
    }
}
