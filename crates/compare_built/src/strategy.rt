//! Strategies: where the order of the variables comes from, and which orders are tried.
ghost use Rattle.std.specs.Prelude.{◌≡◌};
ghost use Rattle.compare_built.specs.Attempts.{attempt_kind, attempt_text, candidate_kind, candidate_name, candidate_text, reported_kind};

use net_names::names::Names;
use net_names::order::Order;
use net_names::order_name::OrderName;
use report_text::OrderKind;

/// The most requests of one wave of an attempt, for each node of its budget. It bounds the memory of a wave by the
/// budget, and is reckoned into the limit that follows from `--memory` (docs/decisions/orders-and-attempts.md).
pub const REQUESTS_PER_NODE: u64 = 2;

/// One of the orders that are tried in turn; within the first budget they are tried in the sequence of the variants.
/// Each is computed from the netlists by `group_order`.
#[derive(Clone, Copy, Drop, Debug, PartialEq, Eq)]
pub enum Candidate {
    /// By falling number at the end of the names.
    MsbFirst,
    /// By dynamic weight assignment (Minato, Ishiura and Yajima 1990).
    Weights,
    /// By FORCE (Aloul, Markov and Sakallah 2003), with the selectors left out.
    ForceGroups,
}

impl Candidate {
    /// Returns the name of the candidate's order.
    pub fn order_name(self) -> OrderName
        ensures { result ≡ candidate_name self }
    {
        match self {
            Candidate::MsbFirst => OrderName::MsbFirst,
            Candidate::Weights => OrderName::Weights,
            Candidate::ForceGroups => OrderName::ForceGroups,
        }
    }

    /// Returns the same name as text: the keyword of `--order`, and the name in a report.
    pub fn name(self) -> &'static str
        ensures { result.now ≡ candidate_text self }
    {
        self.order_name().word()
    }

    /// Returns the order as a report names it.
    pub fn kind(self) -> OrderKind
        ensures { result ≡ candidate_kind self }
    {
        OrderKind::Named(self.order_name())
    }
}

/// The order of an attempt: that of a candidate, or declared order, in which only the last attempt of a run is made.
#[derive(Clone, Copy, Drop, Debug, PartialEq, Eq)]
pub enum AttemptOrder {
    Computed(Candidate),
    Declared,
}

impl AttemptOrder {
    /// Returns the name of the order as text, as a report has it.
    pub fn name(self) -> &'static str
        ensures { result.now ≡ attempt_text self }
    {
        match self {
            AttemptOrder::Computed(candidate) => candidate.name(),
            AttemptOrder::Declared => OrderName::Declared.word(),
        }
    }

    /// Returns the order as a report names it.
    pub fn kind(self) -> OrderKind
        ensures { result ≡ attempt_kind self }
    {
        match self {
            AttemptOrder::Computed(candidate) => candidate.kind(),
            AttemptOrder::Declared => OrderKind::Named(OrderName::Declared),
        }
    }
}

/// Where the order of the variables comes from, by the option `--order`.
#[derive(Drop)]
pub enum Strategy {
    /// A given order.
    One(Order),
    /// The order of this candidate, in one attempt within the limit.
    Computed(Candidate),
    /// The first candidate whose diagrams stay within a budget. All candidates are tried within one budget before the
    /// next, which is larger.
    Best,
    /// The first candidate whose diagrams stay within one of the small budgets. If there is none, equal signals of both
    /// netlists are merged, which decides pairs that are equal inside, and the other pairs are judged by their cones.
    /// The report is in declared order, whatever decides.
    Auto,
    /// Each pair by its cones, in orders of their own. The report is in declared order.
    Cones,
    /// As `Cones`, with an attempt in the order of a list before the others. Names of the list that are not variables
    /// of a pair's cones are ignored, and variables that the list lacks follow in declared order.
    ConesByList(Names),
    /// As `Cones`, after equal signals of both netlists were merged, which decides pairs that are equal inside.
    Merge,
}

impl Strategy {
    /// Returns the order as a report names it. `tried` is the attempt that has decided, if orders were tried.
    pub fn kind(&self, tried: Option<Attempt>) -> OrderKind
        ensures { result ≡ reported_kind self.now tried }
    {
        match (self, tried) {
            (Strategy::One(order), _) => OrderKind::of(order),
            (Strategy::Computed(candidate), _) => candidate.kind(),
            (Strategy::Best, Some(attempt)) => attempt.order.kind(),
            (Strategy::Best, None) => OrderKind::Named(OrderName::Declared),
            (Strategy::Auto, _) => OrderKind::Auto,
            (Strategy::Cones, _) | (Strategy::ConesByList(_), _) => OrderKind::Cones,
            (Strategy::Merge, _) => OrderKind::Merge,
        }
    }
}

/// An attempt: its order, and its budget, which is the most nodes that its diagrams may have.
#[derive(Clone, Copy, Drop, Debug, PartialEq, Eq)]
pub struct Attempt {
    pub order: AttemptOrder,
    pub budget: u64,
}
