//! The findings of a comparison.
ghost use Rattle.std.specs.Prelude.{◌≡◌};
ghost use Rattle.report_text.specs.Lines.{counted};

use net_names::names::Names;
use net_order::naming::Naming;
use report_text::{Outcome, Verdict, outcome_of};
use std::marker::Model;

/// The findings of a comparison: the naming of its netlists, and a verdict for each line of the report, in the order of
/// the report.
#[derive(Drop)]
pub struct Verdicts {
    naming: Naming,
    list: Vec<Verdict>,
}

impl Model for Verdicts {
    ghost use Rattle.compare_built.specs.Findings.{VerdictsModel};

    ghost Value = { VerdictsModel };

    ghost view = { λ a. record { naming = a.naming; verdicts = a.list.items } };
}

impl Verdicts {
    /// Returns the findings with these verdicts, whose assignments are over the variables of the naming.
    pub fn of(naming: Naming, list: Vec<Verdict>) -> Verdicts
        ensures { result ≡ record { naming = naming; verdicts = list.items } }
    {
        Verdicts { naming, list }
    }

    /// Returns the naming of the netlists that were compared. The assignments of the verdicts are over its variables.
    pub fn naming(&self) -> &Naming
        ensures { result.now ≡ self.now.naming }
    {
        &self.naming
    }

    /// Returns the names of the variables, by level.
    pub fn variables(&self) -> &Names
        ensures { result.now ≡ self.now.naming.names }
    {
        self.naming.names()
    }

    /// Returns the verdicts in the order of the report: the pairs of outputs, those of next states, and last the
    /// outputs and registers without a partner.
    pub fn as_slice(&self) -> &[Verdict]
        ensures { result.now ≡ self.now.verdicts }
    {
        self.list.as_slice()
    }

    /// Returns how many verdicts there are of each kind.
    pub fn outcome(&self) -> Outcome
        ensures { result ≡ counted self.now.verdicts }
    {
        outcome_of(self.list.as_slice())
    }
}
