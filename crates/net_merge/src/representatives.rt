//! Representatives: the literals with which nodes are merged.
ghost use Rattle.std.specs.Prelude.{◌≡◌, ◌<◌, ◌≤◌, ◌+◌, [], length, OnOk, List};
ghost use Rattle.pair_graph.specs.declared.node.Node.{Node};
ghost use Rattle.pair_graph.specs.Graphs.{AreEquivalent, HasNode};
ghost use Rattle.net_merge.specs.Merging.{AreRepresentatives, representative_of};

use pair_graph::{Graph, Literal};
use std::alloc::{AllocError, Global};
use std::marker::Model;

/// For each of a graph's first nodes its representative: itself, or a literal of an older node that is equivalent.
#[derive(Drop)]
pub(crate) struct Representatives {
    literals: Vec<Literal>,
}

impl Model for Representatives {
    ghost use Rattle.std.specs.Prelude.{List};
    ghost use Rattle.pair_graph.specs.Literals.{Parts};

    ghost Value = { List Parts };

    ghost view = { λ r. r.literals.items };
}

/// Makes the first `count` nodes their own representatives, as far as they have none.
fn fill(literals: &mut Vec<Literal>, graph: &Graph, count: usize) -> Result<(), AllocError>
    requires representatives { AreRepresentatives graph.now literals.old.items }
    requires low { count ≤ length graph.now }
    ensures representatives { AreRepresentatives graph.now literals.new.items }
    ensures filled { OnOk result (count ≤ length literals.new.items) }
{
    let _ = graph.len(); // For the proof.
    for node in literals.len()..count {
        literals.push(Literal::new(node as u32, false))?;
    }
    Ok(())
}

impl Representatives {
    /// No node is merged: each is its own representative.
    pub(crate) fn new(alloc: Global) -> Representatives
        ensures value { result ≡ [] }
        ensures representatives { (g : List Node) → AreRepresentatives g result }
    {
        Representatives {
            literals: Vec::new(alloc),
        }
    }

    /// The representative of a literal: that of its node, complemented if the literal is.
    pub(crate) fn of(&self, literal: Literal) -> Literal
        ensures { result ≡ representative_of self.now literal }
    {
        let node = literal.node() as usize;
        if node < self.literals.len() {
            self.literals[node].complement_if(literal.is_complemented())
        } else {
            literal
        }
    }

    /// Makes a literal of an older node the representative of a newer one, to which it is equivalent.
    pub(crate) fn merge(
        &mut self,
        graph: &Graph,
        newer: Literal,
        older: Literal,
    ) -> Result<(), AllocError>
        requires representatives { AreRepresentatives graph.now self.old }
        requires newer { HasNode graph.now newer }
        requires older { older.node ≤ newer.node }
        requires equivalent { AreEquivalent graph.now newer older }
        ensures representatives { AreRepresentatives graph.now self.new }
        ensures merged { OnOk result (representative_of self.new newer ≡ older) }
    {
        let node = newer.node() as usize;
        fill(&mut self.literals, graph, node + 1)?;
        self.literals[node] = older.complement_if(newer.is_complemented());
        Ok(())
    }
}
