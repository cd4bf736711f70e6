//! A gate with its operands, as an edge of the hypergraph on which FORCE works.
ghost use Rattle.std.specs.Prelude.{◌≡◌, length};
ghost use Rattle.net_order.specs.Force.{share_of};

use std::marker::Model;

/// Shares are fixed-point numbers: so many parts are 1.
pub const SHARE_UNIT: u64 = 16_777_216;

/// The share of one number in the mean of `count` numbers: 1 / count, rounded down, and 0 if there are none.
pub fn share_of(count: u64) -> u64
    ensures { result ≡ share_of count }
{
    if count == 0 { 0 } else { SHARE_UNIT / count }
}

/// The edge of a gate: the vertices of its operands, and last its own.
#[derive(Drop)]
pub struct Edge {
    vertices: Vec<usize>,
    share: u64,
}

impl Model for Edge {
    ghost use Rattle.std.specs.Prelude.{List, ℕ, ◌≡◌, length};
    ghost use Rattle.net_order.specs.Force.{share_of};

    ghost Value = { List ℕ };

    ghost view = { λ e. e.vertices.items };

    ghost invariant = { λ e. e.share ≡ share_of (length e.vertices.items) };
}

impl Edge {
    /// The edge of these vertices.
    pub fn of(vertices: Vec<usize>) -> Edge
        ensures { result ≡ vertices.items }
    {
        let share = share_of(vertices.len() as u64);
        Edge { vertices, share }
    }

    /// The vertices of the edge.
    pub fn vertices(&self) -> &[usize]
        ensures { result.now ≡ self.now }
    {
        self.vertices.as_slice()
    }

    /// The share of each vertex in the centre of the edge.
    pub fn share(&self) -> u64
        ensures { result ≡ share_of (length self.now) }
    {
        self.share
    }
}
