//! References to nodes, with complement bits.
ghost use Rattle.std.specs.Prelude.{◌≡◌, ◌^◌, ◌<◌, Bool, List, false, not};
ghost use Rattle.dd_store.specs.Complements.{is_complement, complement_by, complement_both, negate_of};
ghost use Rattle.dd_store.specs.Nodes.{Nodes, den};
ghost use Rattle.dd_store.specs.Order.{ref_cmp};
ghost use Rattle.dd_store.specs.Words.{word_of, reference_of, IsWord, is_terminal};

use crate::words::{LONG, node_of, node_word};
use slot_table::SlotHash;
use std::cmp::Ordering;
use std::fmt;
use std::hash::{Hash, Hasher};
use std::marker::Model;

/// The number of shards of each level.
pub const SHARDS: usize = 16;

/// The name of a node in its store: its level, its shard of that level, and its place in that shard, counted from 0. A
/// node keeps its name for as long as the store lives.
#[derive(Clone, Copy, Debug, PartialEq, Eq, PartialOrd, Ord, Hash)]
pub struct NodeId {
    pub level: u16,
    pub shard: u8,
    /// The place in the shard, in the order of making.
    pub index: u32,
}

/// What a reference refers to: a terminal or a node, with a complement bit or without. There is one terminal, True;
/// False is True with a complement bit. The order is False, True, then nodes by level, shard and place, and of one node
/// first the reference without a complement bit.
#[derive(Clone, Copy, Debug, PartialEq, Eq, PartialOrd, Ord)]
pub enum Reference {
    /// The terminal of the function that is 0 everywhere.
    False,
    /// The terminal of the function that is 1 everywhere.
    True,
    Node { id: NodeId, complement: bool },
}

/// A reference: a terminal or a node of a store, perhaps with a complement bit. It is eight bytes, of which four
/// suffice for most. References are ordered as what they refer to.
#[derive(Clone, Copy)]
pub struct Ref {
    /// 0 for False and 1 for True. For a node: from above its level plus 1, its shard and its place, in the narrowest
    /// of three forms (`words`), and in bit 0 the complement bit. So a reference and its complement differ only in bit
    /// 0.
    word: u64,
}

const _: () = prove!(size_of::<Ref>() == 8);

impl Model for Ref {
    ghost use Rattle.dd_store.specs.declared.reference.Reference.{Reference};

    ghost Value = { Reference };

    ghost use Rattle.dd_store.specs.Words.{word_of, reference_of, IsWord};
    ghost use Rattle.dd_store.specs.WordLaws.{word_of-reference_of};

    ghost view = { λ r. reference_of r.word };

    ghost inverse = { λ r. record { word = word_of r } };

    ghost inverse_ok = { λ r h i. record { word = word_of-reference_of r.word h i } };

    ghost invariant = { λ r. IsWord r.word };
}

impl Ref {
    /// The terminal of the function that is 0 everywhere.
    pub const FALSE: Ref = Ref { word: 0 };
    /// The terminal of the function that is 1 everywhere.
    pub const TRUE: Ref = Ref { word: 1 };

    /// Returns the reference to a node, without a complement bit.
    #[inline(always)]
    pub fn node(id: NodeId) -> Ref
        ensures { result ≡ Reference.Node id false }
    {
        Ref {
            word: node_word(id),
        }
    }

    /// Returns the reference that denotes the complement of this one's function. It makes no node and cannot be
    /// refused.
    pub fn negate(self) -> Ref
        ensures value { result ≡ negate_of self }
        ensures meaning { (S : Nodes) (x : List Bool) → den S result x ≡ not (den S self x) }
    {
        self.complement_if(true)
    }

    /// Whether the reference has a complement bit. False has one, since it is the complement of True.
    pub fn is_complement(self) -> bool
        ensures { result ≡ is_complement self }
    {
        (self.word + self.is_terminal() as u64) % 2 == 1
    }

    /// Returns the complement if `complement` is set, and otherwise the reference itself.
    pub fn complement_if(self, complement: bool) -> Ref
        ensures { result ≡ complement_by complement self }
    {
        Ref {
            word: self.word ^ complement as u64,
        }
    }

    /// Returns what the reference refers to.
    pub fn view(self) -> Reference
        ensures { result ≡ self }
    {
        match self.word {
            0 => Reference::False,
            1 => Reference::True,
            word => Reference::Node {
                id: node_of(word),
                complement: word % 2 == 1,
            },
        }
    }

    /// Whether the reference is True or False.
    pub fn is_terminal(self) -> bool
        ensures { result ≡ is_terminal self }
    {
        self.word < 2
    }

    /// Returns the reference as a number, its word. Different references have different words.
    pub fn word(self) -> u64
        ensures word { result ≡ word_of self }
        ensures within { IsWord result }
        ensures back { reference_of result ≡ self }
        ensures small { result < 2 ^ 58 }
    {
        self.word
    }

    /// Returns the reference that has this word.
    pub fn of_word(word: u64) -> Ref
        requires { IsWord word }
        ensures { result ≡ reference_of word }
    {
        Ref { word }
    }
}

impl SlotHash for Ref {
    ghost use Rattle.dd_store.specs.Words.{word_of};
    ghost use Rattle.dd_store.specs.Equal.{ref_same};

    ghost slot_hash_of = { word_of };

    fn slot_hash(&self) -> u64 {
        self.word
    }

    ghost same = { ref_same };
}

impl fmt::Debug for Ref {
    fn fmt<W: fmt::Write>(&self, f: &mut fmt::Formatter<W>) -> fmt::Result {
        self.view().fmt(f)
    }
}

impl PartialEq for Ref {
    ghost use Rattle.dd_store.specs.contracts.reference.ReferencePartialEq.TheImpl.{eq-value};
    ghost use Rattle.dd_store.specs.contracts.reference.ReferencePartialEq.TheImpl.Laws.{laws-law};

    ghost eq = { eq-value.it };

    ghost laws = { laws-law };

    fn eq(&self, other: &Ref) -> bool {
        self.word == other.word
    }
}

impl Eq for Ref {
    ghost use Rattle.dd_store.specs.contracts.reference.ReferenceEq.TheImpl.Laws.{laws-law};

    ghost laws = { laws-law };
}

impl Ord for Ref {
    ghost use Rattle.dd_store.specs.Order.{ref_cmp};
    ghost use Rattle.dd_store.specs.contracts.reference.ReferenceOrd.TheImpl.Laws.{total-law, matches_partial_cmp-law, matches_eq-law};

    ghost cmp = { ref_cmp };

    ghost total = { total-law };

    ghost matches_partial_cmp = { matches_partial_cmp-law };

    ghost matches_eq = { matches_eq-law };

    #[inline(always)]
    fn cmp(&self, other: &Ref) -> Ordering {
        if self.word < LONG && other.word < LONG {
            self.word.cmp(&other.word)
        } else {
            view_cmp(*self, *other)
        }
    }
}

/// Compares two references by what they refer to. Unlike a comparison of words it is right for each of the three forms.
#[inline(never)]
fn view_cmp(first: Ref, second: Ref) -> Ordering
    ensures { result ≡ ref_cmp first second }
{
    first.view().cmp(&second.view())
}

impl PartialOrd for Ref {
    ghost use Rattle.dd_store.specs.contracts.reference.ReferencePartialOrd.TheImpl.{partial_cmp-value};
    ghost use Rattle.dd_store.specs.contracts.reference.ReferencePartialOrd.TheImpl.Laws.{laws-law};

    ghost partial_cmp = { partial_cmp-value.it };

    ghost laws = { laws-law };

    #[inline(always)]
    fn partial_cmp(&self, other: &Ref) -> Option<Ordering> {
        Some(self.cmp(other))
    }
}

impl Hash for Ref {
    ghost use Rattle.std.specs.Hash as fed;
    ghost use Rattle.dd_store.specs.Words.{word_of};
    ghost use Rattle.dd_store.specs.WordLaws.{same_word};
    ghost use Rattle.std.proofs.Common.{ap};

    ghost hash_input = { λ r. fed.u64 (word_of r) };

    ghost respects_eq = { λ x y e. ap fed.u64 (same_word x y e) };

    fn hash<H: Hasher>(&self, state: &mut H) {
        self.word.hash(state);
    }
}

/// Returns both references, complemented if `complement` is set.
pub(crate) fn complement_pair(pair: (Ref, Ref), complement: bool) -> (Ref, Ref)
    ensures { result ≡ complement_both complement pair }
{
    (
        pair.0.complement_if(complement),
        pair.1.complement_if(complement),
    )
}
