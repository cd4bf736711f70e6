//! Trivial cases of operations, which need no node, and the order of operands.
ghost use Rattle.std.specs.Prelude.{◌≡◌, ◌⊎◌, IfSome};
ghost use Rattle.pair_graph.specs.Trivial.{IsTrivial, conjunction};
ghost use Rattle.pair_graph.specs.Graphs.{exclusive_or};

use crate::literal::Literal;

/// Returns the And of two literals if it needs no node: one of them is a constant, or they are equal or complements.
pub(crate) fn trivial_and(first: Literal, second: Literal) -> Option<Literal>
    ensures { IfSome result (IsTrivial conjunction first second) }
{
    if first.is_constant() {
        return Some(if first.is_complemented() {
            second
        } else {
            Literal::FALSE
        });
    }
    if second.is_constant() {
        return Some(if second.is_complemented() {
            first
        } else {
            Literal::FALSE
        });
    }
    if first.node() != second.node() {
        return None;
    }
    if first.is_complemented() == second.is_complemented() {
        return Some(first);
    }
    Some(Literal::FALSE)
}

/// Returns the Xor of two literals if it needs no node, in the same cases.
pub(crate) fn trivial_xor(first: Literal, second: Literal) -> Option<Literal>
    ensures { IfSome result (IsTrivial exclusive_or first second) }
{
    if first.is_constant() {
        return Some(second.complement_if(first.is_complemented()));
    }
    if second.is_constant() {
        return Some(first.complement_if(second.is_complemented()));
    }
    if first.node() != second.node() {
        return None;
    }
    Some(Literal::FALSE.complement_if(first.is_complemented() != second.is_complemented()))
}

/// Whether exactly one of two literals is complemented.
pub(crate) fn one_complemented(first: Literal, second: Literal) -> bool
    ensures { result ≡ exclusive_or first.complemented second.complemented }
{
    first.is_complemented() != second.is_complemented()
}

/// Returns two literals, the one of the lower word first, so that both orders of two operands have one node.
pub(crate) fn in_order(first: Literal, second: Literal) -> (Literal, Literal)
    ensures { (result ≡ (first, second)) ⊎ (result ≡ (second, first)) }
{
    if second.word() < first.word() {
        (second, first)
    } else {
        (first, second)
    }
}
