// What a gate computes, in each bit of its operands' values.
ghost use Rattle.std.specs.Prelude.{◌≡◌, ◌<◌, ℕ, length, map, All};
ghost use Rattle.net_bench.specs.Labels.{all_ones, bit_of, folded, is_complemented, odd, some_one, value_of};
ghost use Rattle.net_simulate.specs.Columns.{column};

use crate::packing::Packed;
use net_bench::netlist::{Kind, Signal};

/// In each bit 1 if all operands are 1.
fn all_ones<V: Packed>(operands: &[Signal], values: &[V]) -> V
    requires { All (λ s. s < length values.now) operands.now }
    ensures { (i : ℕ) → i < V.count → V.bit i result ≡ all_ones (map (bit_of (column V.bit i values.now)) operands.now) }
{
    let mut all = V::ones();
    for place in 0..operands.len() {
        let value = values[operands[place].number() as usize];
        all.and_with(&value);
    }
    all
}

/// In each bit 1 if an operand is 1.
fn some_one<V: Packed>(operands: &[Signal], values: &[V]) -> V
    requires { All (λ s. s < length values.now) operands.now }
    ensures { (i : ℕ) → i < V.count → V.bit i result ≡ some_one (map (bit_of (column V.bit i values.now)) operands.now) }
{
    let mut some = V::zeros();
    for place in 0..operands.len() {
        let value = values[operands[place].number() as usize];
        some.or_with(&value);
    }
    some
}

/// In each bit 1 if an odd number of operands are 1.
fn odd<V: Packed>(operands: &[Signal], values: &[V]) -> V
    requires { All (λ s. s < length values.now) operands.now }
    ensures { (i : ℕ) → i < V.count → V.bit i result ≡ odd (map (bit_of (column V.bit i values.now)) operands.now) }
{
    let mut odd = V::zeros();
    for place in 0..operands.len() {
        let value = values[operands[place].number() as usize];
        odd.xor_with(&value);
    }
    odd
}

/// The value of the operation that folds the operands of a gate of this kind: And, Or or Xor.
fn folded<V: Packed>(kind: Kind, operands: &[Signal], values: &[V]) -> V
    requires { All (λ s. s < length values.now) operands.now }
    ensures { (i : ℕ) → i < V.count → V.bit i result ≡ folded kind (map (bit_of (column V.bit i values.now)) operands.now) }
{
    match kind {
        Kind::And | Kind::Nand | Kind::Not | Kind::Buff | Kind::Dff => all_ones(operands, values),
        Kind::Or | Kind::Nor => some_one(operands, values),
        Kind::Xor | Kind::Xnor => odd(operands, values),
    }
}

/// Whether a gate's value is the complement of the folded one.
fn is_complemented(kind: Kind) -> bool
    ensures { result ≡ is_complemented kind }
{
    matches!(kind, Kind::Nand | Kind::Nor | Kind::Xnor | Kind::Not)
}

/// The value of a gate of this kind, from the values of its operands.
pub fn value_of<V: Packed>(kind: Kind, operands: &[Signal], values: &[V]) -> V
    requires { All (λ s. s < length values.now) operands.now }
    ensures { (i : ℕ) → i < V.count → V.bit i result ≡ value_of kind (map (bit_of (column V.bit i values.now)) operands.now) }
{
    let mut value = folded(kind, operands, values);
    if is_complemented(kind) {
        let ones = V::ones();
        value.xor_with(&ones);
    }
    value
}
