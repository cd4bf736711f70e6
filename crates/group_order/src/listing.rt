//! Orders as lists of names.
ghost use Rattle.std.specs.Prelude.{◌≡◌, ◌++◌, ◌∷◌, ◌<◌, ◌≤◌, [], All, length, map, IfOk, OnOk};
ghost use Rattle.std.specs.List.Sorted.{IsPermutation};
ghost use Rattle.net_order.specs.Force.{numbers_below};
ghost use Rattle.net_order.specs.Order.{numbered};
ghost use Rattle.net_names.specs.declared.order.Order.TheVariants.{Listed};

use net_names::names::Names;
use net_names::order::Order;
use std::alloc::{AllocError, Global};

/// Appends a name.
fn push_name(list: &mut Vec<Vec<u8>>, name: Vec<u8>) -> Result<(), AllocError>
    ensures { OnOk result (map (λ n. n.items) list.new.items ≡ map (λ n. n.items) list.old.items ++ name.items ∷ []) }
{
    list.push(name)?;
    Ok(())
}

/// The names of these numbers.
fn names_of(alloc: Global, names: &Names, numbers: &[usize]) -> Result<Vec<Vec<u8>>, AllocError>
    requires { All (λ v. v < length names.now) numbers.now }
    ensures { IfOk result (λ list. map (λ n. n.items) list.items ≡ numbered names.now numbers.now) }
{
    let mut list = Vec::new(alloc);
    for number in numbers {
        let name = Vec::from_slice(alloc, names.at(*number))?;
        push_name(&mut list, name)?;
    }
    Ok(list)
}

/// The list of the names of these numbers, which are the numbers of all names, each once.
pub fn listed(alloc: Global, names: &Names, numbers: &[usize]) -> Result<Order, AllocError>
    requires moved { IsPermutation (numbers_below (length names.now)) numbers.now }
    requires few { length names.now ≤ 4096 }
    ensures { IfOk result (λ o. o ≡ Listed (numbered names.now numbers.now)) }
{
    let list = names_of(alloc, names, numbers)?;
    Ok(Order::Listed(Names::of(list)))
}
