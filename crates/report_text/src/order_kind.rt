//! The order of the variables as a report names it.
ghost use Rattle.std.specs.Prelude.{◌≡◌};
ghost use Rattle.report_text.specs.Json.{kind_of};

use net_names::order::Order;
use net_names::order_name::OrderName;

/// The order of the variables: one of the orders that have names; one from a file; `Auto`, which does not report the
/// order that decided; or orders for each pair by its cones, after a merging of equal signals (`Merge`) or without it (`Cones`).
#[derive(Clone, Copy, Drop, Debug, PartialEq, Eq)]
pub enum OrderKind {
    Named(OrderName),
    File,
    Auto,
    Cones,
    Merge,
}

impl OrderKind {
    /// The kind of an order.
    pub fn of(order: &Order) -> OrderKind
        ensures { result ≡ kind_of order.now }
    {
        match order {
            Order::Declared => OrderKind::Named(OrderName::Declared),
            Order::Depth => OrderKind::Named(OrderName::Depth),
            Order::Interleave => OrderKind::Named(OrderName::Interleave),
            Order::Index => OrderKind::Named(OrderName::Index),
            Order::Force => OrderKind::Named(OrderName::Force),
            Order::Listed(_) | Order::Extended(_) => OrderKind::File,
        }
    }
}
