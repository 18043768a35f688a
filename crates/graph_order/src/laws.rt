//! The law of orders.
ghost use Rattle.std.specs.Prelude.{ℕ, List};
ghost use Rattle.graph_order.specs.Orders.{OrderLaw};

/// The law of orders, which its contract states: where the nodes stand in an order there is no cycle. It does nothing when it is
/// called.
pub fn an_order_leaves_no_cycle()
    ensures { (nodes : ℕ) (sources targets order : List ℕ) → OrderLaw nodes sources targets order }
{}
