//! The process that halts the machine when another one orders it.
#![tactic(auto)]

mod order;

ghost use Rattle.std.specs.Prelude.{◌≡◌, [], ◌∷◌, ◌++◌, List, Option, option_map, IfSome, IfNone};
ghost use Rattle.std.specs.List.{AllByRecursion};
ghost use Rattle.nut_halter.specs.Obeyed.{Deed, LookedAfter, TookUp, TriedFlag, RanShutdown, IsQuiet, IsHalt, IsNoHalt, IsObeyed, Obeys, deeds_of, does};

pub use order::Order;

/// Where orders come from.
pub trait Orders {
    ghost use Rattle.nut_halter.specs.declared.order.Order.{Order};

    /// What was given, the newest first; none if that isn't recorded.
    ghost given: { Self → Option (List Order) };

    /// Returns the next order, or none if no more come.
    fn next(&mut self) -> Option<Order>
        ensures { IfSome result (λ order. given self.new ≡ option_map (λ earlier. order ∷ earlier) (given self.old)) };
}

/// Whoever halts the machine.
pub trait Halter {
    /// What became of SHUTDOWNCMD.
    type Halted: Drop;

    /// What it did, the newest first; none if it doesn't record that.
    ghost log: { Self → Option (List Deed) };

    /// Looks after what waits to run SHUTDOWNCMD.
    fn second(&mut self)
        ensures { log self.new ≡ does LookedAfter (log self.old) };

    /// Prepares the halt of a changed upsmon.conf, and gives up the former one if that succeeds.
    fn take_up(&mut self)
        ensures { log self.new ≡ does TookUp (log self.old) };

    /// Tries to set POWERDOWNFLAG.
    fn set_flag(&mut self)
        ensures { log self.new ≡ does TriedFlag (log self.old) };

    /// Runs SHUTDOWNCMD, and waits for its end.
    fn run_shutdown(&mut self) -> Self::Halted
        ensures { log self.new ≡ does RanShutdown (log self.old) };
}

/// Obeys each order in turn, up to the first one to halt. The halt is done once and last, and POWERDOWNFLAG is set before
/// SHUTDOWNCMD runs. Returns what became of SHUTDOWNCMD, or none if the orders end before: then no part of a halt was done.
pub fn obey<O: Orders, H: Halter>(orders: &mut O, halter: &mut H) -> Option<H::Halted>
    requires nothing_given { IfSome (O.given orders.old) (λ given. given ≡ []) }
    requires nothing_done { IfSome (H.log halter.old) (λ deeds. deeds ≡ []) }
    ensures halted { IfSome result (λ _. IsObeyed (O.given orders.new) (H.log halter.new)) }
    ensures ended { IfNone result (IfSome (H.log halter.new) (AllByRecursion IsQuiet)) }
    ensures each { IfSome result (λ _. Obeys (O.given orders.new) (H.log halter.new)) }
{
    for _ in 0..u64::MAX {
        let order = orders.next()?;
        if let Some(halted) = follow(order, halter) {
            return Some(halted);
        }
    }
    None
}

/// Obeys an order. Returns what became of SHUTDOWNCMD if the order is to halt.
fn follow<H: Halter>(order: Order, halter: &mut H) -> Option<H::Halted>
    ensures done { H.log halter.new ≡ option_map (λ before. deeds_of order ++ before) (H.log halter.old) }
    ensures halted { IfSome result (λ _. IsHalt order) }
    ensures goes_on { IfNone result (IsNoHalt order) }
{
    match order {
        Order::Second => {
            halter.second();
            None
        }
        Order::Changed => {
            halter.take_up();
            None
        }
        Order::Halt => Some(halter.run_shutdown()),
        Order::HaltFlagged => {
            halter.set_flag();
            Some(halter.run_shutdown())
        }
    }
}
