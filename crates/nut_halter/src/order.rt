//! The orders, and their texts.
ghost use Rattle.std.specs.Prelude.{◌≡◌};
ghost use Rattle.nut_halter.specs.Orders.{order_text, order_of};

/// An order to the process that halts the machine.
#[derive(Clone, Copy, PartialEq, Eq)]
pub enum Order {
    /// A second has passed.
    Second,
    /// A changed upsmon.conf is in force.
    Changed,
    /// The machine is to be halted.
    Halt,
    /// The machine is to be halted, with POWERDOWNFLAG.
    HaltFlagged,
}

const ALL: [Order; 4] = [
    Order::Second,
    Order::Changed,
    Order::Halt,
    Order::HaltFlagged,
];

impl Order {
    /// Returns its text: a line without its end.
    pub fn text(self) -> &'static [u8]
        ensures { result.now ≡ order_text self }
    {
        match self {
            Order::Second => b"second",
            Order::Changed => b"changed",
            Order::Halt => b"halt",
            Order::HaltFlagged => b"halt flag",
        }
    }

    /// Returns the order with this text. No other text is an order.
    #[tactic(auto, unfolding(crate::specs::Orders::order_of))]
    pub fn of(text: &[u8]) -> Option<Order>
        ensures { result ≡ order_of text.now }
    {
        ALL.iter().copied().find(|order| order.text() == text)
    }
}
