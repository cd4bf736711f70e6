//! The orders of the variables that have names.
ghost use Rattle.std.specs.Prelude.{◌≡◌};
ghost use Rattle.net_names.specs.OrderName.{order_of_word, word_of_order};

/// An order of the variables that has a name. `Order` says what most of them are, and `group_order` makes the last three.
#[derive(Clone, Copy, Drop, Debug, PartialEq, Eq)]
pub enum OrderName {
    Declared,
    Depth,
    Interleave,
    Index,
    Force,
    MsbFirst,
    Weights,
    ForceGroups,
}

impl OrderName {
    /// Its word: the keyword of `--order`, and its name in a report.
    pub fn word(self) -> &'static str
        ensures { result.now ≡ word_of_order self }
    {
        match self {
            OrderName::Declared => "declared",
            OrderName::Depth => "depth",
            OrderName::Interleave => "interleave",
            OrderName::Index => "index",
            OrderName::Force => "force",
            OrderName::MsbFirst => "msb-first",
            OrderName::Weights => "weights",
            OrderName::ForceGroups => "force-groups",
        }
    }

    /// The order that a word names.
    pub fn of_word(word: &str) -> Option<OrderName>
        ensures { result ≡ order_of_word word.now }
    {
        match word {
            "declared" => Some(OrderName::Declared),
            "depth" => Some(OrderName::Depth),
            "interleave" => Some(OrderName::Interleave),
            "index" => Some(OrderName::Index),
            "force" => Some(OrderName::Force),
            "msb-first" => Some(OrderName::MsbFirst),
            "weights" => Some(OrderName::Weights),
            "force-groups" => Some(OrderName::ForceGroups),
            _ => None,
        }
    }
}
