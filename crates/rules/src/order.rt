//! How two operations are ordered.
ghost use Rattle.std.specs.Prelude.{Some};
ghost use Rattle.rules.specs.Names.{order_name};

use std::fmt;

/// How the first of two held operations stands to the second.
#[derive(Clone, Copy, PartialEq, Eq, Debug)]
pub enum Order {
    Same,
    Before,
    After,
    Unordered,
}

impl fmt::Display for Order {
    ghost output = { λ o. Some (order_name o) };

    fn fmt<W: fmt::Write>(&self, f: &mut fmt::Formatter<W>) -> fmt::Result {
        f.write_str(match self {
            Order::Same => "same",
            Order::Before => "before",
            Order::After => "after",
            Order::Unordered => "unordered",
        })
    }
}
