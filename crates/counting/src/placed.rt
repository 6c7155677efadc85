ghost use Rattle.std.specs.Prelude.{◌≡◌, ℕ, Some, Option};
ghost use Rattle.counting.specs.Counts.{expr_place};

use records::{Condition, Node, Tabled};

// What lies in a table and may have a place in the text.
pub trait Placed: Tabled {
    ghost place: { Self → Option ℕ };

    fn place(self) -> Option<usize>
        ensures { result ≡ place self };
}

// Expressions have places, links of arguments have none.
impl Placed for Node {
    ghost place = { expr_place };

    fn place(self) -> Option<usize> {
        match self {
            Node::Num { place, .. }
            | Node::Name { place, .. }
            | Node::Calc { place, .. }
            | Node::Read { place, .. }
            | Node::Call { place, .. }
            | Node::Bind { place, .. }
            | Node::Test { place, .. }
            | Node::Put { place, .. }
            | Node::Claim { place, .. } => Some(place),
            Node::Blank | Node::End | Node::Value { .. } | Node::Lent { .. } => None,
        }
    }
}

impl Placed for Condition {
    ghost place = { λ c. Some c.place };

    fn place(self) -> Option<usize> {
        Some(self.place)
    }
}
