ghost use Rattle.std.specs.Prelude.{◌≡◌};
ghost use Rattle.naming.specs.Resolving.{operator_of, comparison_of};

use language::{Comparison, Operator};
use letters::{Kind, Token};

// The operator that a sign stands for. Kinds and operators are of other crates, so there is no From; the same holds of comparisons.
#[tactic(auto, unfolding(letters::specs::Kinds::same_kind))]
pub(crate) fn operator_of(sign: Token) -> Operator
    ensures { result ≡ operator_of sign.kind }
{
    match sign.kind {
        Kind::Plus => Operator::Sum,
        Kind::Minus => Operator::Difference,
        _ => Operator::Product,
    }
}

// The comparison that a sign stands for.
#[tactic(auto, unfolding(letters::specs::Kinds::same_kind))]
pub(crate) fn comparison_of(sign: Token) -> Comparison
    ensures { result ≡ comparison_of sign.kind }
{
    match sign.kind {
        Kind::Less => Comparison::Less,
        Kind::AtMost => Comparison::LessOrEqual,
        Kind::Equal => Comparison::Equal,
        _ => Comparison::NotEqual,
    }
}
