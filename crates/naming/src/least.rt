ghost use Rattle.std.specs.Prelude.{◌≡◌};
ghost use Rattle.naming.specs.Least.{merged};

// The smaller of two places, as far as there are any.
pub fn earlier(a: Option<usize>, b: Option<usize>) -> Option<usize>
    ensures { result ≡ merged a b }
{
    match (a, b) {
        (Some(p), Some(q)) => Some(p.min(q)),
        _ => a.or(b),
    }
}
