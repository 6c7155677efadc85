ghost use Rattle.std.specs.Prelude.{◌≡◌, ℕ, ◌<◌, Ok, Err, IfOk, IfErr, length, slice_index_or};

// What f makes of each element, or the first refusal.
// std's `try_map` does not fit: what it ensures of the calls forgets what f holds.
pub fn try_each<X: Copy, Y: Copy + Default, E, const N: usize, F: Fn(X) -> Result<Y, E>>(
    xs: &[X; N],
    f: F,
) -> Result<[Y; N], E>
    requires { F.IsAlwaysCallable f }
    ensures made { IfOk result (λ ys. (length ys ≡ N) × ((i : ℕ) (x : X) (y : Y) → i < N → F.post f (slice_index_or xs.now i x) (Ok (slice_index_or ys i y)))) }
    ensures refused { IfErr result (λ e. (i : ℕ) × (x : X) × (i < N) × F.post f (slice_index_or xs.now i x) (Err e)) }
{
    let mut ys = [Y::default(); N];
    for (i, x) in xs.iter().enumerate() {
        ys[i] = f(*x)?;
    }
    Ok(ys)
}
