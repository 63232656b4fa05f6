//! The passes of a gate for two.
ghost use Rattle.std.specs.Prelude.{◌≡◌, ◌∷◌, [], vec_len};

/// The two items of a list.
pub fn both_of<T: Drop>(mut items: Vec<T>) -> (T, T)
    requires { vec_len items ≡ 2 }
    ensures { items.items ≡ result.0 ∷ result.1 ∷ [] }
{
    let second = items.pop().unwrap();
    let first = items.pop().unwrap();
    (first, second)
}
