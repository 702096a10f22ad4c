//! How many rows there are, and what they come to.

ghost use Rattle.std.specs.Prelude.{◌≡◌, ◌≤◌, ◌*◌, ◌+◌, ◌^◌, ◌+ℤ◌, unsigned_abs};

/// The number and the sum of rows of two kinds.
pub(crate) fn both(own: (u64, i128), more: (u64, i128)) -> (u64, i128)
    requires own { own.0 ≤ 4 * 10 ^ 18 }
    requires own_sum { unsigned_abs own.1 ≤ 10 ^ 36 }
    requires more { more.0 ≤ 10 ^ 18 }
    requires more_sum { unsigned_abs more.1 ≤ 10 ^ 36 }
    ensures count { result.0 ≡ own.0 + more.0 }
    ensures sum { result.1 ≡ own.1 +ℤ more.1 }
    ensures size { unsigned_abs result.1 ≤ unsigned_abs own.1 + unsigned_abs more.1 }
{
    (own.0 + more.0, own.1 + more.1)
}
