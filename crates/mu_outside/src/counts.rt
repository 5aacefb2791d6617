ghost use Rattle.std.specs.Prelude.{◌≡◌};
ghost use Rattle.mu_outside.specs.Counts.{counted};

/// Raises a count by one, up to its last value.
pub(crate) fn count(number: &mut u64)
    ensures { number.new ≡ counted number.old }
{
    *number = number.saturating_add(1);
}
