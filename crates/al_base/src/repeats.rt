ghost use Rattle.al_base.specs.Repeats.{repeats};
ghost use Rattle.std.specs.List.{list_any};
ghost use Rattle.std.specs.Prelude.{◌≡◌};

/// Whether some value is the same as a later one.
pub fn repeats<T: PartialEq>(values: &[T]) -> bool
    ensures { result ≡ repeats T.eq values.now }
{
    let mut rest = values;
    while let Some((first, later)) = rest.split_first() {
        if is_in(first, later) {
            return true;
        }
        rest = later;
    }
    false
}

fn is_in<T: PartialEq>(value: &T, values: &[T]) -> bool
    ensures { result ≡ list_any (T.eq value.now) values.now }
{
    for other in values {
        if value == other {
            return true;
        }
    }
    false
}
