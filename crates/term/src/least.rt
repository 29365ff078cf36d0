//! The lowest of some places.
ghost use Rattle.std.specs.Prelude.{◌≡◌};
ghost use Rattle.term.specs.Least.{lower};

// A place at fault is an Option in this crate and no error: all parts of a text are looked at, and the lowest place of all is
// taken. Which fault it is says only who refuses it.
/// The lower of two places, where there is one.
pub(crate) fn lower(a: Option<usize>, b: Option<usize>) -> Option<usize>
    ensures { result ≡ lower a b }
{
    match (a, b) {
        (Some(j), Some(k)) => Some(j.min(k)),
        _ => a.or(b),
    }
}
