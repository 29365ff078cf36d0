//! What was read of the sorts, with the place behind it.
ghost use Rattle.std.specs.Prelude.{◌≡◌};

/// Something read, and the place behind it.
#[derive(Drop)]
pub struct Placed<T> {
    pub item: T,
    pub next: usize,
}

impl<T> Placed<T> {
    /// What a function makes of what was read, with the same place behind it.
    pub fn map<U, F: FnOnce(T) -> U>(self, f: F) -> Placed<U>
        requires { F.pre f self.item }
        ensures item { F.post f self.item result.item }
        ensures next { result.next ≡ self.next }
    {
        Placed {
            item: f(self.item),
            next: self.next,
        }
    }
}
