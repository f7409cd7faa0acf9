//! What a number of a descriptor is.

ghost use Rattle.std.specs.Prelude.{◌≡◌};
ghost use Rattle.fs_handles.specs.Numbers.{is_bound_to};

/// A number is free, or reserved for a call that is under way, or bound to the open description with an index.
#[derive(Clone, Copy)]
pub enum Number {
    Free,
    Reserved,
    Bound(usize),
}

impl Number {
    /// Whether it is bound to this description.
    pub fn is_bound_to(&self, description: usize) -> bool
        ensures { result ≡ is_bound_to description self.now }
    {
        match self {
            Number::Bound(bound) => *bound == description,
            _ => false,
        }
    }
}
