//! Comparisons of records and edits, by what contracts see of them.
ghost use Rattle.std.specs.Prelude.{◌≡◌, IsTrue, ◌↔◌};
ghost use Rattle.std.specs.Option.{option_copied};

/// What can be compared. That two are the same means more than `==` does for a type parameter: contracts see one value, and not only equivalent
/// ones.
pub trait Same {
    /// Whether the other is the same.
    fn same(&self, other: &Self) -> bool
        ensures { IsTrue result ↔ (self.now ≡ other.now) };
}

/// Whether two places have the same thing, or both have none.
pub fn same_place<T: Same>(a: Option<&T>, b: Option<&T>) -> bool
    ensures { IsTrue result ↔ (option_copied a.entry ≡ option_copied b.entry) }
{
    match a {
        Some(one) => match b {
            Some(other) => one.same(other),
            None => false,
        },
        None => b.is_none(),
    }
}

/// Whether two optional things are the same.
pub fn same_option<T: Same>(a: &Option<T>, b: &Option<T>) -> bool
    ensures { IsTrue result ↔ (a.now ≡ b.now) }
{
    match a {
        Some(one) => match b {
            Some(other) => one.same(other),
            None => false,
        },
        None => b.is_none(),
    }
}

/// Whether two lists have the same things in the same order.
pub fn same_list<T: Same>(a: &[T], b: &[T]) -> bool
    ensures { IsTrue result ↔ (a.now ≡ b.now) }
{
    if a.len() != b.len() {
        return false;
    }
    for index in 0..a.len() {
        if !a[index].same(&b[index]) {
            return false;
        }
    }
    true
}
