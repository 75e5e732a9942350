//! Items with names, and whether their names are different.
ghost use Rattle.std.specs.Prelude.{◌≡◌};
ghost use Rattle.std.specs.List.{list_any};
ghost use Rattle.mas_types.specs.Ids.{same_name as same_name_lem};
ghost use Rattle.nje_net.specs.Numbered.{are_different as are_different_lem};

use mas_types::Name8;

/// An item with a name.
pub trait Named {
    ghost use Rattle.mas_types.specs.declared.ids.Name8.{Name8};

    ghost name: { Self → Name8 };

    /// The name.
    fn name(&self) -> Name8
        ensures { result ≡ name self.now };
}

/// Whether two names are the same.
pub fn same_name(a: Name8, b: Name8) -> bool
    ensures { result ≡ same_name_lem a b }
{
    a.0 == b.0
}

/// Whether one of the items has the name.
pub fn has_name<T: Named>(items: &[T], name: Name8) -> bool
    ensures { result ≡ list_any (λ y. same_name_lem (T.name y) name) items.now }
{
    items.iter().any(|item| same_name(item.name(), name))
}

/// Whether no two of the items have the same name.
pub fn are_different<T: Named>(items: &[T]) -> bool
    ensures { result ≡ are_different_lem T.name items.now }
{
    for (at, item) in items.iter().enumerate() {
        if has_name(&items[at + 1..], item.name()) {
            return false;
        }
    }
    true
}
