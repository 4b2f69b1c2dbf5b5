//! Whether what was found under a schema holds under each one, since it rests on built-in types alone.

ghost use Rattle.std.specs.Prelude.{◌≡◌, true};
ghost use Rattle.dir_names.specs.Inside.Scopes.{both};

/// The schemas under which a key is the same.
#[derive(Clone, Copy)]
pub(crate) enum Scope {
    /// The one that was asked, and perhaps no other.
    ThisSchema,
    /// Every one: each has the built-in types, and no other type has a part in the key.
    EachSchema,
}

impl Scope {
    #[inline(always)]
    pub(crate) fn is_each_schema(self) -> bool
        ensures { result ≡ true → self ≡ Scope.EachSchema }
    {
        match self {
            Scope::EachSchema => true,
            Scope::ThisSchema => false,
        }
    }

    /// Where two keys that make one together are the same.
    #[inline(always)]
    pub(crate) fn and(self, other: Scope) -> Scope
        ensures { result ≡ both self other }
    {
        match self {
            Scope::EachSchema => other,
            Scope::ThisSchema => Scope::ThisSchema,
        }
    }
}
