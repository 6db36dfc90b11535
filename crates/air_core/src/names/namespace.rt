//! Namespaces: names that other names can be put under.
ghost use Rattle.std.specs.Prelude.{◌≡◌};

use crate::names::joined::Joined;
use crate::names::name::Name;

/// A name that other names can be put under.
pub trait Namespace: Name + Copy {}

impl Namespace for &'static str {}

impl<A: Namespace, B: Namespace> Namespace for Joined<A, B> {}

/// Puts a name under a namespace.
pub trait NamespaceExt: Namespace {
    /// The namespace `self::inner`.
    fn join<N: Namespace>(self, inner: N) -> Joined<Self, N>
        ensures { result ≡ record { left = self; right = inner } }
    {
        Joined::new(self, inner)
    }

    /// The name `self::name`.
    fn name<N: Name>(self, name: N) -> Joined<Self, N>
        ensures { result ≡ record { left = self; right = name } }
    {
        Joined::new(self, name)
    }
}

impl NamespaceExt for &'static str {}

impl<A: Namespace, B: Namespace> NamespaceExt for Joined<A, B> {}
