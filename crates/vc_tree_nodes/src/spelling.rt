//! Keys as callers give them.

ghost use Rattle.std.specs.Prelude.{◌≡◌, List};

/// A list of components that a caller gives as a key.
pub trait Spelled<K>: Drop {
    ghost components: { Self → List K };

    /// The components.
    fn as_key(&self) -> &[K]
        ensures { result.now ≡ components self.now };
}

impl<'a, K> Spelled<K> for &'a [K] {
    ghost components = { λ key. key.now };

    fn as_key(&self) -> &[K] {
        self
    }
}

impl<K: Drop> Spelled<K> for Vec<K> {
    ghost components = { λ key. key.items };

    fn as_key(&self) -> &[K] {
        self.as_slice()
    }
}
