//! What keeps other crates from writing a flavour.

use crate::plain::RadixTree;
use crate::reading::{TKey, TValue};
use crate::shared::ArcRadixTree;

/// The two flavours, and no other type: this module is private, so no other crate can name the
/// trait and implement it.
pub trait Sealed {}

impl<K: TKey, V: TValue> Sealed for RadixTree<K, V> {}

impl<K: TKey, V: TValue> Sealed for ArcRadixTree<K, V> {}
