//! Nodes: items, each with a link, which is the key of the item above it (right before it in a
//! path).

ghost use Rattle.std.specs.Prelude.{◌≡◌, ◌<◌, ◌-◌, ◌^◌, Some, None};

use std::alloc::AllocError;
use std::marker::Model;

/// The number that identifies an item of a lineage.
pub type Key = usize;

/// A key or no key, stored in one word. In contracts it is an option of a key.
#[derive(Debug, Drop)]
pub struct OptionalKey {
    // `usize::MAX` means no key: no slab has enough slots for such a key
    pub(crate) word: usize,
}

impl Model for OptionalKey {
    ghost use Rattle.std.specs.Prelude.{ℕ, Option};

    ghost Value = { Option ℕ };

    ghost use Rattle.lineage.specs.OptionalKeys.{key_of_word, word_of_key};

    ghost view = { λ a. key_of_word a.word };

    ghost inverse = { λ o. record { word = word_of_key o } };
}

impl Copy for OptionalKey {}

impl Clone for OptionalKey {
    ghost is_clone = { λ word copy. copy ≡ word };

    fn clone(&self) -> Result<OptionalKey, AllocError> {
        Ok(*self)
    }
}

impl OptionalKey {
    /// No key, in one word.
    #[inline(always)]
    pub(crate) fn none() -> OptionalKey
        ensures { result ≡ None }
    {
        OptionalKey { word: usize::MAX }
    }

    /// This key, in one word. The key has to be less than the greatest word, which means no key.
    #[inline(always)]
    pub(crate) fn of(key: Key) -> OptionalKey
        requires { key < 2 ^ 64 - 1 }
        ensures { result ≡ Some key }
    {
        OptionalKey { word: key }
    }

    /// The key as an option; `None` if there is no key.
    #[inline(always)]
    pub fn get(self) -> Option<Key>
        ensures { result ≡ self }
    {
        if self.word == usize::MAX {
            None
        } else {
            Some(self.word)
        }
    }
}

/// An item; its link, which is the key of the item above it, if any; and the number of its holders,
/// which are the nodes and the tips (last keys of paths) that link to it.
#[derive(Drop)]
pub(crate) struct Node<X> {
    pub(crate) item: X,
    pub(crate) above: OptionalKey,
    pub(crate) holders: usize,
}
