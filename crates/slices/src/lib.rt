//! The first items of a slice, and those after them.
#![tactic(auto)]

ghost use Rattle.std.specs.Prelude.{◌≡◌, drop, take};

/// The first `count` items, or all if there are fewer.
#[inline]
pub fn front<T>(items: &[T], count: usize) -> &[T]
    ensures { result.now ≡ take count items.now }
{
    &items[..items.len().min(count)]
}

/// The items after the first `count`; no items if there are at most `count`.
#[inline]
pub fn following<T>(items: &[T], count: usize) -> &[T]
    ensures { result.now ≡ drop count items.now }
{
    &items[items.len().min(count)..]
}
