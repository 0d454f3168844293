// Slices, read and written only as far as they reach.
ghost use Rattle.std.specs.Prelude.{◌≡◌, take, slice_set};

/// The first n items, or all where there are fewer.
pub fn front<T>(items: &[T], n: usize) -> &[T]
    ensures { result.now ≡ take n items.now }
{
    items.get(..n).unwrap_or(items)
}

/// Writes an item at a place, if there is such a place.
pub fn put<T: Copy>(items: &mut [T], at: usize, item: T)
    ensures { items.new ≡ slice_set items.old at item }
{
    if at < items.len() {
        items[at] = item;
    }
}
