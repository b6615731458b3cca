//! Cutting a list that ascends by a key at one key, and finding the item of a key.

ghost use Rattle.std.specs.Prelude.{◌≡◌, ◌<◌, ◌≤◌, IfSome, filter, find, length, option_copied, position};
ghost use Rattle.std.specs.List.{AllPairs};
ghost use Rattle.std.specs.List.Sorted.{IsSortedByKey};
ghost use Rattle.std.specs.Ordering.{is_eq};
ghost use Rattle.std.specs.declared.cmp.Ordering.TheVariants.{Less};
ghost use Rattle.cn_lists.specs.Segment.{GivesKeys, IsSegment};

/// Where the items of a key stand in a list that ascends by it: the place of the first, and the
/// place behind the last. What `key_of` gives of an item is its key.
pub fn places_at<T, K, F>(items: &[T], key: &K, key_of: F) -> (usize, usize)
where
    K: Ord + Drop,
    F: Fn(&T) -> K,
    requires { F.IsAlwaysCallable key_of }
    ensures within { (result.0 ≤ result.1) × (result.1 ≤ length items.now) }
    ensures segment { (of : T → K) → GivesKeys (F.post key_of) of → IsSortedByKey of K.cmp items.now
        → IsSegment (λ x. K.cmp (of x) key.now) items.now result.0 result.1 }
{
    let end = items.partition_point(|item| key_of(item).cmp(key).is_le());
    let start = items[..end].partition_point(|item| key_of(item).cmp(key).is_lt());
    (start, end)
}

/// The items of a key in a list that ascends by it.
pub fn part_at<'a, T, K, F>(items: &'a [T], key: &K, key_of: F) -> &'a [T]
where
    K: Ord + Drop,
    F: Fn(&T) -> K,
    requires { F.IsAlwaysCallable key_of }
    ensures { (of : T → K) → GivesKeys (F.post key_of) of → IsSortedByKey of K.cmp items.now
        → result.now ≡ filter (λ x. is_eq (K.cmp (of x) key.now)) items.now }
{
    let (start, end) = places_at(items, key, key_of);
    &items[start..end]
}

/// The place of the item of a key in a list whose keys ascend, each below the later ones. None
/// comes exactly where no item has the key.
pub fn place_at<T, K, F>(items: &[T], key: &K, key_of: F) -> Option<usize>
where
    K: Ord + Drop,
    F: Fn(&T) -> K,
    requires { F.IsAlwaysCallable key_of }
    ensures within { IfSome result (λ place. place < length items.now) }
    ensures place { (of : T → K) → GivesKeys (F.post key_of) of
        → AllPairs (λ x y. K.cmp (of x) (of y) ≡ Less) items.now
        → result ≡ position (λ x. is_eq (K.cmp (of x) key.now)) items.now }
{
    items.binary_search_by_key(key, key_of).ok()
}

/// The item of a key in a list whose keys ascend, each below the later ones. None comes exactly
/// where no item has the key.
pub fn item_at<'a, T, K, F>(items: &'a [T], key: &K, key_of: F) -> Option<&'a T>
where
    K: Ord + Drop,
    F: Fn(&T) -> K,
    requires { F.IsAlwaysCallable key_of }
    ensures { (of : T → K) → GivesKeys (F.post key_of) of
        → AllPairs (λ x y. K.cmp (of x) (of y) ≡ Less) items.now
        → option_copied result ≡ find (λ x. is_eq (K.cmp (of x) key.now)) items.now }
{
    match place_at(items, key, key_of) {
        Some(place) => Some(&items[place]),
        None => None,
    }
}
