//! The laws of walks, each as the contract of a function that does nothing.

ghost use Rattle.std.specs.Prelude.{◌≡◌, Bool, List, Some};
ghost use Rattle.std.specs.List.{find, after_first};
ghost use Rattle.grid_geom.specs.declared.Bounds.{Bounds};
ghost use Rattle.digital_tree.specs.declared.Entry.{Entry};
ghost use Rattle.digital_tree.specs.Entries.{has_key, first_in_walk, AreDifferent};
ghost use Rattle.digital_tree.specs.Walks.{hit_keys, IsWalkFrom};

/// A walk by `first_hit` and `next_hit` meets exactly the keys whose boxes meet the box, each once, in
/// the order of the list, and ends then.
pub fn law_walk<V>()
    ensures { (b : Bounds) (es : List (Entry V)) → AreDifferent es →
        IsWalkFrom b es (first_in_walk b es) (hit_keys b es) }
{}

/// The entry that a walk meets is the one that its key finds.
pub fn law_found<V>()
    ensures first { (p : Entry V → Bool) (es : List (Entry V)) (e : Entry V) → AreDifferent es →
        find p es ≡ Some e → find (has_key e.key) es ≡ Some e }
    ensures next { (p q : Entry V → Bool) (es : List (Entry V)) (e : Entry V) → AreDifferent es →
        find p (after_first q es) ≡ Some e → find (has_key e.key) es ≡ Some e }
{}
