ghost use Rattle.std.specs.Prelude.{◌≡◌, Bool, List, length, map};
ghost use Rattle.std.specs.Cmp.{IsStrictWeakOrder};
ghost use Rattle.std.specs.List.{flat_map, sum_by};
ghost use Rattle.std.specs.List.Sorted.{IsPermutation, IsSortedBy, IsStableBy};
ghost use Rattle.qsr_lists.specs.Lists.{IsAsymmetric, IsEquality, firsts, groups, product, size_of_product, sorted};

/// A product has as many elements as the sizes of its lists multiply to.
pub fn product_size<X>()
    ensures { (xss : List (List X)) → length (product xss) ≡ size_of_product xss }
{}

/// What appears first once appears first again.
pub fn firsts_of_firsts<X>()
    ensures { (same : X → X → Bool) (xs : List X) → firsts same (firsts same xs) ≡ firsts same xs }
{}

/// No two groups have one key; and where the test is one of equality, each element is in one group, so that the groups' sizes add
/// up to the size of the list.
pub fn groups_hold_all<X, K>()
    ensures elements { (same : K → K → Bool) (key : X → K) (xs : List X) → IsEquality same → IsPermutation xs (flat_map (λ g. g.1) (groups same key xs)) }
    ensures sizes { (same : K → K → Bool) (key : X → K) (xs : List X) → IsEquality same → sum_by (λ g. length g.1) (groups same key xs) ≡ length xs }
    ensures keys { (same : K → K → Bool) (key : X → K) (xs : List X) → map (λ g. g.0) (groups same key xs) ≡ firsts same (map key xs) }
{}

/// A sorted list has the elements of the list that was sorted.
pub fn sorted_holds_all<X>()
    ensures { (lt : X → X → Bool) (xs : List X) → IsPermutation xs (sorted lt xs) }
{}

/// No element of a sorted list stands before the one in front of it, where of two elements at most one stands before the other.
pub fn sorted_rises<X>()
    ensures { (lt : X → X → Bool) (xs : List X) → IsAsymmetric lt → IsSortedBy lt (sorted lt xs) }
{}

/// Elements that tie stay as they stood, where the test is one of an order.
pub fn ties_stay<X>()
    ensures { (lt : X → X → Bool) (xs : List X) → IsStrictWeakOrder lt → IsStableBy lt xs (sorted lt xs) }
{}
