ghost use Rattle.std.specs.Prelude.{◌≡◌, ◌<◌, ◌↔◌, ℕ, List, None, Some, length, map, slice_get, slice_index};
ghost use Rattle.std.specs.declared.cmp.Ordering.TheVariants.{Equal, Greater};
ghost use Rattle.std.specs.Cmp.{IsTotalOrder};
ghost use Rattle.std.specs.List.{All};
ghost use Rattle.std.specs.List.Sorted.{IsStrictlySortedBy};
ghost use Rattle.kf_value.specs.Values.{ValueTree, Set, parts, order};
ghost use Rattle.kf_value.specs.Laws.{HoldsGreatest};
ghost use Rattle.kf_value.specs.Types.{TypeTree, values, count, product};
ghost use Rattle.kf_value.specs.Sizes.{fault_of};
ghost use Rattle.kf_value.specs.Stores.{stores};
ghost use Rattle.kf_value.specs.Targets.{Item, target_value_text};
ghost use Rattle.kf_value.specs.Numbers.{target_size, IsStore, digits, mixed_radix, AreDigits};

/// What holds of the definitions alone: the order of values is total, only equal values are equal in it, of two
/// different sets the greater holds the greatest value that stands in exactly one of them, and the values of each type
/// stand in it, as many as counted. It does nothing when it runs.
pub fn order_laws()
    ensures total { IsTotalOrder order }
    ensures equal { (v w : ValueTree) → (order v w ≡ Equal) ↔ (v ≡ w) }
    ensures sets { (vs ws : List ValueTree) → IsStrictlySortedBy order vs → IsStrictlySortedBy order ws
        → order (Set (parts vs)) (Set (parts ws)) ≡ Greater → HoldsGreatest vs ws }
    ensures ascending { (t : TypeTree) → IsStrictlySortedBy order (values t) }
    ensures counted { (t : TypeTree) → length (values t) ≡ count t }
{}

/// What holds of the definitions alone: there are as many stores as the product of their types' sizes, the store with the
/// number n has, for each variable, the value of its type at its digit of n, and numbers below the product and digits
/// below the sizes make one another. It does nothing when it runs.
pub fn store_laws()
    ensures counted { (ts : List TypeTree) → length (stores ts) ≡ product (map count ts) }
    ensures at_digits { (ts : List TypeTree) (n i : ℕ) (t : TypeTree) (s : List ValueTree) → slice_get ts i ≡ Some t → IsStore ts n s
        → slice_get s i ≡ slice_get (values t) (slice_index (digits (map count ts) n) i) }
    ensures digits_fit { (sizes : List ℕ) (n : ℕ) → n < product sizes → AreDigits sizes (digits sizes n) }
    ensures from_digits { (sizes : List ℕ) (n : ℕ) → n < product sizes → mixed_radix sizes (digits sizes n) ≡ n }
    ensures below { (sizes ds : List ℕ) → AreDigits sizes ds → mixed_radix sizes ds < product sizes }
    ensures to_digits { (sizes ds : List ℕ) → AreDigits sizes ds → digits sizes (mixed_radix sizes ds) ≡ ds }
{}

/// What holds of the definitions alone: different values of one target have different texts. It does nothing when it
/// runs.
pub fn text_laws()
    ensures { (items : List Item) (m n : ℕ) → All (λ i. fault_of i.ty ≡ None) items
        → m < target_size items → n < target_size items
        → target_value_text items m ≡ target_value_text items n → m ≡ n }
{}
