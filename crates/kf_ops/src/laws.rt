ghost use Rattle.std.specs.Prelude.{◌≡◌, ◌≢◌, ◌↔◌, ◌⊎◌, ℤ, pos, ◌+ℤ◌, ◌-ℤ◌, ◌*ℤ◌, neg_ℤ, ◌≤ℤ◌, ◌<ℤ◌, Bool, true, false, List, [], ◌∷◌, length, Ok, Err};
ghost use Rattle.std.specs.Int.{int_div_euclid, int_rem_euclid};
ghost use Rattle.std.specs.List.{All};
ghost use Rattle.kf_value.specs.Values.{ValueTree, Truth, Whole, Set, parts, is_equal};
ghost use Rattle.kf_value.specs.Laws.{IsIn};
ghost use Rattle.kf_ops.specs.Rows.{operators};
ghost use Rattle.kf_ops.specs.Laws.{Gives, GivesOfTwo, IsEuclidean, IsNarrow, KeepsKinds, MakesSets, NamesFaults, PicksOfTwo, Tells};
ghost use Rattle.kf_ops.specs.Values.{applied, is_i64, is_in, DivZero};
ghost use Rattle.kf_ops.specs.declared.row.Op.TheVariants as op;

/// What holds of the operators' values: each operator gives what its word says, quotient and remainder are Euclid's, a
/// whole number is told exactly where it is an i64, from fitting arguments comes a value of the row's kind, and each row
/// names its faults. It does nothing when it runs.
pub fn row_laws()
    ensures equal { (v w : ValueTree) → (is_equal v w ≡ true) ↔ (v ≡ w) }
    ensures member { (v : ValueTree) (ws : List ValueTree) → (is_in v ws ≡ true) ↔ IsIn v ws }
    ensures narrow { (z : ℤ) → (is_i64 z ≡ true) ↔ IsNarrow z }
    ensures or_true { (a b : Bool) → Tells op.Or (Truth a ∷ Truth b ∷ []) ((a ≡ true) ⊎ (b ≡ true)) }
    ensures and_true { (a b : Bool) → Tells op.And (Truth a ∷ Truth b ∷ []) ((a ≡ true) × (b ≡ true)) }
    ensures not_true { (a : Bool) → Tells op.Not (Truth a ∷ []) (a ≡ false) }
    ensures equal_true { (v w : ValueTree) → Tells op.Equal (v ∷ w ∷ []) (v ≡ w) }
    ensures unequal_true { (v w : ValueTree) → Tells op.NotEqual (v ∷ w ∷ []) (v ≢ w) }
    ensures less_true { (i j : ℤ) → Tells op.Less (Whole i ∷ Whole j ∷ []) (i <ℤ j) }
    ensures at_most_true { (i j : ℤ) → Tells op.AtMost (Whole i ∷ Whole j ∷ []) (i ≤ℤ j) }
    ensures greater_true { (i j : ℤ) → Tells op.Greater (Whole i ∷ Whole j ∷ []) (j <ℤ i) }
    ensures at_least_true { (i j : ℤ) → Tells op.AtLeast (Whole i ∷ Whole j ∷ []) (j ≤ℤ i) }
    ensures element_true { (v : ValueTree) (ws : List ValueTree) → Tells op.Elem (v ∷ Set (parts ws) ∷ []) (IsIn v ws) }
    ensures union { MakesSets op.Union (λ v vs ws. IsIn v vs ⊎ IsIn v ws) }
    ensures difference { MakesSets op.Without (λ v vs ws. IsIn v vs × ¬ IsIn v ws) }
    ensures intersection { MakesSets op.Inter (λ v vs ws. IsIn v vs × IsIn v ws) }
    ensures elements { (vs : List ValueTree) → applied op.Size (Set (parts vs) ∷ []) ≡ Ok (Whole (pos (length vs))) }
    ensures added { GivesOfTwo op.Add (λ i j. i +ℤ j) }
    ensures subtracted { GivesOfTwo op.Subtract (λ i j. i -ℤ j) }
    ensures multiplied { GivesOfTwo op.Multiply (λ i j. i *ℤ j) }
    ensures negated { (i : ℤ) → Gives (applied op.Negate (Whole i ∷ [])) (neg_ℤ i) }
    ensures quotient { (i j : ℤ) → j ≢ pos 0 → Gives (applied op.Div (Whole i ∷ Whole j ∷ [])) (int_div_euclid i j) }
    ensures remainder { (i j : ℤ) → j ≢ pos 0 → applied op.Mod (Whole i ∷ Whole j ∷ []) ≡ Ok (Whole (int_rem_euclid i j)) }
    ensures no_quotient { (i : ℤ) → applied op.Div (Whole i ∷ Whole (pos 0) ∷ []) ≡ Err DivZero }
    ensures no_remainder { (i : ℤ) → applied op.Mod (Whole i ∷ Whole (pos 0) ∷ []) ≡ Err DivZero }
    ensures euclid { (a b : ℤ) → b ≢ pos 0 → IsEuclidean a b (int_div_euclid a b) (int_rem_euclid a b) }
    ensures first_choice { (v w : ValueTree) → applied op.Cond (Truth true ∷ v ∷ w ∷ []) ≡ Ok v }
    ensures second_choice { (v w : ValueTree) → applied op.Cond (Truth false ∷ v ∷ w ∷ []) ≡ Ok w }
    ensures xor_true { (a b : Bool) → Tells op.Xor (Truth a ∷ Truth b ∷ []) (a ≢ b) }
    ensures implies_true { (a b : Bool) → Tells op.Implies (Truth a ∷ Truth b ∷ []) (a ≡ true → b ≡ true) }
    ensures subset_true { (vs ws : List ValueTree) → Tells op.Subset (Set (parts vs) ∷ Set (parts ws) ∷ []) ((v : ValueTree) → IsIn v vs → IsIn v ws) }
    ensures lesser { PicksOfTwo op.Min (λ z i. z ≤ℤ i) }
    ensures greater { PicksOfTwo op.Max (λ z i. i ≤ℤ z) }
    ensures absolute { (i : ℤ) → pos 0 ≤ℤ i → Gives (applied op.Abs (Whole i ∷ [])) i }
    ensures absolute_below { (i : ℤ) → i <ℤ pos 0 → Gives (applied op.Abs (Whole i ∷ [])) (neg_ℤ i) }
    ensures kinds { All KeepsKinds operators }
    ensures faults { All NamesFaults operators }
{}
