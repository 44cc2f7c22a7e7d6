//! The law of labels: the words on them are those of sets of numbers.
ghost use Rattle.std.specs.Prelude.{◌≡◌, ◌↔◌, ◌<◌, ℕ, ◌^◌, ◌==◌, ◌||◌, ◌&&◌, nat_lt, Bool, true, false};
ghost use Rattle.ts_packet.specs.Labels.{has_label, joined, labels_below, no_labels, shares_label, with_label};

/// Labels are a set: the empty one has no label, `with` adds one to the others, a union has those of both, two sets
/// share a label exactly where a number is in both, and sets with the same numbers are the same. A law; it runs nothing.
pub fn labels_are_a_set()
    ensures empty { (n : ℕ) → has_label no_labels n ≡ false }
    ensures more { (labels n m : ℕ) → has_label (with_label labels n) m ≡ (has_label labels m || m == n) }
    ensures both { (a b n : ℕ) → has_label (joined a b) n ≡ (has_label a n || has_label b n) }
    ensures picked { (picked : ℕ → Bool) (count n : ℕ)
        → has_label (labels_below picked count) n ≡ (nat_lt n count && picked n) }
    ensures shared { (a b : ℕ) → (shares_label a b ≡ true)
        ↔ ((n : ℕ) × (has_label a n ≡ true) × (has_label b n ≡ true)) }
    ensures told { (a b : ℕ) → ((n : ℕ) → has_label a n ≡ has_label b n) → a ≡ b }
{}
