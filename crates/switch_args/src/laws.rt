//! Laws on every list of words. They run nothing.
ghost use Rattle.std.specs.Prelude.{◌≡◌, ◌≤◌, ℕ, List, length, take, None, Some, IsSome, ◌++◌, ◌∷◌};
ghost use Rattle.switch_args.specs.SwitchWords.{Given, Place, IsFirstFault, place_after, read_of, start, step, may_end};
ghost use Rattle.switch_args.specs.ValidSettings.{IsValid, words_of};

/// A law; it runs nothing. If the words before one lead to a place at which it may not stand, it is the first fault;
/// if all words lead to a place at which they may not end, their number is. Words of the form have no first fault.
pub fn first_fault_law()
    ensures refused { (words before : List (List ℕ)) (word : List ℕ) (rest : List (List ℕ)) (place : Place)
        → words ≡ before ++ word ∷ rest → place_after start before ≡ Some place → step place.given place.expected word ≡ None
        → IsFirstFault words (length before) }
    ensures unfinished { (words : List (List ℕ)) (place : Place)
        → place_after start words ≡ Some place → may_end place ≡ None → IsFirstFault words (length words) }
    ensures of_the_form { (words : List (List ℕ)) (n : ℕ) → IsSome (read_of words) → IsFirstFault words n → ⊥ }
{}

/// A law; it runs nothing. The words of any valid settings, written out, are read as these settings; and what is read
/// is valid.
pub fn words_read_back()
    ensures back { (given : Given) → IsValid given → read_of (words_of given) ≡ Some given }
    ensures valid { (words : List (List ℕ)) (given : Given) → read_of words ≡ Some given → IsValid given }
{}
