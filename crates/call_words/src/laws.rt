//! Laws of the words of a call, over the definitions alone.

ghost use Rattle.std.specs.Prelude.{◌≡◌, ℕ, ◌≤◌, true, false, List, length};
ghost use Rattle.call_words.specs.declared.words_fault.WordsFault.{WordsFault};
ghost use Rattle.call_words.specs.CommandLine.{Given, Reads};
ghost use Rattle.call_words.specs.Commands.{Task, IsCommand, IsFault};
ghost use Rattle.call_words.specs.Begun.{IsFirstAtFault};

/// Words are read in one way at most.
pub fn one_reading()
    ensures { (given : Given) (words places others : List (List ℕ)) (all more : Given)
        → Reads given words places all → Reads given words others more
        → (places ≡ others) × (all ≡ more) }
{}

/// Words ask for one task at most, have one fault at most, and never both.
pub fn one_answer()
    ensures task { (words : List (List ℕ)) (t u : Task) → IsCommand words t
        → IsCommand words u → t ≡ u }
    ensures fault { (words : List (List ℕ)) (f g : WordsFault) → IsFault words f
        → IsFault words g → f ≡ g }
    ensures never_both { (words : List (List ℕ)) (t : Task) (f : WordsFault)
        → IsCommand words t → IsFault words f → ⊥ }
{}

/// Where a number is out of its range, a word is at fault, whatever the names; where mesh and log have one
/// name, a word is at fault by its name.
pub fn one_is_at_fault()
    ensures number { (words : List (List ℕ)) (n : ℕ) → IsFault words WordsFault.Value
        → IsFirstAtFault false words n → n ≤ length words }
    ensures name { (words : List (List ℕ)) (n : ℕ) → IsFault words WordsFault.SameName
        → IsFirstAtFault true words n → n ≤ length words }
{}
