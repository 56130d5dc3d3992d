//! Laws of the grammar and of refusals, over the definitions alone.

ghost use Rattle.std.specs.Prelude.{◌≡◌, ◌≢◌, List, ℤ};
ghost use Rattle.vol_format.specs.declared.Mesh.{Mesh};
ghost use Rattle.vol_format.specs.declared.refusal.VolRefusal.{VolRefusal};
ghost use Rattle.vol_format.specs.declared.refusal.VolRefusal.TheVariants.{Memory};
ghost use Rattle.vol_format.specs.Text.{Word, Derives, InRanges, Known};
ghost use Rattle.vol_format.specs.Vol.{IsShift, vol_text};
ghost use Rattle.word_scan.specs.Scan.{words_of};
ghost use Rattle.vol_format.specs.Refusals.{Refuses};

/// No list of words is a text of two meshes of one shift.
pub fn one_value()
    ensures { (shift : ℤ) (words : List Word) (a b : Mesh) → Derives shift words a
        → Derives shift words b → a ≡ b }
{}

/// No text has two refusals, want of memory aside, and a text of a mesh whose point numbers are known has none.
pub fn one_refusal()
    ensures one { (shift : ℤ) (words : List Word) (e f : VolRefusal) → e ≢ Memory → f ≢ Memory
        → Refuses shift words e → Refuses shift words f → e ≡ f }
    ensures none { (shift : ℤ) (words : List Word) (m : Mesh) (f : VolRefusal) → f ≢ Memory
        → Derives shift words m → Known m → ¬ Refuses shift words f }
{}

/// The text that is written of a mesh is a text of it, where its numbers are in the ranges of the text.
pub fn read_again()
    ensures { (m : Mesh) → IsShift m.shift → InRanges m → Derives m.shift (words_of (vol_text m)) m }
{}
