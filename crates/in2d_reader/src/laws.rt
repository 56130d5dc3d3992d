//! Laws of the grammar and of refusals, over the definitions alone.

ghost use Rattle.std.specs.Prelude.{◌≡◌, ◌≢◌, List};
ghost use Rattle.in2d_reader.specs.declared.geometry.RawGeometry.{RawGeometry};
ghost use Rattle.in2d_reader.specs.declared.refusal.In2dRefusal.{In2dRefusal};
ghost use Rattle.in2d_reader.specs.declared.refusal.In2dRefusal.TheVariants.{Memory};
ghost use Rattle.in2d_reader.specs.Words.{Word};
ghost use Rattle.in2d_reader.specs.Grammar.{Derives, Fits};
ghost use Rattle.in2d_reader.specs.Refusals.{Refuses};

/// No list of words writes two geometries.
pub fn one_value()
    ensures { (words : List Word) (a b : RawGeometry) → Derives words a → Derives words b → a ≡ b }
{}

/// No text has two refusals, want of memory aside, and a text that writes a geometry that fits has none.
pub fn one_refusal()
    ensures one { (words : List Word) (e f : In2dRefusal) → e ≢ Memory → f ≢ Memory
        → Refuses words e → Refuses words f → e ≡ f }
    ensures none { (words : List Word) (raw : RawGeometry) (f : In2dRefusal) → f ≢ Memory
        → Derives words raw → Fits raw → ¬ Refuses words f }
{}
