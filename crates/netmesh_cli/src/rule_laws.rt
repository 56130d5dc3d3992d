//! Laws of the rules of a file and of what is shown of them, over the definitions alone.

ghost use Rattle.std.specs.Prelude.{◌≡◌, ℕ, List};
ghost use Rattle.rule_reader.specs.declared.rule.Rule.{Rule};
ghost use Rattle.netmesh_cli.specs.Accepted.{AreRules};
ghost use Rattle.netmesh_cli.specs.Listed.{IsListing};

/// A rule file has one list of rules, and rules have one listing: so what `rules` writes follows from the
/// bytes of the file.
pub fn one_listing()
    ensures one_list { (bytes : List ℕ) (rules other : List Rule)
        → AreRules bytes rules → AreRules bytes other → rules ≡ other }
    ensures one_text { (rules : List Rule) (text other : List ℕ)
        → IsListing rules text → IsListing rules other → text ≡ other }
{}
