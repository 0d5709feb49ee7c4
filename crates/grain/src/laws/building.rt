//! The law of building by index.
ghost use Rattle.std.specs.Prelude.{◌↔◌, ℕ, List};
ghost use Rattle.grain_rules.specs.Accepted.{AreDeepest, IsAccepted};
ghost use Rattle.grain.specs.Build.{AreDeepestByIndex, CanBuild, CanLay, Draft, IsLaid};
ghost use Rattle.grain.specs.Program.{Program, input_of};

/// What a compiler hands over passes by index exactly where the program that is laid of it is accepted, and with the same
/// numbers.
pub fn building_is_verifying()
    ensures accepted { (d : Draft) (p : Program) → CanLay d → IsLaid d p
        → CanBuild d ↔ IsAccepted (input_of p) }
    ensures deepest { (d : Draft) (p : Program) → CanLay d → IsLaid d p → (numbers : List ℕ)
        → AreDeepestByIndex d numbers ↔ AreDeepest (input_of p) numbers }
{}
