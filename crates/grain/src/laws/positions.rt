//! Laws of the definitions that contracts cite: of positions that go apart from a program and come back.
//!
//! The function does nothing: its contract is the law.
ghost use Rattle.std.specs.Prelude.{◌≡◌, ℕ, List, Option, map};
ghost use Rattle.grain_base.specs.Place.{place_of};
ghost use Rattle.grain_base.specs.declared.pos.Site.{Site};
ghost use Rattle.grain_bytecode.specs.ChainStream.{all_positions};
ghost use Rattle.grain_bytecode.specs.Positions.{Place, place_at};
ghost use Rattle.grain.specs.Program.{Program, places_of};
ghost use Rattle.grain.specs.Sidecars.{Belongs, CanComeBack, DiffersInPositions, IsAttached, IsSidecar, IsStripped};
ghost use Rattle.grain.specs.declared.sidecar.Sidecar.{Sidecar};

/// What was stripped off a program belongs to what is left, so that attaching it succeeds, and then each byte of the code
/// and each chain has its place back.
pub fn stripped_positions_come_back()
    ensures belongs { (p q : Program) (s : Sidecar) → CanComeBack p → IsSidecar p s → IsStripped p q
        → (places : Option (List Place)) × (slots : List (Option Site)) × Belongs q s places slots }
    ensures bytes { (p q r : Program) (s : Sidecar)
        → CanComeBack p → IsSidecar p s → IsStripped p q → IsAttached q s r
        → (pc : ℕ) → place_at (places_of r) pc ≡ place_at (places_of p) pc }
    ensures chains { (p q r : Program) (s : Sidecar)
        → CanComeBack p → IsSidecar p s → IsStripped p q → IsAttached q s r
        → map place_of (all_positions r.chains) ≡ map place_of (all_positions p.chains) }
    ensures rest { (p q r : Program) (s : Sidecar)
        → IsStripped p q → IsAttached q s r → DiffersInPositions p r }
{}
