//! Places of a source text as positions of a program.
ghost use Rattle.std.specs.Prelude.{◌≡◌, ◌≤◌, IfSome, Some};
ghost use Rattle.grain_base.specs.Place.{place_of};

use grain_base::Position;
use grain_base::pos::Site;

/// A place as a position of a program, which is none if its numbers are too great.
pub fn position(place: Site) -> Position
    ensures own { IfSome (place_of result) (λ p. place ≡ record { line = p.0; column = p.1 }) }
    ensures kept { 1 ≤ place.line → place.line ≤ 65535 → place.column ≤ 65535
        → place_of result ≡ Some (place.line, place.column) }
{
    match (u16::try_from(place.line), u16::try_from(place.column)) {
        (Ok(line), Ok(column)) if line > 0 => Position::new(line, column),
        _ => Position::NONE,
    }
}
