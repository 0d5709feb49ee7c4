//! Positions that lie in the text of the script. What was added to the text has none.
ghost use Rattle.std.specs.Prelude.{◌≡◌, ℕ, IfSome, Some, map};
ghost use Rattle.grain_base.specs.Place.{place_of};
ghost use Rattle.std.specs.List.{All, flat_map};
ghost use Rattle.grain_base.specs.declared.position.Position.{Position};
ghost use Rattle.grain_pools.specs.Chain.{positions, root_positions, root_shape, shape, step_positions, step_shape};
ghost use Rattle.rhai_compile.specs.Positions.{IsListedPosition, IsPositionFor};
ghost use Rattle.rhai_errors.specs.Places.{IsInLines};

use grain::{Chain, Position, Root, Step};
use grain_base::pos::Site;
use rhai_emit::position;
use rhai_errors::Lines;

/// The place as a position, or none where it lies in none of the lines.
pub(crate) fn kept_place(place: Site, lines: &Lines) -> Position
    ensures listed { IsListedPosition lines.now.lengths.items result }
    ensures own { IfSome (place_of result) (λ p. place ≡ record { line = p.0; column = p.1 }) }
    ensures exact { IsPositionFor lines.now.lengths.items place (place_of result) }
{
    kept(position(place), lines)
}

/// The position, or none where it lies in none of the lines.
pub(crate) fn kept(position: Position, lines: &Lines) -> Position
    ensures listed { IsListedPosition lines.now.lengths.items result }
    ensures same { IfSome (place_of result) (λ p. place_of position ≡ Some p) }
    ensures kept { (p : ℕ × ℕ) → place_of position ≡ Some p
        → IsInLines lines.now.lengths.items (record { line = p.0; column = p.1 })
        → place_of result ≡ Some p }
{
    let (Some(line), Some(column)) = (position.line(), position.position()) else {
        return Position::NONE;
    };
    let place = Site {
        line: line as u32,
        column: column as u32,
    };
    if lines.has(place) {
        position
    } else {
        Position::NONE
    }
}

/// Takes off the root's position where it lies in none of the lines.
fn keep_in_root(root: &mut Root, lines: &Lines)
    ensures kept { All (IsListedPosition lines.now.lengths.items) (root_positions root.new) }
    ensures rest { (p : Position) → root_shape p root.new ≡ root_shape p root.old }
{
    match root {
        Root::Named { pos, .. } => *pos = kept(*pos, lines),
        Root::This { pos } => *pos = kept(*pos, lines),
        Root::Local { .. } | Root::Temporary => {}
    }
}

/// Takes off the step's positions that lie in none of the lines.
fn keep_in_step(step: &mut Step, lines: &Lines)
    ensures kept { All (IsListedPosition lines.now.lengths.items) (step_positions step.new) }
    ensures rest { (p : Position) → step_shape p step.new ≡ step_shape p step.old }
{
    match step {
        Step::Index { pos, bracket, .. } => {
            *pos = kept(*pos, lines);
            *bracket = kept(*bracket, lines);
        }
        Step::Property { pos, .. } => *pos = kept(*pos, lines),
        Step::Method { pos, .. } => *pos = kept(*pos, lines),
    }
}

/// Takes off the positions of steps that lie in none of the lines.
fn keep_in_steps(steps: &mut [Step], lines: &Lines)
    ensures kept { All (λ s. All (IsListedPosition lines.now.lengths.items) (step_positions s))
        steps.new }
    ensures rest { (p : Position) → map (step_shape p) steps.new ≡ map (step_shape p) steps.old }
{
    for step in steps.iter_mut() {
        keep_in_step(step, lines);
    }
}

/// Takes off the chain's positions that lie in none of the lines.
fn keep_in_chain(chain: &mut Chain, lines: &Lines)
    ensures kept { All (IsListedPosition lines.now.lengths.items) (positions chain.new) }
    ensures rest { (p : Position) → shape p chain.new ≡ shape p chain.old }
{
    keep_in_root(&mut chain.root, lines);
    keep_in_steps(&mut chain.steps, lines);
}

/// Takes off the positions of chains that lie in none of the lines.
pub(crate) fn keep_in_chains(chains: &mut [Chain], lines: &Lines)
    ensures kept { All (IsListedPosition lines.now.lengths.items) (flat_map positions chains.new) }
    ensures rest { (p : Position) → map (shape p) chains.new ≡ map (shape p) chains.old }
{
    for chain in chains.iter_mut() {
        keep_in_chain(chain, lines);
    }
}
