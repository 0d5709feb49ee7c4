//! Positions of chains that are written from slots.
ghost use Rattle.std.specs.Prelude.{◌≡◌, ◌+◌, [], ◌∷◌, length, map, min};
ghost use Rattle.grain_base.specs.Place.{place_of};
ghost use Rattle.grain_base.specs.declared.position.Position.{Position};
ghost use Rattle.grain_pools.specs.Chain.{positions, root_positions, root_shape, shape, step_positions, step_shape, steps_positions};
ghost use Rattle.grain_bytecode.specs.ChainStream.{all_positions};
ghost use Rattle.grain.specs.Slots.{IsDrawn};

use grain_base::Position;
use grain_base::pos::Site;
use grain_bytecode::site_to_position;
use grain_pools::{Chain, Root, Step};

/// Slots whose positions are drawn one after another. Past the last there is no position.
#[derive(Drop)]
pub(crate) struct Slots<'a> {
    pub(crate) left: &'a [Option<Site>],
}

impl Slots<'_> {
    /// Replaces a position by that of the next slot.
    fn draw(&mut self, position: &mut Position)
        ensures { IsDrawn (position.old ∷ []) (position.new ∷ [])
            self.old.left.now self.new.left.now }
    {
        match self.left.split_first() {
            Some((slot, rest)) => {
                self.left = rest;
                *position = match slot {
                    Some(site) => site_to_position(*site),
                    None => Position::NONE,
                };
            }
            None => *position = Position::NONE,
        }
    }
}

/// Replaces the position of a root, if it has one.
fn draw_root(root: &mut Root, slots: &mut Slots<'_>)
    ensures drawn { IsDrawn (root_positions root.old) (root_positions root.new)
        slots.old.left.now slots.new.left.now }
    ensures rest { (p : Position) → root_shape p root.new ≡ root_shape p root.old }
{
    match root {
        Root::Named { pos, .. } => slots.draw(pos),
        Root::This { pos } => slots.draw(pos),
        Root::Local { .. } | Root::Temporary => {}
    }
}

/// Replaces the positions of a step.
fn draw_step(step: &mut Step, slots: &mut Slots<'_>)
    ensures drawn { IsDrawn (step_positions step.old) (step_positions step.new)
        slots.old.left.now slots.new.left.now }
    ensures rest { (p : Position) → step_shape p step.new ≡ step_shape p step.old }
{
    match step {
        Step::Index { pos, bracket, .. } => {
            slots.draw(pos);
            slots.draw(bracket);
        }
        Step::Property { pos, .. } => slots.draw(pos),
        Step::Method { pos, .. } => slots.draw(pos),
    }
}

/// Replaces the positions of steps.
fn draw_steps(steps: &mut [Step], slots: &mut Slots<'_>)
    ensures drawn { IsDrawn (steps_positions steps.old) (steps_positions steps.new)
        slots.old.left.now slots.new.left.now }
    ensures rest { (p : Position)
        → map (step_shape p) steps.new ≡ map (step_shape p) steps.old }
{
    for step in steps.iter_mut() {
        draw_step(step, slots);
    }
}

/// Replaces the positions of a chain.
fn draw_chain(chain: &mut Chain, slots: &mut Slots<'_>)
    ensures drawn { IsDrawn (positions chain.old) (positions chain.new)
        slots.old.left.now slots.new.left.now }
    ensures rest { (p : Position) → shape p chain.new ≡ shape p chain.old }
{
    draw_root(&mut chain.root, slots);
    draw_steps(&mut chain.steps, slots);
}

/// Replaces the positions of chains, chain by chain.
pub(crate) fn draw_chains(chains: &mut [Chain], slots: &mut Slots<'_>)
    ensures drawn { IsDrawn (all_positions chains.old) (all_positions chains.new)
        slots.old.left.now slots.new.left.now }
    ensures rest { (p : Position) → map (shape p) chains.new ≡ map (shape p) chains.old }
{
    for chain in chains.iter_mut() {
        draw_chain(chain, slots);
    }
}

/// Adds the number of a chain's positions to a count, which stays at the greatest.
fn count_more(before: usize, chain: &Chain) -> usize
    ensures { result ≡ min (before + length (positions chain.now)) 18446744073709551615 }
{
    let mut count = before.saturating_add(chain.root.position_slots() as usize);
    for step in &chain.steps {
        count = count.saturating_add(step.position_slots() as usize);
    }
    count
}

/// Counts the positions of chains. The count stays at the greatest.
pub(crate) fn count_slots(chains: &[Chain]) -> usize
    ensures { result ≡ min (length (all_positions chains.now)) 18446744073709551615 }
{
    let mut count = 0;
    for chain in chains {
        count = count_more(count, chain);
    }
    count
}
