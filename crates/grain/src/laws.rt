//! Laws of the definitions that contracts cite.
//!
//! Each function does nothing: its contract is the law.

mod building;
mod positions;

pub use building::building_is_verifying;
pub use grain_rules::laws::{
    bodies_are_instructions, edges_are_steps, faults_elsewhere_are_kept,
    faults_land_on_catch_edges, indices_are_addresses, indices_in_bounds_lie_in_pools,
    moves_elsewhere_are_kept, steps_stay_within_operands, switches_lead_inside,
    typings_are_typings_by_depth, typings_cover_runs, walks_and_runs,
};
pub use positions::stripped_positions_come_back;
