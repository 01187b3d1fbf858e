//! A run as a picture: lifelines of actors, and an arrow for each envelope, in one SVG that stands alone.
#![tactic(auto)]

pub mod acts;
pub mod apart;
pub mod arrows;
pub mod draw;
pub mod escape;
pub mod executed;
pub mod frame;
pub mod labels;
pub mod layout;
pub mod legend;
pub mod lifeline;
pub mod picture;
pub mod piles;
pub mod plays;
pub mod replay;
pub mod scene;
pub mod staging;
