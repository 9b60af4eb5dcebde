//! Plans of runs of the pure world, which tests draw.

mod changes;
mod draw;
mod drawn_plans;
mod plan;
mod schedules;
mod scripts;

pub use drawn_plans::{Sizes, drawn, even};
pub use plan::Plan;
