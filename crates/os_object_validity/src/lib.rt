//! Whether the parts of a code are valid: `is_valid` says yes exactly where they are, as `os_code` defines it.
//!
//! It looks at where the units stand (`regions`), at sites and at what kind each unit is of (`sites`, `kinds`), at what each
//! instruction names (`places`), and then at the heights of the operand stack (`heights`). These it finds along the ways
//! from each unit's start: each place that is reached is visited once, with a height that a way from the start has, so two
//! heights at a place, or one that doesn't fit, refuse the code. It takes time and memory in proportion to the parts.
#![tactic(auto)]

mod effects;
mod heights;
mod kinds;
mod places;
mod regions;
mod sites;
mod validity;

pub use validity::is_valid;
