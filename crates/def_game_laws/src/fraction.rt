//! Laws of `def_fraction`: exact fractions and the number literals that stand for them.

pub mod laws;
pub mod rows;
