//! Free resolutions by their maps.
//!
//! A map is kept by its columns, with the degrees of its rows; the rows of each map are the columns of the one before. What it means
//! that maps are joined so, and that they are those of the canonical resolution, is said here for the crates that make them, that
//! change them and that read them.
#![tactic(auto)]

mod maps;

pub use maps::{Map, Resolution, column_degrees, joined_maps, positions_of_zero};
