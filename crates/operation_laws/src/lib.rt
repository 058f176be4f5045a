//! Operations on modules. Each function's contract is a law, proved here.
#![tactic(auto)]

mod marked_bases;
mod module_operations;
mod one_more_variable;

pub use marked_bases::{
    lifts, marked_parts, marks_of_some, parts_behind, polynomials_by_position, remainders,
};
pub use module_operations::{
    colons, eliminations, graded_eliminations, intersections, joined_lists, kernels,
    plain_eliminations, products_of_lists, quotients, runs, saturations,
};
pub use one_more_variable::embedding;
