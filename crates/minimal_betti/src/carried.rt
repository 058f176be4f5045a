// A map while constants leave.
use module_vectors::VectList;

/// The columns of a map, with their degrees.
#[derive(Drop)]
pub(crate) struct Carried {
    pub columns: VectList,
    pub degrees: Vec<u32>,
}
