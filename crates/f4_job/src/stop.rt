// Why there are no new rows.
ghost use Rattle.std.specs.Prelude.{◌≡◌};
ghost use Rattle.f4_job.specs.declared.stop.MatrixStop.TheVariants.{Memory};

use module_vectors::NoMemory;

/// Why a job's matrix gives no rows: no memory, or a product of the matrix has a degree above 65,535.
#[derive(Drop)]
pub(crate) enum MatrixStop {
    Memory,
    Degree,
}

impl From<NoMemory> for MatrixStop {
    ghost from_gives = { λ _ stop. stop ≡ Memory };

    fn from(_error: NoMemory) -> MatrixStop {
        MatrixStop::Memory
    }
}
