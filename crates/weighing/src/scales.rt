// What a plan file is weighed with.
ghost use Rattle.std.specs.Prelude.{◌≡◌, length};
ghost use Rattle.plan.specs.Standing.{new_plan, stands};

use plan::drafted::Draft;

// What a judging to the horizon 600 asks of lent memory.
const WORK_CELLS: usize = 14424;

const TOTALS: usize = 601;

// The plan as it stands, and the memory that is lent to its judgings.
#[derive(Drop)]
pub(crate) struct Scales {
    pub(crate) plan: Draft,
    pub(crate) work: [u32; WORK_CELLS],
    pub(crate) totals: [u64; TOTALS],
    ghost work_cells: { length work ≡ 14424 },
    ghost totals_cells: { length totals ≡ 601 },
}

impl Scales {
    pub(crate) fn new() -> Scales
        ensures { stands result.plan ≡ new_plan }
    {
        Scales {
            plan: Draft::new(),
            work: [0; WORK_CELLS],
            totals: [0; TOTALS],
        }
    }
}
