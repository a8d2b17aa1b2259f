// A plan that is laid out as rows.
ghost use Rattle.rows.specs.Rows.{SoundRows};

use crate::PlanRow;

// The rows of a plan: those before the end.
#[derive(Clone, Copy)]
pub struct PlanRows<'a> {
    pub rows: &'a [PlanRow; 127],
    pub end: usize,
    pub ghost sound: { SoundRows rows.now end },
}
