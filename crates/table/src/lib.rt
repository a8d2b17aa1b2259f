// Reading the rows of a table, and the check of a table.

#![tactic(auto)]

mod checking;
mod decode;
mod fields;
mod primitives;
mod refusals;
mod size;

pub use checking::{check, check_table};
pub use decode::{read_row, word};
pub use primitives::primitive_at;
pub use refusals::{refuse_if, refuse_unless};
pub use size::{primitive_count, root, row_count};
