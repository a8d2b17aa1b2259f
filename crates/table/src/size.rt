// The rows of a sound table: how many there are, the last of them, and how many are primitives.
ghost use Rattle.std.specs.Prelude.{◌-◌, ◌≡◌, length};
ghost use Rattle.rules.specs.Table.{row_count, primitives};
ghost use Rattle.laws.specs.Sound.{Sound};

pub fn row_count(table: &[i32]) -> usize
    ensures { result ≡ row_count table.now }
{
    table.len() / rules::ROW_WORDS
}

// The root is the last row.
pub fn root(table: &[i32]) -> usize
    requires { Sound table.now }
    ensures { result ≡ row_count table.now - 1 }
{
    row_count(table) - 1
}

// Half the rows, rounded up.
pub fn primitive_count(table: &[i32]) -> usize
    requires { Sound table.now }
    ensures { result ≡ length (primitives table.now) }
{
    (row_count(table) + 1) / 2
}
