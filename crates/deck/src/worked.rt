// Worked examples.
ghost use Rattle.std.specs.Prelude.{◌≡◌, length};
ghost use Rattle.deck.specs.Examples.{table_rows, WorkedTable};

// How many rows the table of worked examples has; every row holds.
pub fn worked_examples() -> usize
    ensures { (result ≡ length table_rows) × WorkedTable }
{
    29
}
