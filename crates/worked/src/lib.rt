// Twelve worked measurements as one proved table: see specs/Table.antt.
#![tactic(auto)]

ghost use Rattle.std.specs.Prelude.{◌≡◌, length};
ghost use Rattle.std.specs.List.{AllByRecursion};
ghost use Rattle.worked.specs.Table.{table, Correct};

// How many rows the table has; whatever measures the bodies of a row says what the row says.
pub fn worked_measurements() -> usize
    ensures count { result ≡ length table }
    ensures correct { AllByRecursion Correct table }
{
    12
}
