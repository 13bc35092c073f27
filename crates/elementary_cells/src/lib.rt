// Tables by cells: the cell that a number lies in, and what the number is off from the cell's middle. Both ask for the same sum, which the compiler makes once.
// Begun, and used by nothing yet: the elementary functions by tables are to rest on it (docs/PORT.md, "Unfinished work").
#![tactic(auto)]

ghost use Rattle.std.specs.Prelude.{◌≡◌, not, T};
ghost use Rattle.std.specs.Float.{binary64};
ghost use Rattle.std.specs.Float.Ieee.{add, is_nan};
ghost use Rattle.elementary_cells.specs.Cells as Cells;

#[tactic(auto, unfolding(crate::specs::Cells::cell))]
pub fn cell(shifter: f64, a: f64) -> u64
    requires { T (not (is_nan (add binary64 a shifter))) }
    ensures { result ≡ Cells.cell shifter a }
{
    let b: u64 = f64::to_bits(a + shifter);
    b % 256
}

#[tactic(auto, unfolding(crate::specs::Cells::offset))]
pub fn offset(shifter: f64, a: f64) -> f64
    ensures { result ≡ Cells.offset shifter a }
{
    a - (a + shifter - shifter)
}
