// The units of the working store; specs/Layout has the map.
ghost use Rattle.std.specs.Prelude.{◌≡◌, ◌≤◌, ◌<◌};
ghost use Rattle.aut68.specs.Sizes.{largest_limit, work_units, nesting};
ghost use Rattle.cells.specs.Layout.{unit_at, names_at, levels, line_unit, level_unit, side_unit, scratch_unit, result_unit};

use constants::{LARGEST_LIMIT, NESTING, WORK_UNITS};

// The context of the line that is read.
pub const CONTEXT_UNIT: usize = 23;

// The lines that the line names, in these two units and the cell ahead of them.
const NAMES_UNIT: usize = 22;

// The line's cells.
pub const LINE_UNIT: usize = 24;

// The units that a reading works in; the categories' units follow, one a level.
pub const READER_UNITS: usize = 26;

pub const LEVELS: usize = 36;

const SCRATCH_UNIT: usize = WORK_UNITS - 2;

const RESULT_UNIT: usize = WORK_UNITS - 1;

// Where unit k starts. A limit above LARGEST_LIMIT has no units: 0.
// Kept: no caller has such a limit, so an Option would be taken apart for nothing wherever a unit is used.
fn unit_at(limit: usize, k: usize) -> usize
    requires { k < work_units }
    ensures { limit ≤ largest_limit → result ≡ unit_at limit k }
{
    if limit > LARGEST_LIMIT {
        return 0;
    }
    k * limit
}

// Where the units of the line's cells start.
pub fn line_at(limit: usize) -> usize
    ensures { limit ≤ largest_limit → result ≡ unit_at limit line_unit }
{
    unit_at(limit, LINE_UNIT)
}

// Where the lines that the line names start: there are at most 2 × limit + 1 of them. 0 where there are no units.
// Kept: as in unit_at.
pub fn names_at(limit: usize) -> usize
    ensures { 1 ≤ limit → limit ≤ largest_limit → result ≡ names_at limit }
{
    unit_at(limit, NAMES_UNIT).saturating_sub(1)
}

// Where the unit of a category's level starts; there are LEVELS of them.
pub fn level_at(limit: usize, level: usize) -> usize
    ensures { limit ≤ largest_limit → level < levels → result ≡ unit_at limit (level_unit level) }
{
    if level >= LEVELS {
        return 0;
    }
    unit_at(limit, READER_UNITS + level)
}

// Where the left side of a pair starts that may go `deeper` levels deeper, at most NESTING.
pub fn side_at(limit: usize, deeper: usize) -> usize
    ensures { limit ≤ largest_limit → deeper ≤ nesting → result ≡ unit_at limit (side_unit deeper) }
{
    if deeper > NESTING {
        return 0;
    }
    unit_at(limit, SCRATCH_UNIT - 2 * deeper)
}

// Where the scratch unit starts.
pub fn scratch_at(limit: usize) -> usize
    ensures { limit ≤ largest_limit → result ≡ unit_at limit scratch_unit }
{
    unit_at(limit, SCRATCH_UNIT)
}

// Where the result unit starts.
pub fn result_at(limit: usize) -> usize
    ensures { limit ≤ largest_limit → result ≡ unit_at limit result_unit }
{
    unit_at(limit, RESULT_UNIT)
}
