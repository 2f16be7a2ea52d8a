//! Laws of the lists.

ghost use Rattle.mt_plan.specs.Steady.{PlansAreSteady, PlansAreCounted};
ghost use Rattle.mt_plan.specs.Cursor.{SpansAreCounted};
ghost use Rattle.mt_plan.specs.Kept.{MarchOnKeptCells, KeptCells};

/// The list of an algorithm is as long as its closed form says.
pub fn lengths()
    ensures { PlansAreCounted }
{}

/// How many steps loops make at once.
pub fn spans_are_counted()
    ensures { SpansAreCounted }
{}

/// Each read of a plan expects what the last write to its cell wrote, and no step leaves the cells.
pub fn plans_are_steady()
    ensures { PlansAreSteady }
{}

/// A march without the steps of other cells is the march on the kept ones, each under its name.
pub fn march_on_kept_cells()
    ensures { MarchOnKeptCells }
{}

/// Where all cells of a slice but one or two are left out, the kept cells are these, whatever the number of cells is.
pub fn kept_cells()
    ensures { KeptCells }
{}
