//! Laws of plans.

ghost use Rattle.mt_unit.specs.FlsCells.{FlsCellsAreTheTable};
ghost use Rattle.mt_unit.specs.RamCells.{RamCellsAreTheTable};
ghost use Rattle.mt_unit.specs.Laws.{PlansAreTheSteps, PlansMakeTheSequence, WordsComeBack};

/// A plan reads back as the steps of its algorithm.
pub fn plans_are_the_steps()
    ensures { PlansAreTheSteps }
{}

/// Whatever a memory answers and whenever an urgent interrupt waits: carrying a plan out makes the accesses of the sequence, in
/// order, with its verdict, or those of the attempt that is dropped at the first moment at which one waits; and the last
/// accesses leave in each cell what its saving read answered, or the fill.
pub fn plans_make_the_sequence()
    ensures makes { PlansMakeTheSequence }
    ensures back { WordsComeBack }
{}

/// The cells of the unit's tables say what those of the state tables say by which the modules are proved.
pub fn cells_are_the_tables()
    ensures ram { RamCellsAreTheTable }
    ensures fls { FlsCellsAreTheTable }
{}
