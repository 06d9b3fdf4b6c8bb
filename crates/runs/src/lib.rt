// The calls of a run as definitions over squares, and what holds of every list of them.
#![tactic(auto)]

ghost use Rattle.runs.specs.Refusing.{RefusesLowest, RefusalKeeps, RefusesFlaws};
ghost use Rattle.runs.specs.Roots.{Roots};
ghost use Rattle.runs.specs.Rules.{WallsHold};
ghost use Rattle.runs.specs.Runs.{AllRunsWell, CrossesWhatLeaves};

/// Every list of calls on a valid basin leaves valid basins, neither makes nor loses water, keeps standing water through steps, splits and
/// merges, and turns with the basin. Of several refusals the lowest is the answer, a refused call changes nothing, and what is no basin is
/// refused. No rule that keeps the laws lets water through a wall, every number has its root, and what crosses all faces in a step is what leaves
/// all leaves.
pub fn runs_are_lawful()
    ensures runs { AllRunsWell }
    ensures lowest { RefusesLowest }
    ensures kept { RefusalKeeps }
    ensures flaws { RefusesFlaws }
    ensures walls { WallsHold }
    ensures roots { Roots }
    ensures faces { CrossesWhatLeaves }
{}
