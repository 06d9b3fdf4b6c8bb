// The walk over all leaves.
ghost use Rattle.std.specs.Prelude.{◌≡◌, ◌*◌, ◌^◌};
ghost use Rattle.basin.specs.Basins.{view};
ghost use Rattle.runs.specs.Calls.{moved as amount_moved};
ghost use Rattle.tables.specs.Surveys.{surveyed};
ghost use Rattle.walks.specs.Walks.{Walked};

use basin::leaf::Leaf;
use blocks::around::home;
use blocks::places::corner;
use flow::rule::FlowRule;
use tables::survey::Survey;
use visits::motion::Motion;
use visits::visit::visit;

/// Visits every leaf at its south-west square, and answers how much water the visits move. The work table starts as a copy of the records.
pub fn walk<R: FlowRule>(motion: &Motion<'_, R>, work: &mut [Leaf]) -> u64
    requires { work.old ≡ motion.now.survey.leaves.now }
    ensures moved { result ≡ amount_moved (R.meaning motion.now.rule.now) motion.now.pace.time (view (surveyed motion.now.survey)) }
    ensures walked { Walked (R.meaning motion.now.rule.now) motion.now.pace.time (surveyed motion.now.survey) (2 ^ motion.now.survey.head.levels * 2 ^ motion.now.survey.head.levels) work.new }
{
    let Survey { head, levels, .. } = motion.survey;
    let mut moved: u64 = 0;
    // An entry's number says which square it is, and with it whether a leaf is visited there.
    for i in 0..head.squares() {
        let block = home(head, levels, i);
        if corner(head, block) == i {
            moved += visit(motion, work, block) as u64;
        }
    }
    moved
}
