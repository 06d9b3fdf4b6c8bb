// What every rule keeps.
ghost use Rattle.runs.specs.Rules.{Lawful};

use crate::rule::FlowRule;

/// Every value of every rule keeps the four laws, as the steps of a run ask of their rules.
pub fn rules_are_lawful<R: FlowRule>(rule: &R)
    ensures { Lawful (R.meaning rule.now) }
{}
