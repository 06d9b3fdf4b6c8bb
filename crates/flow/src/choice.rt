// A choice of rules, as a rule.
ghost use Rattle.flow.specs.Choices.{chosen};
ghost use Rattle.flow.specs.declared.rules.Rules.TheVariants.{Central, Pond};
ghost use Rattle.flow.specs.CentralLaws.{central_rests, central_mirrors, central_mirrors_along, central_capped};
ghost use Rattle.flow.specs.PondLaws.{pond_rests, pond_mirrors, pond_mirrors_along, pond_capped};
ghost use Rattle.std.proofs.Common.{arith, rules};

use crate::central::Central;
use crate::flux::Flux;
use crate::pond::Pond;
use crate::rule::FlowRule;
use crate::rules::Rules;
use crate::side::Side;

// A match and no `dyn FlowRule`: the two rules are all that a program can name, and an enum of them is copied like a number.
impl FlowRule for Rules {
    const FLOW_CAP: u64 = 1_200_000_000;

    const PUSH_CAP: u64 = 25_000_000_000_000;

    ghost FLOW_CAP = { 1200000000 };

    ghost PUSH_CAP = { 25000000000000 };

    ghost meaning = { chosen };

    ghost low = { Prim.search rules };

    ghost rest = { elim [ Central ↦ central_rests | Pond ↦ pond_rests ] };

    ghost mirror = { elim [ Central ↦ central_mirrors | Pond ↦ pond_mirrors ] };

    ghost along = { elim [ Central ↦ central_mirrors_along | Pond ↦ pond_mirrors_along ] };

    ghost caps = { elim [
      | Central ↦ central_capped
      | Pond ↦
          record {
            flow = λ a b p q. omega (arith, pond_capped.flow a b p q);
            push = λ a b p q. omega (arith, pond_capped.push a b p q);
            drift = λ a b p q. omega (arith, pond_capped.drift a b p q);
          }
    ] };

    fn between(&self, one: Side, two: Side) -> Flux {
        match *self {
            Rules::Central => Central.between(one, two),
            Rules::Pond => Pond.between(one, two),
        }
    }
}
