// The outside of the library: the types and calls that programs use.
#![tactic(auto)]

ghost use Rattle.kaftanore.specs.Worked.{Worked};

pub use basin::head::Head;
pub use basin::leaf::Leaf;
pub use basin::refusal::Refusal;
pub use calls::water::{draw, pour, settle};
pub use codec::fault::FileFault;
pub use codec::file::{read, table_length};
pub use drafts::calls::{close, lay, open};
pub use drafts::draft::Draft;
pub use encode::file::write;
pub use flow::central::Central;
pub use flow::flux::Flux;
pub use flow::pond::Pond;
pub use flow::rule::FlowRule;
pub use flow::rules::{Rules, UnknownRule};
pub use flow::side::Side;
pub use lists::call::{Call, Entry};
pub use lists::replay::replay;
pub use looks::look::Look;
pub use looks::square::look;
pub use looks::total::total;
pub use nodes::fault::TreeFault;
pub use numbers::fault::NumberFault;
pub use numbers::report::{Layer, Report};
pub use refine::merge::merge;
pub use refine::split::split;
pub use step::step::step;
pub use turns::composite::composite;
pub use turns::place::turned_place;
pub use turns::turn::turn;

/// Worked examples, proved of the definitions that the calls meet.
pub fn worked_examples()
    ensures { Worked }
{}

#[cfg(test)]
mod file_tests;
#[cfg(test)]
mod water_tests;
