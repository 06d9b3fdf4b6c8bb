// The tree of a valid basin.
ghost use Rattle.std.specs.Prelude.{◌≡◌, MatchOption};

use basin::leaf::Leaf;
use basin::quarters::Quarters;
use nodes::spot::Spot;
use tables::survey::Survey;

/// A node of a valid basin's tree.
#[derive(Clone, Copy)]
pub struct Node<'a> {
    pub survey: &'a Survey<'a>,
    pub spot: Spot,
    ghost same: { spot.levels ≡ survey.now.head.levels },
}

impl<'a> Node<'a> {
    ghost use Rattle.nodes.specs.Spots.{WholeSpot};
    ghost use Rattle.encode.specs.Nodes.{level_at, record_at, IsLeaf, IsCut};

    /// The node of the whole basin.
    pub fn whole(survey: &'a Survey<'a>) -> Node<'a>
        ensures survey { result.survey ≡ survey.entry }
        ensures spot { WholeSpot survey.now.head.levels result.spot }
    {
        Node {
            survey,
            spot: Spot::whole(survey.head),
        }
    }

    /// The level of the leaf that the node's south-west square lies in.
    pub fn level(self) -> u8
        ensures { result ≡ level_at self.entry }
    {
        self.survey.levels[self.spot.corner()]
    }

    /// The record on the node's south-west square, which is that of the leaf where the node is one.
    pub fn leaf(self) -> Leaf
        ensures { result ≡ record_at self.entry }
    {
        self.survey.leaves[self.spot.corner()]
    }

    /// Its quarters, unless it is a leaf.
    pub fn quarters(self) -> Option<Quarters<Node<'a>>>
        ensures { MatchOption result (IsLeaf self.entry) (λ q. IsCut self.entry q) }
    {
        let survey = self.survey;
        if self.level() <= survey.head.levels - self.spot.height {
            return None;
        }
        let Quarters { sw, se, nw, ne } = self.spot.quarters()?;
        Some(Quarters {
            sw: Node { survey, spot: sw },
            se: Node { survey, spot: se },
            nw: Node { survey, spot: nw },
            ne: Node { survey, spot: ne },
        })
    }
}
