// The topology of four labels, for a viewer.
ghost use Rattle.std.specs.Prelude.{◌≡◌};
ghost use Rattle.trees.specs.declared.quartet.Topology.TheVariants.{Star as Topology-as-Star};
ghost use Rattle.levels.specs.ViewTopology.{view_topology, ViewTold};

use super::levels::{check_levels, some_hidden};
use trees::{Refusal, Topology, TopologyAnswer, check, refusal_of, topology_of};

// A refusal tells a star.
fn refused(number: u16) -> TopologyAnswer
    ensures { result ≡ record { refusal = number; topology = Topology-as-Star } }
{
    TopologyAnswer {
        refusal: number,
        topology: Topology::Star,
    }
}

// The topology of four visible labels. The tree's order, then 37, then 10, which a hidden label answers as one that does not exist
// does, then 11.
pub fn view_topology(
    table: &[u16],
    levels: &[u8],
    viewer: u16,
    a: u16,
    b: u16,
    c: u16,
    d: u16,
) -> TopologyAnswer
    ensures { (result ≡ view_topology table.now levels.now viewer a b c d)
        × ViewTold table.now levels.now viewer a b c d result }
{
    let answer = check(table);
    let Ok(tree) = answer else {
        return refused(refusal_of(answer));
    };
    let told = check_levels(levels, viewer, tree.tips);
    if told.refusal != 0 {
        return refused(told.refusal);
    }
    let asked = [a, b, c, d];
    if some_hidden(levels, viewer, &asked) {
        return refused(u16::from(Refusal::TooLarge));
    }
    topology_of(table, a, b, c, d)
}
