// The new numbers of a tree's nodes.
ghost use Rattle.std.specs.Prelude.{◌≤◌, length};
ghost use Rattle.rerooting.specs.lemmas.Renumbering.{Rerootable, RenumberedAre};

use table_words::NODES;

// New numbers for the nodes of a tree that is renumbered to node z: along the path to node 0 first, then the others in order.
pub(crate) fn new_numbers(parents: &[u16], z: usize) -> [usize; NODES]
    requires { Rerootable parents.now (length parents.now) z }
    ensures { RenumberedAre parents.now (length parents.now) z result }
{
    let mut news = [NODES; NODES];
    let mut i = 0;
    let mut v = z;
    while v != 0 {
        news[v] = i;
        i += 1;
        v = usize::from(parents[v]);
    }
    news[0] = i;
    i += 1;
    for w in 0..parents.len() {
        if news[w] == NODES {
            news[w] = i;
            i += 1;
        }
    }
    news
}
