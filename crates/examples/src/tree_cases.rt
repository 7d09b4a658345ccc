// Cases of one table.
use super::cells::word_at;
use super::print;
use trees::Topology;

pub(crate) fn check_case(table: &[u16]) {
    print::name(b"check");
    match trees::check(table) {
        Ok(tree) => {
            print::number(0u16);
            print::number(tree.tips);
            print::number(tree.nodes);
        }
        Err(refusal) => print::number(u16::from(refusal)),
    }
}

pub(crate) fn walk_case(table: &[u16], walk: &mut [u16]) {
    print::name(b"walk");
    print::number(trees::walk(table, walk));
    print::numbers(walk);
}

// The part of the walk beyond an edge.
pub(crate) fn part_case(name: &[u8], edge: u16, table: &[u16], walk: &[u16]) {
    print::name(name);
    print::number(trees::beyond_refusal(table, edge, walk));
    print::numbers(trees::beyond(table, edge, walk));
}

pub(crate) fn walked_case(edge: u16, table: &[u16], walk: &mut [u16]) {
    trees::walk(table, walk);
    part_case(b"walked", edge, table, walk);
}

pub(crate) fn centre_case(labels: &[u16], table: &[u16]) {
    let answer = trees::centre(
        table,
        word_at(labels, 0),
        word_at(labels, 1),
        word_at(labels, 2),
    );
    print::name(b"centre");
    print::number(answer.refusal);
    print::number(answer.node);
}

fn print_topology(topology: Topology) {
    match topology {
        Topology::Butterfly(partner) => {
            print::number(1u16);
            print::number(partner);
        }
        Topology::Star => print::number(0u16),
    }
}

pub(crate) fn topology_case(labels: &[u16], table: &[u16]) {
    let answer = trees::topology_of(
        table,
        word_at(labels, 0),
        word_at(labels, 1),
        word_at(labels, 2),
        word_at(labels, 3),
    );
    print::name(b"topology");
    print::number(answer.refusal);
    let topology = answer.topology;
    print_topology(topology);
}
