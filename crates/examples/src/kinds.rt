// The kinds of cases; cases.rt lists their numbers.
use super::cells::MOST_CELLS;

// What a case asks of one table.
#[derive(Clone, Copy, Debug, PartialEq, Eq)]
pub(crate) enum OfOne {
    Check,
    Walk,
    Beyond,
    Walked,
    Centre,
    Topology,
    Centres,
    Topologies,
    Changes,
    Zeros,
}

// What a case asks of two tables, or of one as both.
#[derive(Clone, Copy, Debug, PartialEq, Eq)]
pub(crate) enum OfTwo {
    Crossings,
    Splits,
    CrossingsOfOne,
    Quartets,
    QuartetsOfOne,
}

#[derive(Clone, Copy, Debug, PartialEq, Eq)]
pub(crate) enum Kind {
    One(OfOne),
    Two(OfTwo),
}

// A number that no kind has.
#[derive(Clone, Copy, Debug, PartialEq, Eq)]
pub(crate) struct UnknownKind(pub(crate) u16);

impl TryFrom<u16> for Kind {
    type Error = UnknownKind;

    fn try_from(number: u16) -> Result<Self, UnknownKind> {
        let kind = match number {
            0 => Kind::One(OfOne::Check),
            1 => Kind::One(OfOne::Walk),
            2 => Kind::One(OfOne::Beyond),
            3 => Kind::One(OfOne::Walked),
            4 => Kind::One(OfOne::Centre),
            5 => Kind::One(OfOne::Topology),
            6 => Kind::One(OfOne::Centres),
            7 => Kind::One(OfOne::Topologies),
            8 => Kind::One(OfOne::Changes),
            9 => Kind::One(OfOne::Zeros),
            10 => Kind::Two(OfTwo::Crossings),
            11 => Kind::Two(OfTwo::Splits),
            12 => Kind::Two(OfTwo::CrossingsOfOne),
            13 => Kind::Two(OfTwo::Quartets),
            14 => Kind::Two(OfTwo::QuartetsOfOne),
            _ => return Err(UnknownKind(number)),
        };
        Ok(kind)
    }
}

impl Kind {
    // The most words or cells that a case of this kind gets.
    pub(crate) fn most_cells(self) -> usize {
        match self {
            Kind::One(OfOne::Walk) => 1024,
            Kind::Two(OfTwo::Crossings | OfTwo::Splits | OfTwo::CrossingsOfOne) => 1024,
            _ => MOST_CELLS,
        }
    }
}
