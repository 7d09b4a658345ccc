// The refusals: each rule that can be broken, and its number (docs/SPECIFICATION.md, 'The numbers').
ghost use Rattle.std.specs.Prelude.{◌≡◌, MatchResult};
ghost use Rattle.tree_check.specs.Numbers.{table_number, refusal_number};
ghost use Rattle.tree_check.specs.declared.refusals.Refusal.TheVariants.{Table};

// Why words are no tree table.
#[derive(Clone, Copy, PartialEq, Eq)]
pub enum TableRefusal {
    TooFewWords,
    Tips,
    Nodes,
    Length,
    Parents,
    Labels,
    Repeated,
    Misplaced,
}

// Why a call is refused. What breaks a rule of a table stands under `Table`, or under `Second` where two tables come.
#[derive(Clone, Copy, PartialEq, Eq)]
pub enum Refusal {
    Table(TableRefusal),
    Second(TableRefusal),
    TipsDiffer, // the two tables have different tips
    Cells, // there are too few work cells
    TooLarge, // a label is none of the tree's, or is hidden
    Equal, // two of the labels are equal
    Short, // a lent list is too short
    NoEdge, // the edge is none of the tree's
    LongFile, // the file has more than 1016 bytes
    OddFile, // the file has an odd number of bytes
    Fraction, // a fraction is no weight's
    Marks, // there are not exactly n marks, or a mark is above 1
    AsWished, // the label already is as wished
    Counts, // the counts are not those of the kept labels
    FewKept, // fewer than two labels are kept
    ShortCopy, // the slice for a copy is too short
    Levels, // there are not exactly n levels, or a level is above 3
    ListLength, // a list has no word 0, or that is not 2 to 16
    ListTree, // a table of a list is refused, or words are left over
}

impl From<TableRefusal> for Refusal {
    ghost from_gives = { λ table refusal. refusal ≡ Table table };

    fn from(refusal: TableRefusal) -> Refusal {
        Refusal::Table(refusal)
    }
}

impl From<TableRefusal> for u16 {
    ghost from_gives = { λ refusal number. number ≡ table_number refusal };

    fn from(refusal: TableRefusal) -> u16 {
        match refusal {
            TableRefusal::TooFewWords => 1,
            TableRefusal::Tips => 2,
            TableRefusal::Nodes => 3,
            TableRefusal::Length => 4,
            TableRefusal::Parents => 5,
            TableRefusal::Labels => 6,
            TableRefusal::Repeated => 31,
            TableRefusal::Misplaced => 7,
        }
    }
}

// The second table's numbers are the first's plus 100.
impl From<Refusal> for u16 {
    ghost from_gives = { λ refusal number. number ≡ refusal_number refusal };

    fn from(refusal: Refusal) -> u16 {
        match refusal {
            Refusal::Table(table) => u16::from(table),
            Refusal::Second(table) => 100 + u16::from(table),
            Refusal::TipsDiffer => 8,
            Refusal::Cells => 9,
            Refusal::TooLarge => 10,
            Refusal::Equal => 11,
            Refusal::Short => 12,
            Refusal::NoEdge => 13,
            Refusal::LongFile => 14,
            Refusal::OddFile => 15,
            Refusal::Fraction => 30,
            Refusal::Marks => 32,
            Refusal::AsWished => 33,
            Refusal::Counts => 34,
            Refusal::FewKept => 35,
            Refusal::ShortCopy => 36,
            Refusal::Levels => 37,
            Refusal::ListLength => 38,
            Refusal::ListTree => 39,
        }
    }
}

// The number of any answer: 0 for accepted, and else that of its refusal.
pub fn refusal_of<T: Drop, E: Into<u16> + Drop>(answer: Result<T, E>) -> u16
    ensures { MatchResult answer (λ _. result ≡ 0) (λ refusal. E.Into.converts refusal result) }
{
    match answer {
        Ok(_) => 0,
        Err(refusal) => refusal.into(),
    }
}
