// The columns with two labels or more, listed: no other column adds to the sums over pairs of edges.
ghost use Rattle.triplets.specs.lemmas.ListedColumns.{ColumnRoom, AllListed};

use table_words::{Cell, cell_count};

// The columns from the second on whose first cell is 2 or more, from the front of `columns`, and in `above` the columns of
// their parents. How many there are.
pub(crate) fn list_columns(
    work: &[Cell],
    parents: &[u16],
    columns: &mut [usize],
    above: &mut [usize],
) -> usize
    requires { ColumnRoom work.now parents.now columns.old above.old }
    ensures { AllListed work.now parents.now result columns.new above.new }
{
    let last = parents.len() - 2;
    let mut count = 0;
    for i in 0..last {
        columns[count] = i + 1;
        above[count] = usize::from(parents[i + 2]) - 1;
        if 2 <= cell_count(work[i + 1]) {
            count += 1;
        }
    }
    count
}
