// Tables that stand end to end: how many words the first of them takes.
ghost use Rattle.std.specs.Prelude.{◌≡◌, ◌≤◌, length};
ghost use Rattle.table_words.specs.Cutting.{table_length};

// 2 + 2m by word 1, or every word present if there are fewer than that, or fewer than two.
pub fn table_length(words: &[u16]) -> usize
    ensures { (result ≡ table_length words.now) × (result ≤ length words.now) }
{
    if words.len() < 2 {
        return words.len();
    }
    let whole = 2 + 2 * usize::from(words[1]);
    if words.len() < whole {
        return words.len();
    }
    whole
}
