//! Tables of keywords.

ghost use Rattle.std.specs.Prelude.{◌≡◌, option_map, find, map};
ghost use Rattle.text_lines.specs.Keywords.{is_word, in_table};

/// The keyword of a table's first entry for a word.
fn keyword_at<K: Copy>(table: &[(&[u8], K)], word: &[u8]) -> Option<K>
    ensures { result ≡ option_map (λ e. e.1) (find (λ e. is_word e.0.now word.now) table.now) }
{
    let entry = table.iter().find(|entry| entry.0 == word)?;
    Some(entry.1)
}

/// The keyword that a table has for a word: that of its first entry with this word, or `None` if it
/// has no entry with it.
pub fn keyword_in<K: Copy>(table: &[(&[u8], K)], word: &[u8]) -> Option<K>
    ensures { result ≡ in_table (map (λ e. (e.0.now, e.1)) table.now) word.now }
{
    keyword_at(table, word)
}
