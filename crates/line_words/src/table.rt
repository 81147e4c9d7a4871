//! Tables of words.
ghost use Rattle.std.specs.Prelude.{◌≡◌, map};
ghost use Rattle.line_words.specs.Tables.{named};

/// What the first entry with this word stands for, if there is one.
pub fn named<T: Copy>(table: &[(&[u8], T)], word: &[u8]) -> Option<T>
    ensures { result ≡ named word.now (map (λ v. (v.0.now, v.1)) table.now) }
{
    for (name, value) in table {
        if *name == word {
            return Some(*value);
        }
    }
    None
}
