// Words of the input, in either case.
ghost use Rattle.std.specs.Prelude.{◌≡◌, ◌≤◌, length};
ghost use Rattle.base_notation.specs.Text.{byte_at};
ghost use Rattle.template_patterns.specs.Words.{word_table};
ghost use Rattle.template_patterns.specs.declared.tables.WordList.{WordList};
ghost use Rattle.read_words.specs.FoldOnce.{beginning, in_nine, length_there, until_space, word_in};
ghost use Rattle.read_words.specs.Spelling.{word_at, Found as Spelled};

use template_patterns::WordList;

// A word by its index in its list, and its length.
#[derive(Clone, Copy)]
pub struct Word {
    pub index: usize,
    pub len: usize,
}

// The bytes of the input from a place on, at most `most`, with capital letters made small; then 0s, nine in all.
fn folded_beginning(s: &[u8], at: usize, most: usize) -> [u8; 9]
    requires { most ≤ 9 }
    ensures { result ≡ in_nine (beginning most s.now at) }
{
    let n = base_notation::fitting(s.len(), at, most);
    let mut start = [0u8; 9];
    for j in 0..n {
        let b = s[at + j];
        start[j] = base_chars::folded(b);
    }
    start
}

// The length of the word in a row, if the bytes begin with it. The first byte is the same and no space.
fn spelled(row: &[u8], start: &[u8; 9]) -> Option<usize>
    requires { (length row.now ≡ 9) × (byte_at row.now 0 ≡ byte_at start.now 0) × (byte_at start.now 0 ≡ 32 → ⊥) }
    ensures { result ≡ length_there (until_space row.now) start.now }
{
    for j in 1..9 {
        if row[j] == b' ' {
            return Some(j);
        }
        if start[j] != row[j] {
            return None;
        }
    }
    Some(9)
}

// The first word of a list's table that the bytes begin with. Most words are passed over by their first byte.
fn first_word(table: &[u8; 108], start: &[u8; 9]) -> Option<Word>
    requires { length table.now ≡ 108 }
    ensures { (list : WordList) → table.now ≡ word_table list → result ≡ word_in list start.now }
{
    let first = start[0];
    if first == b' ' {
        return None;
    }
    for index in 0..12 {
        let row = &table[9 * index..9 * index + 9];
        if row[0] == first {
            if let Some(len) = spelled(row, start) {
                return Some(Word { index, len });
            }
        }
    }
    None
}

// The first word of a list that is at a place, in either case.
pub fn seq_search_ascii(s: &[u8], at: usize, list: WordList) -> Option<Word>
    ensures { Spelled s.now at (word_at list s.now at) result }
{
    let start = folded_beginning(s, at, template_patterns::longest(list));
    let table = template_patterns::words(list);
    first_word(table, &start)
}
