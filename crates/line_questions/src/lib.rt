// The items of a question: numbers, a place in a text, and the bytes of a text in hexadecimal digits, `-` for none.
#![tactic(auto)]

ghost use Rattle.std.specs.Prelude.{◌≡◌, ◌<◌, ◌^◌, IfOk, []};
ghost use Rattle.line_questions.specs.Items.{ReadBytes, numbers, numbers_at, place_at, place_of};

// The most numbers of a question.
const MOST: usize = 3;

// The numbers of a question: `count` of them, none where an item is no number or there are more than three.
#[derive(Clone, Copy)]
pub struct Numbers {
    pub values: [i32; MOST],
    pub count: usize,
}

fn no_numbers() -> Numbers
    ensures { result ≡ numbers [] }
{
    let values = [0i32; MOST];
    Numbers { values, count: 0 }
}

// The numbers of the items from `from` on, where the first one's separator is.
pub fn read_numbers(line: &[u8], from: usize) -> Numbers
    ensures { result ≡ numbers_at line.now from }
{
    let mut values = [0i32; MOST];
    let mut count: usize = 0;
    let mut at = from;
    while at < line.len() {
        let end = line_buffers::find(line, at + 1, b' ');
        let Some(n) = line_numbers::read_int(&line[at + 1..end]) else {
            return no_numbers();
        };
        let full = MOST <= count;
        if full {
            return no_numbers();
        }
        values[count] = n;
        count += 1;
        at = end;
    }
    Numbers { values, count }
}

// A place in a text, and where its item ends.
#[derive(Clone, Copy)]
pub struct Place {
    pub at: usize,
    pub end: usize,
}

// The last item of a line, before which a separator is at `from`: its bytes go into `text`. The result is their number,
// or none where the item is malformed.
pub fn read_bytes(line: &[u8], from: usize, text: &mut [u8]) -> Option<usize>
    ensures { ReadBytes line.now from text.old text.new result }
{
    if line.len() <= from {
        return None;
    }
    let item = &line[from + 1..];
    let count = line_numbers::put_hex(item, text, 0);
    if item == b"-".as_slice() {
        return Some(0);
    }
    if item.len() % 2 == 1 || count != item.len() / 2 {
        return None;
    }
    Some(count)
}

// The number of an item from `from` to `end`, as a place.
#[tactic(auto, unfolding(crate::specs::Items::place_of))]
fn place_of(n: i64, from: usize, end: usize) -> Result<Place, usize>
    ensures place { result ≡ place_of (Some n) from end }
    ensures below { IfOk result (λ p. p.at < 2 ^ 63) }
{
    let Ok(at) = usize::try_from(n) else {
        return Err(from);
    };
    Ok(Place { at, end })
}

// The next item of a line as a place in a text, and where that item ends. Where an item is malformed, the error is
// where its separator is: the item is not passed.
pub fn read_place(line: &[u8], from: usize) -> Result<Place, usize>
    ensures place { result ≡ place_at line.now from }
    ensures below { IfOk result (λ p. p.at < 2 ^ 63) }
{
    if line.len() <= from {
        return Err(from);
    }
    let end = line_buffers::find(line, from + 1, b' ');
    let Some(n) = line_numbers::read_number(&line[from + 1..end]) else {
        return Err(from);
    };
    place_of(n, from, end)
}
