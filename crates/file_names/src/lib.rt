// The names on the lines of a routine file. The meaning is in the specs of `file_format`.
#![tactic(auto)]

ghost use Rattle.std.specs.Prelude.{◌≡◌, length, take};
ghost use Rattle.text.specs.Text.{line_words, distinct};
ghost use Rattle.text_decimals.specs.Decimal.{is_digit};
ghost use Rattle.file_format.specs.Rows.{is_capital, in_name, is_name, equal_lists, cell_names, is_field, block_sizes};
ghost use Rattle.file_format.specs.Layout.{list};
ghost use Rattle.file_names.specs.HeldNames.{BlocksOf, added};

// Whether no word of line stands twice.
pub fn distinct(line: &[u8]) -> bool
    ensures { result ≡ distinct (line_words line.now) }
{
    let mut rest = line;
    let mut e = text::piece_length(rest, b' ');
    // A while: each word is sought in the rest of the line after it, which `split` does not hand out.
    while e < rest.len() {
        let w = &rest[..e];
        rest = &rest[e + 1..];
        if text::is_among(w, rest) {
            return false;
        }
        e = text::piece_length(rest, b' ');
    }
    true
}

fn is_capital(c: u8) -> bool
    ensures { result ≡ is_capital c }
{
    if 65 <= c { c <= 90 } else { false }
}

fn is_digit(c: u8) -> bool
    ensures { result ≡ is_digit c }
{
    if 48 <= c { c <= 57 } else { false }
}

// Whether c may stand in a name.
fn in_name(c: u8) -> bool
    ensures { result ≡ in_name c }
{
    if is_capital(c) {
        return true;
    }
    if is_digit(c) {
        return true;
    }
    c == 95
}

// Whether w is spelt as a primitive's name.
pub fn is_name(w: &[u8]) -> bool
    ensures { result ≡ is_name w.now }
{
    if w.len() == 0 {
        return false;
    }
    if 8 < w.len() {
        return false;
    }
    if !is_capital(w[0]) {
        return false;
    }
    w[1..].iter().all(|c| in_name(*c))
}

// Whether the words of line are the first of the words of names.
fn begins(line: &[u8], names: &[u8]) -> bool
    ensures { result ≡ equal_lists (line_words line.now) (take (length (line_words line.now)) (line_words names.now)) }
{
    if text::count_words(names) < text::count_words(line) {
        return false;
    }
    let others = text::split_words(names);
    text::split_words(line)
        .zip(others)
        .all(|(word, other)| text::same(word, other))
}

// The names of the cells, parted by single spaces.
const CELLS: [u8; 122] =
    *b"ACCU S0 S1 S2 S3 S4 S5 S6 S7 S8 S9 S10 S11 S12 S13 S14 S15 S16 S17 S18 S19 S20 S21 S22 S23 S24 S25 S26 S27 S28 S29 S30 S31";

// Whether the words of line are the names of the first cells.
pub fn cells_named(line: &[u8]) -> bool
    ensures { result ≡ equal_lists (line_words line.now) (take (length (line_words line.now)) cell_names) }
{
    begins(line, &CELLS)
}

// Whether w is the name of field n of block k.
pub fn is_field(k: usize, n: usize, w: &[u8]) -> bool
    ensures { result ≡ is_field k n w.now }
{
    if 8 <= k {
        return false;
    }
    if 16 <= n {
        return false;
    }
    if n < 10 {
        let name = [b'B', 48 + (k as u8), b'.', 48 + (n as u8)];
        return text::same(w, &name);
    }
    let name = [b'B', 48 + (k as u8), b'.', b'1', 38 + (n as u8)];
    text::same(w, &name)
}

// The sizes of the blocks that names make: the first `count` of `sizes`, and their sum.
#[derive(Clone, Copy)]
pub struct Blocks {
    pub sizes: [u8; 8],
    pub count: usize,
    pub total: usize,
}

// The blocks with one more name; the same blocks where the name is out of sequence.
fn add_name(blocks: Blocks, name: &[u8]) -> Blocks
    requires { BlocksOf (take blocks.count blocks.sizes) blocks }
    ensures { BlocksOf (added 0 (take blocks.count blocks.sizes) name.now) result }
{
    let count = blocks.count;
    let mut sizes = blocks.sizes;
    if 0 < count {
        let last = count - 1;
        let n = sizes[last];
        if is_field(last, n as usize, name) {
            sizes[last] = n + 1;
            return Blocks {
                sizes: sizes,
                count: count,
                total: blocks.total + 1,
            };
        }
    }
    if is_field(count, 0, name) {
        sizes[count] = 1;
        return Blocks {
            sizes: sizes,
            count: count + 1,
            total: blocks.total + 1,
        };
    }
    blocks
}

// The blocks that the names on line make, up to the first name that is out of sequence.
pub fn blocks_named(line: &[u8]) -> Blocks
    ensures { BlocksOf (block_sizes (list line.now)) result }
{
    let none = [0; 8];
    let mut blocks = Blocks {
        sizes: none,
        count: 0,
        total: 0,
    };
    if text::same(line, b"-") {
        return blocks;
    }
    for name in text::split_words(line) {
        let next = add_name(blocks, name);
        if next.total == blocks.total {
            return blocks;
        }
        blocks = next;
    }
    blocks
}
