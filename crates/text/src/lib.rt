// Texts as bytes: lines and words. The meaning is in specs/.
#![tactic(auto)]

ghost use Rattle.std.specs.Prelude.{length, get_or, drop, [], ◌∷◌, ◌≡◌, ◌+◌, ◌-◌, ◌≤◌};
ghost use Rattle.std.specs.Iterator.{YieldsFirstRef, item_count};
ghost use Rattle.text.specs.Text.{equals, parted_by, line_words, lines, no_line, lookup, index_of, among};
ghost use Rattle.text.specs.HeldWords.{words_left};

// What looking a word up among others comes to: where it stands, and how many of them were looked at.
#[derive(Clone, Copy)]
pub struct Lookup {
    pub place: Option<usize>,
    pub looked: usize,
}

// Whether a and b are the same text.
pub fn same(a: &[u8], b: &[u8]) -> bool
    ensures { result ≡ equals a.now b.now }
{
    a == b
}

// The length of the first piece of s that the byte c parts. Four bytes are looked at in a turn, which is faster than one.
pub fn piece_length(s: &[u8], c: u8) -> usize
    ensures { result ≡ length (get_or (parted_by c s.now) 0 []) }
{
    let mut i = 0;
    // A while: a turn passes four bytes, and the bytes that are left after the last are passed one by one.
    while 4 <= s.len() - i {
        if s[i] == c {
            return i;
        }
        if s[i + 1] == c {
            return i + 1;
        }
        if s[i + 2] == c {
            return i + 2;
        }
        if s[i + 3] == c {
            return i + 3;
        }
        i += 4;
    }
    for k in i..s.len() {
        if s[k] == c {
            return k;
        }
    }
    s.len()
}

// The words of a line that are left, the first of them first.
#[derive(Drop)]
pub struct Words<'a> {
    rest: Option<&'a [u8]>,
}

// The first word of a line, and what follows its space, if one follows.
fn cut_word(line: &[u8]) -> (&[u8], Option<&[u8]>)
    ensures { line_words line.now ≡ result.0.now ∷ words_left result.1 }
{
    let end = piece_length(line, b' ');
    if line.len() <= end {
        return (line, None);
    }
    (&line[..end], Some(&line[end + 1..]))
}

// The words of a line, as an iterator: `split` looks at the bytes one by one, and this at four in a turn.
pub fn split_words(line: &[u8]) -> Words<'_>
    ensures { words_left result.rest ≡ line_words line.now }
{
    Words { rest: Some(line) }
}

impl<'a> Iterator for Words<'a> {
    type Item = &'a [u8];

    ghost next_gives = { YieldsFirstRef (λ s. words_left s.rest) };

    ghost remaining = { item_count (λ s. words_left s.rest) };

    fn next(&mut self) -> Option<&'a [u8]> {
        let Some(rest) = self.rest else {
            return None;
        };
        let (word, left) = cut_word(rest);
        self.rest = left;
        Some(word)
    }
}

// Looks w up among the words of text: where the first stands that is w, and how many words were looked at. It ends there.
pub fn find(w: &[u8], text: &[u8]) -> Lookup
    ensures { result ≡ lookup w.now (line_words text.now) }
{
    let mut k = 0;
    let mut looked = 0;
    for word in split_words(text) {
        looked += 1;
        if same(w, word) {
            return Lookup {
                place: Some(k),
                looked: looked,
            };
        }
        k += 1;
    }
    Lookup {
        place: None,
        looked: looked,
    }
}

// A place as an index; 0 where the word is missing.
pub fn index_of(p: Option<usize>) -> usize
    ensures { result ≡ index_of p }
{
    match p {
        Some(k) => k,
        None => 0,
    }
}

// The text of the first line of s, without its line feed; no bytes where s has no line.
pub fn first_line(s: &[u8]) -> &[u8]
    ensures { result.now ≡ (get_or (lines s.now) 0 no_line).text }
{
    let e = piece_length(s, b'\n');
    &s[..e]
}

// Whether a line feed ends the first line of s, which has e bytes.
pub fn line_ends(s: &[u8], e: usize) -> bool
    requires { e ≡ length (get_or (lines s.now) 0 no_line).text }
    ensures { result ≡ (get_or (lines s.now) 0 no_line).ended }
{
    e < s.len()
}

// What follows the first line of s, which has e bytes, and its line feed; no bytes where there is none.
pub fn after_line(s: &[u8], e: usize) -> &[u8]
    requires { e ≡ length (get_or (lines s.now) 0 no_line).text }
    ensures lines { lines result.now ≡ drop 1 (lines s.now) }
    ensures shorter { length result.now ≤ length s.now - 1 }
{
    if e < s.len() {
        return &s[e + 1..];
    }
    &s[..0]
}

// What follows the first line feed of s; no bytes where there is none.
pub fn next_lines(s: &[u8]) -> &[u8]
    ensures lines { lines result.now ≡ drop 1 (lines s.now) }
    ensures shorter { length result.now ≤ length s.now - 1 }
{
    let line = first_line(s);
    after_line(s, line.len())
}

// What is left of s after its first k lines.
pub fn after_lines(s: &[u8], k: usize) -> &[u8]
    ensures lines { lines result.now ≡ drop k (lines s.now) }
    ensures shorter { length result.now ≤ length s.now }
{
    let mut rest = s;
    for _ in 0..k {
        if rest.len() == 0 {
            return rest;
        }
        rest = next_lines(rest);
    }
    rest
}

// The number of words of a line.
pub fn count_words(line: &[u8]) -> usize
    ensures { result ≡ length (line_words line.now) }
{
    split_words(line).count()
}

// Word k of a line, counted from 0; no bytes where it has fewer words.
pub fn word_at(line: &[u8], k: usize) -> &[u8]
    ensures { result.now ≡ get_or (line_words line.now) k [] }
{
    split_words(line).nth(k).unwrap_or(&[])
}

// Whether w is one of the words of text.
pub fn is_among(w: &[u8], text: &[u8]) -> bool
    ensures { result ≡ among w.now (line_words text.now) }
{
    let found = find(w, text);
    let place = found.place;
    let Some(_) = place else {
        return false;
    };
    true
}
