// The compiler's words: the instructions that they hold, and the earliest word that an import refuses. The meaning is in specs/.
#![tactic(auto)]

ghost use Rattle.std.specs.Prelude.{◌≡◌, suc, ◌+◌, ◌*◌, ◌≤◌, ◌<◌, pos, ◌+ℤ◌, length, get_or, drop};
ghost use Rattle.text_decimals.specs.Memory.{over};
ghost use Rattle.instructions.specs.Kinds.{kind_at};
ghost use Rattle.instructions.specs.HeldColumns.{ByOpcode};
ghost use Rattle.words.specs.Words.{little_endian, words_of, bytes_of};
ghost use Rattle.words.specs.Decoding.{decoded, items, has_argument, is_place, call_listed, word_fault, is_found, offset_fault, code_fault, size_of};
ghost use Rattle.words.specs.Held.{with_argument, head_of, Readable, number_in, Numbered, lands_in};

use instructions::Argument;

// The word that the first four bytes make, the lowest first.
pub fn first_word(bytes: &[u8]) -> u32
    requires { 4 ≤ length bytes.now }
    ensures { result ≡ little_endian (get_or bytes.now 0 0) (get_or bytes.now 1 0) (get_or bytes.now 2 0) (get_or bytes.now 3 0) }
{
    u32::from(bytes[0])
        + u32::from(bytes[1]) * 256
        + u32::from(bytes[2]) * 65536
        + u32::from(bytes[3]) * 16777216
}

// Whether a kind has an argument word.
pub fn has_argument(k: usize) -> bool
    requires { k < 61 }
    ensures { result ≡ has_argument (kind_at k).argument }
{
    instructions::takes_at(k)
}

// How many words a kind takes.
pub fn size_of(k: usize) -> usize
    requires { k < 61 }
    ensures { result ≡ size_of k }
{
    if has_argument(k) { 2 } else { 1 }
}

// Kind k with its argument word, from the words after its opcode.
fn with_argument(k: usize, words: &[u8]) -> Option<(usize, i32)>
    ensures { result ≡ with_argument k (words_of words.now) }
{
    if words.len() < 4 {
        return None;
    }
    Some((k, numbers::signed(first_word(words))))
}

// The instruction at the head of words, where `coded` has the kinds by their opcodes.
pub fn read_head(coded: &[u8; 144], words: &[u8]) -> Option<(usize, i32)>
    requires { ByOpcode coded.now }
    ensures { result ≡ head_of (words_of words.now) }
{
    if words.len() < 4 {
        return None;
    }
    let k = instructions::kind_coded(coded, first_word(words))?;
    if has_argument(k) {
        return with_argument(k, &words[4..]);
    }
    Some((k, 0))
}

// The words after an instruction of kind k.
pub fn after(k: usize, words: &[u8]) -> &[u8]
    requires { (k < 61) × (4 * size_of k ≤ length words.now) }
    ensures words { words_of result.now ≡ drop (size_of k) (words_of words.now) }
    ensures shorter { 4 * size_of k + length result.now ≡ length words.now }
{
    let size = 4 * size_of(k);
    &words[size..]
}

// Whether an argument is a place of a line of `listed` names.
fn is_place(listed: usize, argument: i32) -> bool
    requires { listed ≤ 32 }
    ensures { result ≡ is_place listed argument }
{
    if argument < 0 {
        return false;
    }
    argument < listed as i32
}

// Whether the primitive of an instruction, where its kind calls one, is on the primitives line.
fn call_listed(listed: usize, argument: i32, k: usize) -> bool
    requires { (listed ≤ 32) × (k < 61) }
    ensures { result ≡ call_listed listed argument (kind_at k).argument }
{
    match instructions::argument_at(k) {
        Argument::Absent => true,
        Argument::Target => true,
        Argument::Primitive => is_place(listed, argument),
        Argument::Within(_) => true,
    }
}

// The index of the earliest word at fault, offsets aside.
pub fn word_fault(listed: usize, words: &[u8]) -> Option<usize>
    requires { listed ≤ 32 }
    ensures { result ≡ word_fault listed (words_of words.now) }
{
    if words.len() == 0 {
        return Some(0);
    }
    let coded = instructions::coded_kinds();
    let mut rest = words;
    let mut index: usize = 0;
    let mut count: usize = 0;
    // A while: an instruction takes one word or two, and which is known only once it is read; one that cannot be read is the fault.
    while 0 < rest.len() {
        let Some((k, argument)) = read_head(&coded, rest) else {
            return Some(index);
        };
        if 1024 <= count {
            return Some(index);
        }
        if !call_listed(listed, argument, k) {
            return Some(index + 1);
        }
        let next = after(k, rest);
        rest = next;
        index += size_of(k);
        count += 1;
    }
    None
}

// For each index of a word the number of the instruction whose opcode stands there; 1,024 where none does.
pub fn numbers_of(words: &[u8]) -> [u16; 2048]
    requires { Readable (words_of words.now) }
    ensures { Numbered (items (decoded (words_of words.now))) result }
{
    let mut numbers = [1024u16; 2048];
    let coded = instructions::coded_kinds();
    let mut rest = words;
    let mut index: usize = 0;
    let mut count: u16 = 0;
    while let Some((k, _)) = read_head(&coded, rest) {
        numbers[index] = count;
        rest = after(k, rest);
        index += size_of(k);
        count += 1;
    }
    numbers
}

fn sum(x: i32, y: i32) -> i64
    ensures { result ≡ x +ℤ y }
{
    (x as i64) + (y as i64)
}

// "A branch word is an offset from its own position": the index that it leads to, where `index` is that of the opcode before it.
pub fn landing(index: usize, argument: i32) -> i64
    requires { index < 2048 }
    ensures { result ≡ pos (suc index) +ℤ argument }
{
    sum((index + 1) as i32, argument)
}

// The number of the instruction whose opcode stands at an index, if one does.
pub fn number_at(numbers: &[u16], index: i64) -> Option<usize>
    ensures { result ≡ number_in numbers.now index }
{
    if index < 0 {
        return None;
    }
    let n = index as usize;
    if numbers.len() <= n {
        return None;
    }
    let number = numbers[n];
    if number < 1024 {
        return Some(number as usize);
    }
    None
}

// Whether there is one.
fn is_found(place: Option<usize>) -> bool
    ensures { result ≡ is_found place }
{
    match place {
        None => false,
        Some(_) => true,
    }
}

// Whether the offset of an instruction, where its kind has one, leads to an instruction.
fn lands(numbers: &[u16], k: usize, index: usize, argument: i32) -> bool
    requires { (k < 61) × (index < 2048) }
    ensures { result ≡ lands_in numbers.now (pos (suc index) +ℤ argument) (kind_at k).argument }
{
    match instructions::argument_at(k) {
        Argument::Absent => true,
        Argument::Target => is_found(number_at(numbers, landing(index, argument))),
        Argument::Primitive => true,
        Argument::Within(_) => true,
    }
}

// The index of the earliest offset at fault.
pub fn offset_fault(words: &[u8], numbers: &[u16]) -> Option<usize>
    requires { Readable (words_of words.now) × Numbered (items (decoded (words_of words.now))) numbers.now }
    ensures { result ≡ offset_fault (items (decoded (words_of words.now))) (items (decoded (words_of words.now))) }
{
    let coded = instructions::coded_kinds();
    let mut rest = words;
    let mut index: usize = 0;
    while let Some((k, argument)) = read_head(&coded, rest) {
        if !lands(numbers, k, index, argument) {
            return Some(index + 1);
        }
        rest = after(k, rest);
        index += size_of(k);
    }
    None
}

// The index of the word that an import refuses, if there is one: "Offsets are looked at only when none of the others is found."
pub fn code_fault(listed: usize, words: &[u8]) -> Option<usize>
    requires { listed ≤ 32 }
    ensures { result ≡ code_fault listed (words_of words.now) }
{
    match word_fault(listed, words) {
        Some(i) => Some(i),
        None => {
            let numbers = numbers_of(words);
            offset_fault(words, &numbers)
        }
    }
}

// Puts the four bytes of a word over out from `at` on, the lowest first, and answers where they end.
pub fn put_word(out: &mut [u8], at: usize, word: u32) -> usize
    requires { at + 4 ≤ length out.old }
    ensures value { result ≡ at + 4 }
    ensures out_after { out.new ≡ over out.old at (bytes_of word) }
{
    let bytes = [
        (word % 256) as u8,
        (word / 256 % 256) as u8,
        (word / 65536 % 256) as u8,
        (word / 16777216 % 256) as u8,
    ];
    text_decimals::put(out, at, &bytes)
}
