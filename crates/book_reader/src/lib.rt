// The text of a book: its lines, their words and numbers, and what the lines say. Nothing is copied: a cursor is a value that each
// reading step takes and hands back.
#![tactic(auto)]

ghost use Rattle.std.specs.Prelude.{◌≡◌, [], ◌∷◌, length, map};
ghost use Rattle.std.proofs.Math.Option.{some};
ghost use Rattle.book_steps.specs.Text as Text;
ghost use Rattle.book_steps.specs.Reader as Reader;
ghost use Rattle.book_reader.specs.Clauses.{rest, Finds, Cuts, word_of, passed, passed_of, value, value_of, taken, taken_of, counted, heading_of, look_up, Says, listing};

use book_words::{Bit, Constant, Listed, Pair, Single};

// what is still to be read of a line, from a word on; none behind its last word
#[derive(Clone, Copy)]
pub struct Cursor<'a> {
    pub rest: Option<&'a [u8]>,
}

#[derive(Clone, Copy)]
pub enum Query {
    Empty,
    Live,
    Pruned,
    Why,
}

// what a line says, as it is written; the cursor of a list stands before its numbers, of which there are so many
#[derive(Clone, Copy)]
pub enum Said<'a> {
    Constant(Constant),
    Bit(Bit, u64, u64),
    Single(Single, u64),
    Pair(Pair, u64, u64),
    Listed(Listed, Cursor<'a>, usize),
    Query(Query, u64),
}

const CONSTANTS: [(&[u8], Constant); 5] = [
    (b"zero", Constant::Zero),
    (b"one", Constant::One),
    (b"all", Constant::All),
    (b"dup", Constant::Dup),
    (b"top", Constant::Top),
];

const BITS: [(&[u8], Bit); 2] = [(b"test", Bit::Test), (b"set", Bit::Set)];

const SINGLES: [(&[u8], Single); 3] = [
    (b"not", Single::Not),
    (b"star", Single::Star),
    (b"next", Single::Next),
];

const PAIRS: [(&[u8], Pair); 6] = [
    (b"or", Pair::Or),
    (b"and", Pair::And),
    (b"xor", Pair::Xor),
    (b"minus", Pair::Minus),
    (b"seq", Pair::Seq),
    (b"until", Pair::Until),
];

const LISTS: [(&[u8], Listed); 2] = [(b"union", Listed::Union), (b"inter", Listed::Inter)];

const QUERIES: [(&[u8], Query); 4] = [
    (b"empty", Query::Empty),
    (b"live", Query::Live),
    (b"pruned", Query::Pruned),
    (b"why", Query::Why),
];

// the first place of the byte
fn find(text: &[u8], byte: u8) -> Option<usize>
    ensures { Finds byte text.now result }
{
    text.iter().position(|b| *b == byte)
}

// the first line, and the text behind it
pub fn line_at(text: &[u8]) -> Option<(Cursor<'_>, &[u8])>
    ensures { Cuts text.now result }
{
    let k = find(text, b'\n')?;
    let c = Cursor {
        rest: Some(&text[..k]),
    };
    Some((c, &text[k + 1..]))
}

// the digits' value, if it is at most 2^64 - 1
fn digits(word: &[u8]) -> Option<u64>
    ensures { value word.now ≡ value_of result }
{
    let mut n: u64 = 0;
    for b in word {
        if !b.is_ascii_digit() {
            return None;
        }
        n = n.checked_mul(10)?.checked_add(u64::from(*b - b'0'))?;
    }
    Some(n)
}

// the number that the word is; only 0 itself begins with 0
fn number_of(word: &[u8]) -> Option<u64>
    ensures { Text.number word.now ≡ value_of result }
{
    match word {
        [] | [b'0', _, ..] => None,
        _ => digits(word),
    }
}

// what the table names so
fn named<T: Copy>(table: &[(&[u8], T)], word: &[u8]) -> Option<T>
    ensures { result ≡ look_up (map (λ n. (n.0.now, n.1)) table.now) word.now }
{
    table.iter().find(|n| word == n.0).map(|n| n.1)
}

impl<'a> Cursor<'a> {
    // the next word, if there are more, and the cursor behind it
    pub fn word(self) -> Option<(&'a [u8], Cursor<'a>)>
        ensures { rest self.entry ≡ word_of result }
    {
        let line = self.rest?;
        let (word, rest) = match find(line, b' ') {
            Some(k) => (&line[..k], Some(&line[k + 1..])),
            None => (line, None),
        };
        Some((word, Cursor { rest }))
    }

    pub fn number(self) -> Option<(u64, Cursor<'a>)>
        ensures { taken (rest self.entry) ≡ taken_of result }
    {
        let (word, next) = self.word()?;
        let n = number_of(word)?;
        Some((n, next))
    }

    // the next word is the name
    fn pass(self, name: &[u8]) -> Option<Cursor<'a>>
        ensures { passed name.now (rest self.entry) ≡ passed_of result }
    {
        let (word, next) = self.word()?;
        (word == name).then_some(next)
    }
}

// how many words the line has, if all are numbers
fn numbers(line: &[u8]) -> Option<usize>
    ensures { counted (Text.words line.now) ≡ value_of result }
{
    let mut c = Cursor { rest: Some(line) };
    let mut k = 0;
    while c.rest.is_some() {
        (_, c) = c.number()?;
        k += 1;
    }
    Some(k)
}

// the first line: fields and budget
pub fn header(c: Cursor<'_>) -> Option<(u64, u64)>
    ensures { Reader.header (rest c.entry) ≡ heading_of result }
{
    let c1 = c.pass(b"fields")?;
    let (n, c2) = c1.number()?;
    let c3 = c2.pass(b"budget")?;
    let (m, c4) = c3.number()?;
    c4.rest.is_none().then_some((n, m))
}

// a word that takes any number of numbers: the k at c
fn with_list<'a>(word: &[u8], c: Cursor<'a>, k: usize) -> Option<Said<'a>>
    ensures { counted (rest c.entry) ≡ some k →
        Says (listing word.now (Reader.numbers (rest c.entry))) result }
{
    let w = named(&LISTS, word)?;
    Some(Said::Listed(w, c, k))
}

// a word and no number
fn alone<'a>(word: &[u8], c: Cursor<'a>) -> Option<Said<'a>>
    ensures { Reader.numbers (rest c.entry) ≡ some [] →
        Says (Reader.saying word.now (Reader.numbers (rest c.entry))) result }
{
    if let Some(w) = named(&CONSTANTS, word) {
        return Some(Said::Constant(w));
    }
    with_list(word, c, 0)
}

// a word and the number at c
fn with_one<'a>(word: &[u8], c: Cursor<'a>, a: u64) -> Option<Said<'a>>
    ensures { Reader.numbers (rest c.entry) ≡ some (a ∷ []) →
        Says (Reader.saying word.now (Reader.numbers (rest c.entry))) result }
{
    if let Some(w) = named(&SINGLES, word) {
        return Some(Said::Single(w, a));
    }
    if let Some(q) = named(&QUERIES, word) {
        return Some(Said::Query(q, a));
    }
    with_list(word, c, 1)
}

// a word and the two numbers at c
fn with_two<'a>(word: &[u8], c: Cursor<'a>, a: u64, b: u64) -> Option<Said<'a>>
    ensures { Reader.numbers (rest c.entry) ≡ some (a ∷ b ∷ []) →
        Says (Reader.saying word.now (Reader.numbers (rest c.entry))) result }
{
    if let Some(w) = named(&BITS, word) {
        return Some(Said::Bit(w, a, b));
    }
    if let Some(w) = named(&PAIRS, word) {
        return Some(Said::Pair(w, a, b));
    }
    with_list(word, c, 2)
}

// a line behind the first
pub fn instruction(c: Cursor<'_>) -> Option<Said<'_>>
    ensures { Says (Reader.parse (rest c.entry)) result }
{
    let (word, first) = c.word()?;
    let Some(line) = first.rest else {
        return alone(word, first);
    };
    let (a, second) = first.number()?;
    if second.rest.is_none() {
        return with_one(word, first, a);
    }
    let (b, third) = second.number()?;
    if third.rest.is_none() {
        return with_two(word, first, a, b);
    }
    let k = numbers(line)?;
    with_list(word, first, k)
}
