// The lines of an answer, written into the output whole or not at all: where there is no room, that is Refusal::Output.
#![tactic(auto)]

ghost use Rattle.std.specs.Prelude.{◌≡◌, [], ◌∷◌, ◌++◌, ◌+◌, ◌≤◌, ◌<◌, ◌^◌, length, map};
ghost use Rattle.slices.specs.Same.{SameSlice};
ghost use Rattle.book_steps.specs.Text.{bytes, decimal};
ghost use Rattle.book_steps.specs.Answers as Told;
ghost use Rattle.book_steps.specs.Sentence.{word_bytes, word_length, sentence_length};
ghost use Rattle.book_writer.specs.Clauses.{Room, RoomBy, Put, Answers, verdict_of, part_bytes, with_spaces, Measures, last_digits, pair_line, pruned_head, start_part, hop_part, end_part};

pub mod output;

pub use output::Output;
use refusal::Refusal;
pub use verdict::Verdict;

// a part of a line
#[derive(Clone, Copy)]
pub enum Part<'a> {
    Word(&'a [u8]),
    Number(u64),
}

// ---- how long it is

// how many digits a number has
pub fn digits(n: u64) -> usize
    ensures is { result ≡ length (decimal n) }
    ensures most { result ≤ 20 }
{
    n.max(1).ilog10() as usize + 1
}

fn part_length(part: Part) -> usize
    ensures is { result ≡ length (part_bytes part.entry) }
    ensures most { result < 2 ^ 63 }
{
    match part {
        Part::Word(word) => word.len(),
        Part::Number(n) => digits(n),
    }
}

// the parts with a byte before each, if a number says it
fn parts_length(parts: &[Part]) -> Option<usize>
    ensures { Measures (with_spaces parts.now) result }
{
    parts
        .iter()
        .try_fold(0, |n: usize, part| n.checked_add(part_length(*part) + 1))
}

// a line of a word and other parts
fn line_length(word: &[u8], parts: &[Part]) -> Option<usize>
    ensures { Measures (Told.say (word.now ∷ map part_bytes parts.now)) result }
{
    let n = parts_length(parts)?;
    n.checked_add(word.len() + 1)
}

// the lines of `pruned`: the whole of it has to fit before its first byte is written
pub fn head_length(name: &[u8], k: usize) -> usize
    ensures { (result ≡ length (pruned_head name.now k)) × (result ≤ length name.now + 29) }
{
    name.len() + digits(k as u64) + 9
}

pub fn pair_length(target: u32, number: u64) -> usize
    ensures { (result ≡ length (pair_line target number)) × (result ≤ 47) }
{
    7 + digits(target as u64) + digits(number)
}

fn word_length(fields: u32) -> usize
    ensures is { result ≡ word_length fields }
    ensures most { fields ≤ 31 → result ≤ 31 }
{
    fields.max(1) as usize
}

// the sentence of `why`: the whole of it has to fit before its first byte is written
pub fn why_length(fields: u32, hops: usize) -> usize
    requires { (fields ≤ 31) × (hops ≤ 2 ^ 55) }
    ensures { result ≡ sentence_length fields hops }
{
    let n = word_length(fields);
    if hops == 0 {
        return 10 + 2 * n;
    }
    13 + 2 * n + hops * (n + 1)
}

// ---- a share

// thousandths of a total, the nearest, the half to the even one; up to 2^53 nothing overflows
pub fn share(count: u64, total: u64) -> u64
    requires { (0 < total) × (count ≤ total) × (total ≤ 2 ^ 53) }
    ensures { result ≡ Told.share count total }
{
    let lower = 1000 * count / total;
    let rest = 1000 * count % total;
    if 2 * rest < total {
        return lower;
    }
    if total < 2 * rest {
        return lower + 1;
    }
    lower + lower % 2
}

// ---- into the output

impl Output<'_> {
    // n bytes more fit
    pub fn room(&self, n: usize) -> Result<(), Refusal>
        ensures { RoomBy n self.now result }
    {
        if self.bytes.len() - self.at < n {
            return Err(Refusal::Output);
        }
        Ok(())
    }

    pub fn put(&mut self, text: &[u8])
        requires { Room (length text.now) self.old }
        ensures keeps { SameSlice self.old.bytes self.new.bytes }
        ensures puts { Put text.now self.old self.new }
    {
        let at = self.at;
        let end = at + text.len();
        slices::copy(&mut self.bytes[at..end], text);
        self.at = end;
    }

    fn put_byte(&mut self, byte: u8)
        requires { Room 1 self.old }
        ensures keeps { SameSlice self.old.bytes self.new.bytes }
        ensures puts { Put (byte ∷ []) self.old self.new }
    {
        self.put(&[byte]);
    }

    // the last k digits of a number, from the right
    fn put_digits(&mut self, base: u64, k: usize, n: u64)
        requires { Room k self.old × (0 < base) × (base ≤ 10) }
        ensures keeps { SameSlice self.old.bytes self.new.bytes }
        ensures puts { Put (last_digits base k n) self.old self.new }
    {
        let at = self.at;
        let mut m = n;
        for i in (0..k).rev() {
            self.bytes[at + i] = b'0' + (m % base) as u8;
            m /= base;
        }
        self.at = at + k;
    }

    pub fn put_decimal(&mut self, n: u64)
        requires { Room (length (decimal n)) self.old }
        ensures keeps { SameSlice self.old.bytes self.new.bytes }
        ensures puts { Put (decimal n) self.old self.new }
    {
        let k = digits(n);
        self.put_digits(10, k, n)
    }

    fn put_part(&mut self, part: Part)
        requires { Room (length (part_bytes part)) self.old }
        ensures keeps { SameSlice self.old.bytes self.new.bytes }
        ensures puts { Put (part_bytes part.entry) self.old self.new }
    {
        match part {
            Part::Word(word) => self.put(word),
            Part::Number(n) => self.put_decimal(n),
        }
    }

    // a line of a word and other parts
    pub fn line(&mut self, word: &[u8], parts: &[Part]) -> Result<(), Refusal>
        ensures keeps { SameSlice self.old.bytes self.new.bytes }
        ensures answers { Answers (Told.say (word.now ∷ map part_bytes parts.now)) self.old result
            self.new }
    {
        let n = line_length(word, parts).ok_or(Refusal::Output)?;
        self.room(n)?;
        self.put(word);
        for part in parts {
            self.put_byte(b' ');
            self.put_part(*part);
        }
        self.put_byte(b'\n');
        Ok(())
    }

    pub fn fields_answer(&mut self, fields: u32) -> Result<(), Refusal>
        ensures keeps { SameSlice self.old.bytes self.new.bytes }
        ensures answers { Answers (Told.fields_answer fields) self.old result self.new }
    {
        self.line(b"fields", &[Part::Number(fields as u64)])
    }

    pub fn empty_answer(&mut self, name: &[u8], verdict: Verdict, count: u64) -> Result<(), Refusal>
        ensures keeps { SameSlice self.old.bytes self.new.bytes }
        ensures answers { Answers (Told.empty_answer name.now (verdict_of verdict) count) self.old
            result self.new }
    {
        let said: &[u8] = match verdict {
            Verdict::Yes => b"yes",
            Verdict::No => b"no",
            Verdict::Spent => b"spent",
        };
        self.line(
            b"empty",
            &[Part::Word(name), Part::Word(said), Part::Number(count)],
        )
    }

    pub fn live_answer(&mut self, name: &[u8], count: u64, fields: u32) -> Result<(), Refusal>
        requires { (fields ≤ 31) × (count ≤ 2 ^ fields) }
        ensures keeps { SameSlice self.old.bytes self.new.bytes }
        ensures answers { Answers (Told.live_answer fields name.now count) self.old result self.new }
    {
        let part = share(count, 1u64 << fields);
        self.line(
            b"live",
            &[Part::Word(name), Part::Number(count), Part::Number(part)],
        )
    }

    // the first line of `pruned`, for k transitions
    pub fn pruned_head(&mut self, name: &[u8], k: usize) -> Result<(), Refusal>
        ensures keeps { SameSlice self.old.bytes self.new.bytes }
        ensures answers { Answers (pruned_head name.now k) self.old result self.new }
    {
        self.line(b"pruned", &[Part::Word(name), Part::Number(k as u64)])
    }

    // the line of one transition
    pub fn pair_line(&mut self, target: u32, number: u64) -> Result<(), Refusal>
        ensures keeps { SameSlice self.old.bytes self.new.bytes }
        ensures answers { Answers (pair_line target number) self.old result self.new }
    {
        self.line(
            b"pair",
            &[Part::Number(target as u64), Part::Number(number)],
        )
    }

    // the answer to `why` for a state that is empty
    pub fn none_answer(&mut self) -> Result<(), Refusal>
        ensures keeps { SameSlice self.old.bytes self.new.bytes }
        ensures answers { Answers (Told.say (bytes "none" ∷ [])) self.old result self.new }
    {
        self.line(b"none", &[])
    }

    // a packet's word; packets come as numbers, field 0 the highest bit
    fn put_packet(&mut self, fields: u32, packet: u32)
        requires { Room (word_length fields) self.old }
        ensures keeps { SameSlice self.old.bytes self.new.bytes }
        ensures puts { Put (word_bytes fields packet) self.old self.new }
    {
        if fields == 0 {
            self.put(b"-")
        } else {
            self.put_digits(2, fields as usize, packet as u64)
        }
    }

    // some bytes and a packet's word
    fn put_behind(&mut self, text: &[u8], fields: u32, packet: u32)
        requires { Room (length text.now + word_length fields) self.old }
        ensures keeps { SameSlice self.old.bytes self.new.bytes }
        ensures puts { Put (text.now ++ word_bytes fields packet) self.old self.new }
    {
        self.put(text);
        self.put_packet(fields, packet)
    }

    // the parts of the sentence of `why`, in their order: the start, each hop, the end
    pub fn put_start(&mut self, fields: u32, packet: u32)
        requires { Room (5 + word_length fields) self.old }
        ensures keeps { SameSlice self.old.bytes self.new.bytes }
        ensures puts { Put (start_part fields packet) self.old self.new }
    {
        self.put_behind(b"from ", fields, packet)
    }

    // there is room as for the first hop: an end comes behind
    pub fn put_hop(&mut self, fields: u32, first: bool, packet: u32)
        requires { Room (4 + word_length fields) self.old }
        ensures keeps { SameSlice self.old.bytes self.new.bytes }
        ensures puts { Put (hop_part fields first packet) self.old self.new }
    {
        let text: &[u8] = if first { b" by " } else { b" " };
        self.put_behind(text, fields, packet)
    }

    pub fn put_end(&mut self, fields: u32, packet: u32)
        requires { Room (5 + word_length fields) self.old }
        ensures keeps { SameSlice self.old.bytes self.new.bytes }
        ensures puts { Put (end_part fields packet) self.old self.new }
    {
        self.put_behind(b" to ", fields, packet);
        self.put_byte(b'\n')
    }
}
