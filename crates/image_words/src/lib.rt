// 02 (ii): what reading needs of an image's bytes: block 0, the words of the records, and a block looked at when a record reaches it.
#![tactic(auto)]

ghost use Rattle.std.specs.Prelude.{◌≡◌, ◌+◌, ◌*◌, ◌≤◌, ◌<◌, length};
ghost use Rattle.image_form.specs.Form as Form;
ghost use Rattle.image_steps.specs.Image as Image;
ghost use Rattle.image_steps.specs.Read as Read;
ghost use Rattle.image_words.specs.Clauses as Its;

use image_block::BLOCK;
use refusal::Refusal;

// words of a block
pub const WORDS: usize = 127;

// words of a state's record
pub const STATE: usize = 4;

// block 0
#[derive(Clone, Copy)]
pub struct Head {
    pub fields: u32,
    pub budget: u64,
    pub sp: usize,
    pub spp: usize,
    pub members: usize,
    pub states: usize,
    pub lines: usize,
}

// ---- words

// how many blocks behind block 0 have some of the first n words of the records
pub fn reach(n: usize) -> usize
    ensures { result ≡ Image.reach n }
{
    n.div_ceil(WORDS)
}

// word j of block b
pub fn block_word(image: &[u8], b: usize, j: usize) -> u32
    requires { (j < 127) × (512 * b + 512 ≤ length image.now) }
    ensures { result ≡ Form.word_at image.now b j }
{
    image_block::word_at(image, BLOCK * b + (2 + 4 * j))
}

// word i of the records
pub fn word(image: &[u8], i: usize) -> u32
    requires { Its.Reaches image.now (i + 1) }
    ensures { result ≡ Its.word_of image.now i }
{
    block_word(image, 1 + i / WORDS, i % WORDS)
}

// the k words of block b from word j on are 0
pub fn unused(image: &[u8], b: usize, j: usize, k: usize) -> bool
    requires { (j + k ≤ 127) × (512 * b + 512 ≤ length image.now) }
    ensures { Read.unused image.now b j k ≡ result }
{
    let at = BLOCK * b + (2 + 4 * j);
    image[at..at + 4 * k].iter().all(|x| *x == 0)
}

// ---- block 0

pub fn head_at(image: &[u8]) -> Head
    requires { 512 ≤ length image.now }
    ensures { Its.PostHead image.now result }
{
    let high = block_word(image, 0, 1) as u64;
    let low = block_word(image, 0, 2) as u64;
    Head {
        fields: block_word(image, 0, 0),
        budget: 4294967296 * high + low,
        sp: block_word(image, 0, 3) as usize,
        spp: block_word(image, 0, 4) as usize,
        members: block_word(image, 0, 5) as usize,
        states: block_word(image, 0, 6) as usize,
        lines: block_word(image, 0, 7) as usize,
    }
}

// the words of all records
pub fn total(h: Head) -> usize
    requires { Its.Small h }
    ensures { result ≡ Image.total (Its.head_of h) }
{
    2 * h.sp + 4 * h.spp + h.members + STATE * h.states + h.lines
}

pub fn blocks_of(h: Head) -> usize
    requires { Its.Small h }
    ensures { result ≡ Image.blocks_of (Its.head_of h) }
{
    1 + reach(total(h))
}

// no header word is out of range, and the constants are among the nodes
fn counts_fit(h: Head) -> bool
    requires { Its.Small h }
    ensures { Its.counts_fit (Its.head_of h) ≡ result }
{
    h.fields <= 31
        && h.sp <= sp::MOST
        && h.spp <= spp::MOST
        && h.members <= aut_states::MOST_MEMBERS
        && h.states <= aut_states::MOST_STATES
        && h.lines <= book_memory::LINES
        && h.fields as usize <= h.sp
        && 3 * (h.fields as usize) <= h.spp
}

// what block 0 asks for: its words, and the image's length by its counts
pub fn head_fits(image: &[u8], h: Head) -> bool
    requires { (512 ≤ length image.now) × Its.Small h }
    ensures { Read.head_fits image.now (Its.head_of h) ≡ result }
{
    counts_fit(h) && unused(image, 0, 8, 119) && image.len() / BLOCK == blocks_of(h)
}

// ---- blocks, one after the other

// the block in which a record ends that has the `size` words from s on, unless a record before it reached that block
pub fn enter(image: &[u8], s: usize, size: usize) -> Result<(), Refusal>
    requires { Its.Reaches image.now (s + size) }
    ensures { Its.Entered image.now s size result }
{
    let last = reach(s + size);
    if reach(s) < last {
        return image_block::verify(image, last);
    }
    Ok(())
}
