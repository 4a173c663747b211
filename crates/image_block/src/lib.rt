// The blocks of an image: numbers and words as bytes, the high byte first, the check, and whether a block is taken.
#![tactic(auto)]

ghost use Rattle.std.specs.Prelude.{◌≡◌, ◌+◌, ◌*◌, ◌≤◌, ◌<◌, length};
ghost use Rattle.std.proofs.lemmas.List.Edits.{sets};
ghost use Rattle.image_form.specs.Form as Form;
ghost use Rattle.image_block.specs.Clauses.{looked_of};

use refusal::Refusal;

// bytes of a block, and those before its check
pub const BLOCK: usize = 512;

pub const FRONT: usize = 510;

const MODULUS: u32 = 65521;

// ---- reading

pub fn half_at(image: &[u8], i: usize) -> u32
    requires { i + 1 < length image.now }
    ensures { result ≡ Form.half_at image.now i }
{
    u16::from_be_bytes([image[i], image[i + 1]]) as u32
}

pub fn word_at(image: &[u8], i: usize) -> u32
    requires { i + 3 < length image.now }
    ensures { result ≡ Form.wide_at image.now i }
{
    u32::from_be_bytes([image[i], image[i + 1], image[i + 2], image[i + 3]])
}

// of a block's bytes before it
pub fn check(front: &[u8]) -> u32
    requires { length front.now ≤ 510 }
    ensures { result ≡ Form.check front.now }
{
    let mut sum: u32 = 0;
    for (i, b) in front.iter().enumerate() {
        // below 3 times 65,521, so taken off at most twice
        let added = sum + (*b as u32) * (i as u32 + 1);
        let once = if added >= MODULUS {
            added - MODULUS
        } else {
            added
        };
        sum = if once >= MODULUS {
            once - MODULUS
        } else {
            once
        };
    }
    sum
}

// the block is taken, or refused
pub fn verify(image: &[u8], b: usize) -> Result<(), Refusal>
    requires { 512 * b + 512 ≤ length image.now }
    ensures { Form.verify image.now b ≡ looked_of result }
{
    let at = BLOCK * b;
    let number = half_at(image, at);
    if number as usize != b {
        return Err(Refusal::Block);
    }
    let stored = half_at(image, at + FRONT);
    let sum = check(&image[at..at + FRONT]);
    if stored != sum {
        return Err(Refusal::Check);
    }
    Ok(())
}

// ---- writing

pub fn put_half(image: &mut [u8], i: usize, v: u32)
    requires { (v < 65536) × (i + 1 < length image.old) }
    ensures { image.new ≡ sets image.old i (Form.half v) }
{
    image[i..i + 2].copy_from_slice(&(v as u16).to_be_bytes());
}

pub fn put_word(image: &mut [u8], i: usize, w: u32)
    requires { i + 3 < length image.old }
    ensures { image.new ≡ sets image.old i (Form.wide w) }
{
    image[i..i + 4].copy_from_slice(&w.to_be_bytes());
}

// the check behind a block's 510 bytes
pub fn close_block(image: &mut [u8], b: usize)
    requires { 512 * b + 512 ≤ length image.old }
    ensures { image.new ≡ sets image.old (512 * b + 510) (Form.half (Form.check
        (Form.front_at image.old b))) }
{
    let at = BLOCK * b;
    let sum = check(&image[at..at + FRONT]);
    put_half(image, at + FRONT, sum);
}
