// The image of a place: the head in block 0, and from block 1 on the records of the tables, a word at a time.
#![tactic(auto)]

ghost use Rattle.std.specs.Prelude.{◌≡◌, ◌+◌, ◌*◌, ◌<◌};
ghost use Rattle.std.proofs.lemmas.List.Edits.{sets};
ghost use Rattle.image_form.specs.Form as Form;
ghost use Rattle.image_words.specs.Clauses.{Small};
ghost use Rattle.image_save.specs.Clauses as Its;

use book_memory::{Place, Setting};
use image_words::{Head, STATE, WORDS};

// what block 0 says
pub fn head_of(setting: Setting, place: &Place) -> Head
    requires { Its.Few place.now }
    ensures { Its.HeadOf setting place.now result }
{
    Head {
        fields: setting.config.fields,
        budget: setting.budget,
        sp: place.aut.sp.count,
        spp: place.aut.spp.count,
        members: place.aut.members.count,
        states: place.aut.states.count,
        lines: place.lines.count,
    }
}

// ---- words

// word i of the records, and 0 behind them
pub fn record_word(place: &Place, i: usize) -> u32
    requires { Its.Present place.now }
    ensures { result ≡ Its.record_at place.now i }
{
    let packets = 2 * place.aut.sp.count;
    if i < packets {
        return place.aut.sp.nodes[i];
    }
    let i1 = i - packets;
    let relations = 4 * place.aut.spp.count;
    if i1 < relations {
        return place.aut.spp.nodes[i1];
    }
    let i2 = i1 - relations;
    let listed = place.aut.members.count;
    if i2 < listed {
        return place.aut.members.words[i2];
    }
    let i3 = i2 - listed;
    let plain = STATE * place.aut.states.count;
    if i3 < plain {
        return place.aut.states.words[aut_states::STATE * (i3 / STATE) + i3 % STATE];
    }
    let i4 = i3 - plain;
    if i4 < place.lines.count {
        return place.lines.words[i4];
    }
    0
}

// word j of block 0
pub fn head_word(h: Head, j: usize) -> u32
    requires { Small h }
    ensures { result ≡ Its.head_at h j }
{
    match j {
        0 => h.fields,
        1 => (h.budget / 4294967296) as u32,
        2 => (h.budget % 4294967296) as u32,
        3 => h.sp as u32,
        4 => h.spp as u32,
        5 => h.members as u32,
        6 => h.states as u32,
        7 => h.lines as u32,
        _ => 0,
    }
}

// word j of block b
fn word_of(place: &Place, h: Head, b: usize, j: usize) -> u32
    requires { Its.Present place.now × Small h × (b < 65536) × (j < 127) }
    ensures { result ≡ Its.word_in h place.now b j }
{
    if b == 0 {
        return head_word(h, j);
    }
    record_word(place, WORDS * (b - 1) + j)
}

// ---- blocks

// the words of block b
fn write_words(image: &mut [u8], place: &Place, h: Head, b: usize)
    requires { Its.PreBlock place.now h b image.old }
    ensures { image.new ≡ sets image.old (512 * b + 2)
        (Form.wides (Its.word_in h place.now b) 0 127) }
{
    let at = image_block::BLOCK * b + 2;
    for j in 0..WORDS {
        let w = word_of(place, h, b, j);
        image_block::put_word(image, at + 4 * j, w);
    }
}

fn write_block(image: &mut [u8], place: &Place, h: Head, b: usize)
    requires { Its.PreBlock place.now h b image.old }
    ensures { image.new ≡ sets image.old (512 * b)
        (Form.block b (Its.word_in h place.now b)) }
{
    image_block::put_half(image, image_block::BLOCK * b, b as u32);
    write_words(image, place, h, b);
    image_block::close_block(image, b);
}

// the whole image, from the first lent byte on
pub fn write(image: &mut [u8], place: &Place, h: Head)
    requires { Its.PreWrite h place.now image.old }
    ensures { Its.PostWrite h place.now image.old image.new }
{
    let n = image_words::blocks_of(h);
    for b in 0..n {
        write_block(image, place, h, b);
    }
}
