// 02 (ii), reading an image: block 0, the tables of a new book, then every record again by its constructor, block by block; the place that the image stands for, or why it is refused.
#![tactic(auto)]

ghost use Rattle.std.specs.Prelude.{◌≡◌, ◌+◌};
ghost use Rattle.slices.specs.Same.{SameSlice};
ghost use Rattle.image_words.specs.Clauses.{Reaches, head_of};
ghost use Rattle.image_states.specs.Clauses.{OnlyExprs};
ghost use Rattle.book_memory.specs.Place.{SameSlices};
ghost use Rattle.book_begin.specs.Clauses.{OnlyNodes};
ghost use Rattle.image_read.specs.Clauses as Its;

use aut_relations::Aut;
use book_begin::Header;
use book_memory::{Lines, Place, Setting};
use image_block::BLOCK;
use image_states::Lists;
use image_words::{Head, WORDS};
use refusal::Refusal;

// ---- block 0

// fields and budget by block 0, 01's limits
fn setting_of(h: Head) -> Setting
    ensures { result ≡ Its.setting_by h }
{
    Setting::from(Header {
        fields: h.fields,
        budget: h.budget,
    })
}

// an image, and its block 0, which fits it
#[derive(Clone, Copy)]
struct Opened<'a> {
    image: &'a [u8],
    head: Head,
    ghost fitting: { Its.Fitting image.now head },
}

// block 0 of an image that goes on: the length, the block's number and check, and its words
fn open(image: &[u8]) -> Result<Head, Refusal>
    ensures { Its.PostOpen image.now result }
{
    let n = image.len();
    if n == 0 || n % BLOCK != 0 {
        return Err(Refusal::Block);
    }
    image_block::verify(image, 0)?;
    let h = image_words::head_at(image);
    if !image_words::head_fits(image, h) {
        return Err(Refusal::Record);
    }
    Ok(h)
}

// ---- nodes

// the constants, then the records of both kinds of nodes
fn read_diagrams(opened: Opened, place: &mut Place) -> Result<(), Refusal>
    requires { Its.PreDiagrams place.old }
    ensures keeps { OnlyNodes opened.entry.head.fields place.old place.new }
    ensures gives { Its.PostDiagrams opened.entry.image.now opened.entry.head result place.new }
{
    let (image, h) = (opened.image, opened.head);
    book_begin::constants(place, h.fields)?;
    image_nodes::read_nodes(image, &mut place.aut.sp, h.fields, h.sp)?;
    image_nodes::read_relations(image, &mut place.aut.spp, 2 * h.sp, h.spp)
}

// ---- members and lines

// k members, from word s on: only their blocks are looked at
fn read_members(image: &[u8], s: usize, k: usize) -> Result<(), Refusal>
    requires { Reaches image.now (s + k) }
    ensures { Its.PostMembers image.now s k result }
{
    for i in 0..k {
        image_words::enter(image, s + i, 1)?;
    }
    Ok(())
}

// the line at word s, a state + 1, or 0; first the block that it reaches
fn line_at(image: &[u8], s: usize, states: usize) -> Result<Option<u32>, Refusal>
    requires { Reaches image.now (s + 1) }
    ensures { Its.PostLine image.now s states result }
{
    image_words::enter(image, s, 1)?;
    let w = image_words::word(image, s);
    if w as usize > states {
        return Err(Refusal::Record);
    }
    Ok(w.checked_sub(1))
}

// k lines, from word s on, into the table of lines
fn read_lines(
    image: &[u8],
    lines: &mut Lines,
    s: usize,
    k: usize,
    states: usize,
) -> Result<(), Refusal>
    requires { Its.PreLines image.now lines.old s k }
    ensures keeps { SameSlice lines.old.words lines.new.words }
    ensures gives { Its.PostLines image.now s k states lines.old result lines.new }
{
    for i in 0..k {
        let line = line_at(image, s + i, states)?;
        lines.add(line);
    }
    Ok(())
}

// in the last block: no spare member, and no unused word that is not 0
fn ended(opened: Opened, members: usize) -> bool
    ensures { Its.ended_by opened.entry.image.now (head_of opened.entry.head) members ≡ result }
{
    let (image, h) = (opened.image, opened.head);
    if members != h.members {
        return false;
    }
    let n = image_words::total(h);
    if n == 0 {
        return true;
    }
    let b = image_words::reach(n);
    image_words::unused(image, b, n - WORDS * (b - 1), WORDS * b - n)
}

// ---- all records

// members, then states
fn read_automaton(opened: Opened, aut: &mut Aut) -> Result<(), Refusal>
    requires { Its.PreAutomaton opened.head aut.old }
    ensures keeps { OnlyExprs aut.old aut.new }
    ensures gives { Its.PostAutomaton opened.entry.image.now opened.entry.head aut.old result aut.new }
{
    let (image, h) = (opened.image, opened.head);
    let first = 2 * h.sp + 4 * h.spp;
    read_members(image, first, h.members)?;
    let setting = setting_of(h);
    let at = Lists {
        image,
        first,
        count: h.members,
    };
    image_states::read_states(aut, setting.config, at, first + h.members, h.states)
}

// .. then lines, and the end
fn read_records(opened: Opened, place: &mut Place) -> Result<(), Refusal>
    requires { Its.PreRecords opened.head place.old }
    ensures keeps { Its.OnlyRecords place.old place.new }
    ensures gives { Its.PostRecords opened.entry.image.now opened.entry.head place.old result place.new }
{
    let (image, h) = (opened.image, opened.head);
    read_automaton(opened, &mut place.aut)?;
    let start = image_words::total(h) - h.lines;
    let states = place.aut.states.count;
    read_lines(image, &mut place.lines, start, h.lines, states)?;
    if !ended(opened, place.aut.members.count) {
        return Err(Refusal::Record);
    }
    Ok(())
}

// ---- an image

// From tables that are zeroed: what the image stands for, and what holds for the book that goes on.
pub fn read(image: &[u8], place: &mut Place) -> Result<Setting, Refusal>
    requires { Its.PreRead place.old }
    ensures keeps { SameSlices place.old place.new }
    ensures beside { Its.Beside place.old place.new }
    ensures gives { Its.PostRead image.now place.old result place.new }
{
    let h = open(image)?;
    let opened = Opened { image, head: h };
    read_diagrams(opened, place)?;
    read_records(opened, place)?;
    Ok(setting_of(h))
}
