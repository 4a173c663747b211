// The states of an image, read: each record is tested against the tables so far, entered as the last step of its constructor does, and its number looked at.
#![tactic(auto)]

ghost use Rattle.std.specs.Prelude.{◌≡◌, [], ◌+◌, ◌*◌, length};
ghost use Rattle.slices.specs.Same.{SameSlice};
ghost use Rattle.image_kinds.specs.Clauses.{ShapeOf, IsAtom};
ghost use Rattle.image_kinds.specs.declared.Shape.TheVariants as shape;
ghost use Rattle.image_states.specs.Clauses as Its;

use aut_relations::Aut;
use aut_states::{Config, Members, States};
use image_kinds::{Shape, Words};
use image_words::STATE;
use refusal::Refusal;

// an image, and where its members stand: their first word, and how many there are
#[derive(Clone, Copy)]
pub struct Lists<'a> {
    pub image: &'a [u8],
    pub first: usize,
    pub count: usize,
}

// ---- words

fn words_at(image: &[u8], s: usize) -> Words
    requires { Its.Holds image.now (s + 4) }
    ensures { Its.WordsAt image.now s result }
{
    Words {
        kind: image_words::word(image, s),
        first: image_words::word(image, s + 1),
        second: image_words::word(image, s + 2),
        nesting: image_words::word(image, s + 3),
    }
}

// the words from `at` on go to the list
pub fn copy_members(image: &[u8], list: &mut [u32], at: usize)
    requires { Its.Holds image.now (at + length list.old) }
    ensures { Its.Copies image.now at (length list.old) list.new }
{
    for (j, x) in list.iter_mut().enumerate() {
        *x = image_words::word(image, at + j);
    }
}

// ---- a record without a list

fn enter_atom(aut: &mut Aut, config: Config, w: Words) -> Result<u32, Refusal>
    requires { Its.Ordered config aut.old × IsAtom w.kind }
    ensures keeps { Its.OnlyStates aut.old aut.new }
    ensures gives { Its.Enters config w [] aut.old result aut.new }
{
    if !image_kinds::atom_fits(&aut.spp, config.fields, w) {
        return Err(Refusal::Record);
    }
    aut.states.intern0(w.kind, w.first)
}

fn enter_single(aut: &mut Aut, config: Config, w: Words) -> Result<u32, Refusal>
    requires { Its.Ordered config aut.old × ShapeOf w.kind shape.Single }
    ensures keeps { Its.OnlyStates aut.old aut.new }
    ensures gives { Its.Enters config w [] aut.old result aut.new }
{
    if !image_kinds::single_fits(&aut.states, config.limits, w) {
        return Err(Refusal::Record);
    }
    aut.states.intern1(config.limits, w.kind, w.first)
}

fn enter_pair(aut: &mut Aut, config: Config, w: Words) -> Result<u32, Refusal>
    requires { Its.Ordered config aut.old × ShapeOf w.kind shape.Pair }
    ensures keeps { Its.OnlyStates aut.old aut.new }
    ensures gives { Its.Enters config w [] aut.old result aut.new }
{
    if !image_kinds::pair_fits(&aut.states, config, w) {
        return Err(Refusal::Record);
    }
    aut.states.intern2(config.limits, w.kind, w.first, w.second)
}

// ---- a record with a list

fn enter_list(
    states: &mut States,
    members: &mut Members,
    config: Config,
    list: &[u32],
    w: Words,
) -> Result<u32, Refusal>
    requires { Its.ListAsks config w list.now states.old members.old × ShapeOf w.kind shape.List }
    ensures same { SameSlice states.old.words states.new.words }
    ensures same_members { SameSlice members.old.words members.new.words }
    ensures gives { Its.EntersList config w list.now states.old members.old result states.new
        members.new }
{
    if !image_kinds::list_fits(states, list, members.count, config, w) {
        return Err(Refusal::Record);
    }
    states.intern_list(members, config.limits, w.kind, list)
}

// the list is among the image's members, and no longer than a list may be
fn read_list(aut: &mut Aut, config: Config, at: Lists, w: Words) -> Result<u32, Refusal>
    requires { Its.ReadAsks config at aut.old × ShapeOf w.kind shape.List }
    ensures keeps { Its.OnlyExprs aut.old aut.new }
    ensures gives { Its.Reads config at.entry w aut.old result aut.new }
{
    let x = w.first as usize;
    let k = w.second as usize;
    if x + k > at.count || k > config.limits.list {
        return Err(Refusal::Record);
    }
    let list = &mut aut.scratch[..k];
    copy_members(at.image, list, at.first + x);
    enter_list(&mut aut.states, &mut aut.members, config, list, w)
}

// ---- records

// the record with these words
fn enter(aut: &mut Aut, config: Config, at: Lists, w: Words) -> Result<u32, Refusal>
    requires { Its.ReadAsks config at aut.old }
    ensures keeps { Its.OnlyExprs aut.old aut.new }
    ensures gives { Its.Reads config at.entry w aut.old result aut.new }
{
    match image_kinds::shape_of(w.kind) {
        Some(Shape::Leaf) => enter_atom(aut, config, w),
        Some(Shape::Constant) => enter_atom(aut, config, w),
        Some(Shape::Single) => enter_single(aut, config, w),
        Some(Shape::Pair) => enter_pair(aut, config, w),
        Some(Shape::List) => read_list(aut, config, at, w),
        None => Err(Refusal::Record),
    }
}

// the number n is wanted
fn want(i: u32, n: usize) -> Result<u32, Refusal>
    ensures { Its.Wants n i result }
{
    if i as usize != n {
        return Err(Refusal::Record);
    }
    Ok(i)
}

// the record of a state at word s
pub fn read_state(aut: &mut Aut, config: Config, at: Lists, s: usize) -> Result<u32, Refusal>
    requires { Its.StateAsks config at s aut.old }
    ensures keeps { Its.OnlyExprs aut.old aut.new }
    ensures gives { Its.ReadsState config at.entry s aut.old result aut.new }
{
    let w = words_at(at.image, s);
    let n = aut.states.count;
    let i = enter(aut, config, at, w)?;
    want(i, n)
}

// the block that it reaches, and the record
fn read_at(aut: &mut Aut, config: Config, at: Lists, s: usize) -> Result<u32, Refusal>
    requires { Its.TurnAsks config at s aut.old }
    ensures keeps { Its.OnlyExprs aut.old aut.new }
    ensures gives { Its.Turns config at.entry s aut.old result aut.new }
{
    image_words::enter(at.image, s, STATE)?;
    read_state(aut, config, at, s)
}

// the records of k states, the first at word s
pub fn read_states(
    aut: &mut Aut,
    config: Config,
    at: Lists,
    s: usize,
    k: usize,
) -> Result<(), Refusal>
    requires { Its.StatesAsk config at s k aut.old }
    ensures keeps { Its.OnlyExprs aut.old aut.new }
    ensures gives { Its.ReadsStates config at.entry s k aut.old result aut.new }
{
    for i in 0..k {
        read_at(aut, config, at, s + STATE * i)?;
    }
    Ok(())
}
