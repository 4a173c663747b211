// 02 (ii), "each record again by its constructor .. and wants the same number": packet nodes and relation nodes read from an image.
#![tactic(auto)]

ghost use Rattle.std.specs.Prelude.{◌≡◌, ◌+◌, ◌*◌};
ghost use Rattle.slices.specs.Same.{SameSlice};
ghost use Rattle.sp.specs.Clauses as Sp;
ghost use Rattle.spp.specs.Clauses as Spp;
ghost use Rattle.image_steps.specs.Records as Records;
ghost use Rattle.image_words.specs.Clauses.{Reaches};
ghost use Rattle.image_nodes.specs.Clauses as Its;
ghost use Rattle.refusal.specs.Numbers.{outcome};

use refusal::Refusal;
use sp::{SP, SPstore};
use spp::{SPP, SPPnode, SPPstore};

// ---- packet nodes

// the depth of a handle, by first children, as far as n
pub fn depth_of(sp: &[u32], n: u32, h: u32) -> u32
    requires { Its.Inside sp.now h }
    ensures { result ≡ Records.depth_of sp.now n h }
{
    let mut x = h;
    for d in 0..n {
        if x < 2 {
            return d;
        }
        x = sp[2 * (x / 2 - 1) as usize];
    }
    n
}

// children of nodes before i (or 0, 1), of one depth below the fields, the left one even
fn children_fit(sets: &SPstore, fields: u32, i: usize, x0: u32, x1: u32) -> bool
    requires { Its.PreNode Its.packets fields (Sp.store_of sets.now) i }
    ensures { Its.children_fit fields sets.now.nodes.now i x0 x1 ≡ result }
{
    if i < (x0 / 2) as usize || i < (x1 / 2) as usize || x0 % 2 != 0 {
        return false;
    }
    let d = depth_of(sets.nodes, fields, x0);
    let e = depth_of(sets.nodes, fields, x1);
    d < fields && d == e
}

// packet node i with these children: found there, or made
fn make_node(sets: &mut SPstore, fields: u32, i: usize, x0: u32, x1: u32) -> Result<(), Refusal>
    requires { Its.PreNode Its.packets fields (Sp.store_of sets.old) i }
    ensures same_table { SameSlice sets.old.nodes sets.new.nodes }
    ensures gives { Records.node fields i x0 x1 (Sp.store_of sets.old) ≡ outcome (λ _. 2 * i + 2) result
        (Sp.store_of sets.new) }
{
    if !children_fit(sets, fields, i, x0, x1) {
        return Err(Refusal::Record);
    }
    // only for the next node there may be no room
    let next = i >= sets.count;
    match sets.mk(SP(x0), SP(x1)) {
        Ok(h) if h.0 as usize == 2 * i + 2 => Ok(()),
        Err(_) if next => Err(Refusal::Sp),
        _ => Err(Refusal::Record),
    }
}

// the record of packet node i, from word s on; first the block that it reaches
pub fn read_node(
    image: &[u8],
    sets: &mut SPstore,
    fields: u32,
    i: usize,
    s: usize,
) -> Result<(), Refusal>
    requires { Its.PreNode Its.packets fields (Sp.store_of sets.old) i × Reaches image.now (s + 2) }
    ensures same_table { SameSlice sets.old.nodes sets.new.nodes }
    ensures gives { Its.PostNode Its.packets image.now fields i s (Sp.store_of sets.old) result (Sp.store_of sets.new) }
{
    image_words::enter(image, s, 2)?;
    let x0 = image_words::word(image, s);
    let x1 = image_words::word(image, s + 1);
    make_node(sets, fields, i, x0, x1)
}

// k packet nodes, from word 0 on
pub fn read_nodes(image: &[u8], sets: &mut SPstore, fields: u32, k: usize) -> Result<(), Refusal>
    requires { Its.PreNode Its.packets fields (Sp.store_of sets.old) 0 × Reaches image.now (2 * k) }
    ensures same_table { SameSlice sets.old.nodes sets.new.nodes }
    ensures gives { Its.PostNodes Its.packets image.now fields 0 k (Sp.store_of sets.old) result (Sp.store_of sets.new) }
{
    for i in 0..k {
        read_node(image, sets, fields, i, 2 * i)?;
    }
    Ok(())
}

// ---- relation nodes

pub fn relation_depth(nodes: &[u32], n: u32, h: u32) -> u32
    requires { Its.InsideR nodes.now h }
    ensures { result ≡ Records.depth_of_r nodes.now n h }
{
    let mut x = h;
    for d in 0..n {
        if x < 2 {
            return d;
        }
        x = nodes[4 * (x - 2) as usize];
    }
    n
}

// a handle of a node before i, or 0 or 1, of depth d
fn kid_fits(relations: &SPPstore, i: usize, d: u32, x: SPP) -> bool
    requires { Its.PreNode Its.relations relations.now.fields (Spp.store_of relations.now) i }
    ensures { Records.kid_fits relations.now.fields relations.now.nodes.now i d x.0 ≡ result }
{
    (x.0 as usize) < i + 2 && relation_depth(relations.nodes, relations.fields, x.0) == d
}

// children of nodes before i (or 0, 1), of one depth below the fields
fn quad_fits(relations: &SPPstore, i: usize, x: SPPnode) -> bool
    requires { Its.PreNode Its.relations relations.now.fields (Spp.store_of relations.now) i }
    ensures { Its.quad_fits relations.now.fields relations.now.nodes.now i (Spp.quad_of x) ≡ result }
{
    if x.x00.0 as usize >= i + 2 {
        return false;
    }
    let d = relation_depth(relations.nodes, relations.fields, x.x00.0);
    d < relations.fields
        && kid_fits(relations, i, d, x.x01)
        && kid_fits(relations, i, d, x.x10)
        && kid_fits(relations, i, d, x.x11)
}

// relation node i with these children: found there, or made
fn make_relation(relations: &mut SPPstore, i: usize, x: SPPnode) -> Result<(), Refusal>
    requires { Its.PreNode Its.relations relations.old.fields (Spp.store_of relations.old) i }
    ensures same_store { Spp.SameStore relations.old relations.new }
    ensures gives { Records.relation relations.old.fields i (Spp.quad_of x) (Spp.store_of relations.old) ≡ outcome (λ _. i + 2) result
        (Spp.store_of relations.new) }
{
    if !quad_fits(relations, i, x) {
        return Err(Refusal::Record);
    }
    // only for the next node there may be no room
    let next = i >= relations.count;
    match relations.mk(x) {
        Ok(h) if h.0 as usize == i + 2 => Ok(()),
        Err(_) if next => Err(Refusal::Spp),
        _ => Err(Refusal::Record),
    }
}

// the children of the record from word s on
fn quad_at(image: &[u8], s: usize) -> SPPnode
    requires { Reaches image.now (s + 4) }
    ensures { Its.QuadAt image.now s result }
{
    SPPnode {
        x00: SPP(image_words::word(image, s)),
        x01: SPP(image_words::word(image, s + 1)),
        x10: SPP(image_words::word(image, s + 2)),
        x11: SPP(image_words::word(image, s + 3)),
    }
}

// the record of relation node i, from word s on; first the block that it reaches
pub fn read_relation(
    image: &[u8],
    relations: &mut SPPstore,
    i: usize,
    s: usize,
) -> Result<(), Refusal>
    requires { Its.PreNode Its.relations relations.old.fields (Spp.store_of relations.old) i × Reaches image.now (s + 4) }
    ensures same_store { Spp.SameStore relations.old relations.new }
    ensures gives { Its.PostNode Its.relations image.now relations.old.fields i s (Spp.store_of relations.old) result
        (Spp.store_of relations.new) }
{
    image_words::enter(image, s, 4)?;
    let x = quad_at(image, s);
    make_relation(relations, i, x)
}

// k relation nodes, from word `start` on
pub fn read_relations(
    image: &[u8],
    relations: &mut SPPstore,
    start: usize,
    k: usize,
) -> Result<(), Refusal>
    requires { Its.PreNode Its.relations relations.old.fields (Spp.store_of relations.old) 0 × Reaches image.now (start + 4 * k) }
    ensures same_store { Spp.SameStore relations.old relations.new }
    ensures gives { Its.PostNodes Its.relations image.now relations.old.fields start k (Spp.store_of relations.old) result
        (Spp.store_of relations.new) }
{
    for i in 0..k {
        read_relation(image, relations, i, start + 4 * i)?;
    }
    Ok(())
}
