// Whether the record of a state in an image is one that its constructor gives: the tests of image_steps/specs/Records, on the tables as they are so far.
#![tactic(auto)]

ghost use Rattle.std.specs.Prelude.{◌≡◌, true, false, ◌&&◌, ◌||◌, List, ◌∷◌, ℕ, ◌+◌, ◌*◌, ◌-◌, ◌≤◌, ◌<◌, eqb, ltb, leb, length};
ghost use Rattle.common.specs.Runs.{Table, table};
ghost use Rattle.spp_steps.specs.Wf.{Nodes};
ghost use Rattle.spp.specs.Clauses.{store_of};
ghost use Rattle.aut_steps.specs.Relations as Rel;
ghost use Rattle.aut_steps.specs.Tables.{aut};
ghost use Rattle.aut_steps.specs.Tables.{Limits as Bounds};
ghost use Rattle.aut_steps.specs.Ascending.{All};
ghost use Rattle.aut_steps.specs.Constructors.{is_relation};
ghost use Rattle.aut_states.specs.Clauses.{limits_of, states_of, Fits};
ghost use Rattle.image_steps.specs.Records as Records;
ghost use Rattle.image_kinds.specs.Clauses.{ShapeOf, Shaped, IsAtom, turn_of, met_of, AtomFits, SingleFits, PairFits, ListFits};
ghost use Rattle.image_kinds.specs.declared.Shape.TheVariants as shape;

use aut_states::{Config, Limits, States, kind};
use spp::{SPP, SPPstore};

// words 0 to 3 of a state
#[derive(Clone, Copy)]
pub struct Words {
    pub kind: u32,
    pub first: u32,
    pub second: u32,
    pub nesting: u32,
}

// what a state's words 1 and 2 are: a relation, nothing, a state, two states, a list of states
#[derive(Clone, Copy)]
pub enum Shape {
    Leaf,
    Constant,
    Single,
    Pair,
    List,
}

// none for a kind that images do not know
#[tactic(auto, unfolding(image_steps::specs::Records::state_fits))]
pub fn shape_of(kind: u32) -> Option<Shape>
    ensures { Shaped kind result }
{
    match kind {
        kind::SPP => Some(Shape::Leaf),
        kind::DUP | kind::TOP => Some(Shape::Constant),
        kind::COMPLEMENT | kind::STAR => Some(Shape::Single),
        kind::XOR | kind::DIFFERENCE | kind::SEQUENCE | kind::UNTIL => Some(Shape::Pair),
        kind::UNION | kind::INTERSECT => Some(Shape::List),
        _ => None,
    }
}

// ---- relations and constants

#[tactic(auto, unfolding(image_steps::specs::Records::leaf_fits))]
pub fn leaf_fits(nodes: &[u32], count: usize, fields: u32, w: Words) -> bool
    requires { Nodes (table nodes.now count) }
    ensures { (L : Bounds) (s m : Table) → Records.leaf_fits fields L (aut (table nodes.now count) s m)
        w.first w.second w.nesting ≡ result }
{
    (w.first as usize) < count + 2
        && image_nodes::relation_depth(nodes, fields, w.first) == fields
        && w.second == 0
        && w.nesting == 0
}

pub fn constant_fits(w: Words) -> bool
    ensures { (N : ℕ) (L : Bounds) → Records.constant_fits N L w.first w.second w.nesting ≡ result }
{
    w.first == 0 && w.second == 0 && w.nesting == 0
}

// a relation, a Dup or a Top
#[tactic(auto, unfolding(image_steps::specs::Records::state_fits))]
pub fn atom_fits(relations: &SPPstore, fields: u32, w: Words) -> bool
    requires { Nodes (store_of relations.now) × IsAtom w.kind }
    ensures { AtomFits fields (store_of relations.now) w result }
{
    match w.kind {
        kind::DUP | kind::TOP => constant_fits(w),
        _ => leaf_fits(relations.nodes, relations.count, fields, w),
    }
}

// ---- one or two operands

// e is the nesting of a state above one of nesting n
fn nests(limits: Limits, n: u32, e: u32) -> bool
    ensures { (eqb e (n + 1) && leb e limits.nesting) ≡ result }
{
    limits.nested(n).is_ok_and(|above| e == above)
}

#[tactic(auto, unfolding(image_steps::specs::Records::one_fits))]
fn one_fits(states: &States, limits: Limits, w: Words) -> bool
    requires { Fits states.now.words.now states.now.count }
    ensures is { (N : ℕ) (t m : Table) → Records.one_fits N (limits_of limits)
        (aut t (states_of states.now) m) w.first w.second w.nesting ≡ result }
    ensures has { result ≡ true → w.first < states.now.count }
{
    (w.first as usize) < states.count
        && w.second == 0
        && nests(limits, states.nest_of(w.first), w.nesting)
}

#[tactic(auto, unfolding(image_steps::specs::Records::two_fits))]
fn two_fits(states: &States, limits: Limits, w: Words) -> bool
    requires { Fits states.now.words.now states.now.count }
    ensures is { (N : ℕ) (t m : Table) → Records.two_fits N (limits_of limits)
        (aut t (states_of states.now) m) w.first w.second w.nesting ≡ result }
    ensures has { result ≡ true → (w.first < states.now.count) × (w.second < states.now.count) }
{
    (w.first as usize) < states.count
        && (w.second as usize) < states.count
        && nests(
            limits,
            states.nest_of(w.first).max(states.nest_of(w.second)),
            w.nesting,
        )
}

#[tactic(auto, unfolding(image_steps::specs::Records::complement_fits))]
fn complement_fits(states: &States, x: u32) -> bool
    requires { 12 * x + 11 < length states.now.words.now }
    ensures { (N : ℕ) (L : Bounds) → Records.complement_fits N L states.now.words.now x ≡ result }
{
    !matches!(states.kind(x), kind::COMPLEMENT | kind::TOP)
}

#[tactic(auto, unfolding(image_steps::specs::Records::star_fits))]
fn star_fits(states: &States, x: u32) -> bool
    requires { 12 * x + 11 < length states.now.words.now }
    ensures { (N : ℕ) (L : Bounds) → Records.star_fits N L states.now.words.now x ≡ result }
{
    !matches!(states.kind(x), kind::STAR | kind::SPP | kind::TOP)
}

// a Complement or a Star
#[tactic(auto, unfolding(image_steps::specs::Records::state_fits))]
pub fn single_fits(states: &States, limits: Limits, w: Words) -> bool
    requires { Fits states.now.words.now states.now.count × ShapeOf w.kind shape.Single }
    ensures { SingleFits limits states.now.words.now states.now.count w result }
{
    if !one_fits(states, limits, w) {
        return false;
    }
    match w.kind {
        kind::COMPLEMENT => complement_fits(states, w.first),
        _ => star_fits(states, w.first),
    }
}

// x is the identity or the empty relation
fn is_constant(states: &States, config: Config, x: u32) -> bool
    requires { (12 * x + 11 < length states.now.words.now) × (config.fields ≤ 31) }
    ensures { (is_relation states.now.words.now x (Rel.one_at config.fields) ||
        is_relation states.now.words.now x (Rel.zero_at config.fields)) ≡ result }
{
    states.is_relation(x, config.one()) || states.is_relation(x, config.zero())
}

#[tactic(auto, unfolding(image_steps::specs::Records::sequence_fits))]
fn sequence_fits(states: &States, config: Config, x: u32, y: u32) -> bool
    requires { (12 * x + 11 < length states.now.words.now) ×
        (12 * y + 11 < length states.now.words.now) × (config.fields ≤ 31) }
    ensures { (L : Bounds) → Records.sequence_fits config.fields L states.now.words.now x y ≡
        result }
{
    if states.both_relations(x, y)
        || is_constant(states, config, x)
        || is_constant(states, config, y)
    {
        return false;
    }
    match states.kind(x) {
        kind::SEQUENCE => false,
        kind::TOP => states.kind(y) != kind::TOP,
        _ => true,
    }
}

// a Xor, a Difference, a Sequence or an Until
#[tactic(auto, unfolding(image_steps::specs::Records::state_fits))]
pub fn pair_fits(states: &States, config: Config, w: Words) -> bool
    requires { Fits states.now.words.now states.now.count × ShapeOf w.kind shape.Pair ×
        (config.fields ≤ 31) }
    ensures { PairFits config.fields config.limits states.now.words.now states.now.count w result }
{
    if !two_fits(states, config.limits, w) {
        return false;
    }
    let (x, y) = (w.first, w.second);
    match w.kind {
        kind::UNTIL => true,
        kind::SEQUENCE => sequence_fits(states, config, x, y),
        kind::XOR => x < y && !states.both_relations(x, y),
        _ => x != y && !states.both_relations(x, y),
    }
}

// ---- lists

#[tactic(auto, unfolding(image_steps::specs::Records::all_below))]
fn all_below(list: &[u32], n: usize) -> bool
    ensures { Records.all_below n list.now ≡ result }
{
    list.iter().all(|x| (*x as usize) < n)
}

// the list begins where the members so far end, and so on
#[tactic(auto, unfolding(image_steps::specs::Records::many_fits))]
fn many_fits(states: &States, list: &[u32], members: usize, limits: Limits, w: Words) -> bool
    requires { Fits states.now.words.now states.now.count × (length list.now ≡ w.second) }
    ensures is { (N : ℕ) (t : Table) (m : List ℕ) → Records.many_fits N (limits_of limits)
        (aut t (states_of states.now) (table m members)) list.now w.first w.second w.nesting ≡ result }
    ensures has { result ≡ true → All (λ x. 12 * x + 11 < length states.now.words.now) list.now }
{
    w.first as usize == members
        && w.second as usize <= limits.list
        && all_below(list, states.count)
        && nests(limits, states.nest_list(list), w.nesting)
}

// x as the next member of a Union, whose members before it end below lo: whether an SPP has been seen by then; none if it may not come next
#[tactic(auto, unfolding(image_steps::specs::Records::unites))]
fn joins(states: &States, zero: SPP, seen: bool, lo: usize, x: u32) -> Option<bool>
    requires { 12 * x + 11 < length states.now.words.now }
    ensures { (N : ℕ) → Rel.zero_at N ≡ zero.0 → (xs : List ℕ) → Records.unites N
        states.now.words.now seen lo (x ∷ xs) ≡ turn_of result (λ s. Records.unites N states.now.words.now s (x + 1) xs) }
{
    if (x as usize) < lo {
        return None;
    }
    match states.kind(x) {
        kind::UNION | kind::TOP => None,
        kind::SPP if seen || states.relation(x) == zero => None,
        kind::SPP => Some(true),
        _ => Some(seen),
    }
}

#[tactic(auto, unfolding(image_steps::specs::Records::unites))]
fn unites(states: &States, list: &[u32], zero: SPP) -> bool
    requires { All (λ x. 12 * x + 11 < length states.now.words.now) list.now }
    ensures { (N : ℕ) → Rel.zero_at N ≡ zero.0 → Records.unites N states.now.words.now false 0
        list.now ≡ result }
{
    let mut seen = false;
    let mut lo: usize = 0;
    for x in list {
        let Some(s) = joins(states, zero, seen, lo, *x) else {
            return false;
        };
        seen = s;
        lo = *x as usize + 1;
    }
    true
}

// x as member j of the k of an Intersect, whose members before it end below lo: what it decides; none if the list goes on
#[tactic(auto, unfolding(image_steps::specs::Records::meets))]
fn meets_at(states: &States, zero: SPP, j: usize, k: usize, lo: usize, x: u32) -> Option<bool>
    requires { (12 * x + 11 < length states.now.words.now) × (j < k) }
    ensures { (N : ℕ) → Rel.zero_at N ≡ zero.0 → (xs : List ℕ) → length xs ≡ k - (j + 1) → Records.meets N
        states.now.words.now (ltb 0 j) lo (x ∷ xs) ≡ met_of result (Records.meets N states.now.words.now true (x + 1) xs) }
{
    match states.kind(x) {
        kind::SPP => Some(0 < j && states.relation(x) != zero && j + 1 == k),
        kind::INTERSECT | kind::TOP => Some(false),
        _ if (x as usize) < lo => Some(false),
        _ => None,
    }
}

#[tactic(auto, unfolding(image_steps::specs::Records::meets))]
fn meets(states: &States, list: &[u32], zero: SPP) -> bool
    requires { All (λ x. 12 * x + 11 < length states.now.words.now) list.now }
    ensures { (N : ℕ) → Rel.zero_at N ≡ zero.0 → Records.meets N states.now.words.now false 0
        list.now ≡ result }
{
    let mut lo: usize = 0;
    for (j, x) in list.iter().enumerate() {
        if let Some(b) = meets_at(states, zero, j, list.len(), lo, *x) {
            return b;
        }
        lo = *x as usize + 1;
    }
    !list.is_empty()
}

// a Union or an Intersect: its members are the list, and those so far end at `members`
#[tactic(auto, unfolding(image_steps::specs::Records::state_fits))]
pub fn list_fits(states: &States, list: &[u32], members: usize, config: Config, w: Words) -> bool
    requires { Fits states.now.words.now states.now.count × ShapeOf w.kind shape.List ×
        (config.fields ≤ 31) × (length list.now ≡ w.second) }
    ensures { ListFits config.fields config.limits states.now.words.now states.now.count list.now members w
        result }
{
    if !many_fits(states, list, members, config.limits, w) {
        return false;
    }
    let zero = config.zero();
    match w.kind {
        kind::INTERSECT => meets(states, list, zero),
        _ => 2 <= w.second && unites(states, list, zero),
    }
}
