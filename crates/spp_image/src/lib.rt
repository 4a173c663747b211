// spp.rs, images: the image and the domain of a relation, the image of a set, and what a relation leads into a set. They make packet nodes only.
#![tactic(auto)]

ghost use Rattle.std.specs.Prelude.{◌≡◌, Bool, ◌≤◌};
ghost use Rattle.slices.specs.Same.{SameSlice};
ghost use Rattle.sp.specs.Clauses as sp_seen;
ghost use Rattle.sp.specs.Clauses.{store_of};
ghost use Rattle.spp.specs.Clauses.{quad_of, view_of};
ghost use Rattle.spp_steps.specs.ImageModel.{stores, fwd, bwd, led_exit, push, pull};
ghost use Rattle.spp_image.specs.Ways.{project, lead, first, second, turn, join};
ghost use Rattle.spp_image.specs.Reuse.{project_code, lead_code};
ghost use Rattle.spp_image.specs.Clauses.{Asked, LeadAsked, Answer, JoinAsked, led_of};

use sp::{Full, SP, SPnode, SPstore};
use spp::{SPP, SPPnode, SPPview};

// from the first packet to the second, or back
#[derive(Clone, Copy)]
pub enum Way {
    Forward,
    Backward,
}

// A finished set; or the set has all packets; or: go down.
#[derive(Clone, Copy)]
pub enum Led {
    Done(SP),
    Whole,
    More,
}

// codes in the cache
const FWD: u32 = 10;

const BWD: u32 = 11;

const PUSH: u32 = 13;

const PULL: u32 = 14;

// the set whose first half is the union of w and x, and whose second half is that of y and z
fn join(
    sets: &mut SPstore,
    cache: &mut [u32],
    depth: u32,
    w: SP,
    x: SP,
    y: SP,
    z: SP,
) -> Result<SP, Full>
    requires { JoinAsked (store_of sets.old) cache.old depth w.0 x.0 y.0 z.0 }
    ensures same_table { SameSlice sets.old.nodes sets.new.nodes }
    ensures answer { sp_seen.Answer (join depth w.0 x.0 y.0 z.0) (store_of sets.old) cache.old
        result (store_of sets.new) cache.new }
{
    let x0 = sets.union(cache, depth, w, x)?;
    let x1 = sets.union(cache, depth, y, z)?;
    sets.mk(x0, x1)
}

// forward: of the converse relation
fn turned(way: Way, x: SPPnode) -> SPPnode
    ensures { (i j : Bool) → quad_of result i j ≡ turn way (quad_of x) i j }
{
    match way {
        Way::Forward => SPPnode {
            x01: x.x10,
            x10: x.x01,
            ..x
        },
        Way::Backward => x,
    }
}

// where `project` keeps its results
fn project_code(way: Way) -> u32
    ensures { result ≡ project_code way }
{
    match way {
        Way::Forward => FWD,
        Way::Backward => BWD,
    }
}

// the image of a relation, or its domain
fn project(
    sets: &mut SPstore,
    spp: SPPview,
    cache: &mut [u32],
    depth: u32,
    way: Way,
    r: SPP,
) -> Result<SP, Full>
    requires { Asked spp.fields depth (stores (store_of sets.old) (view_of spp)) cache.old r.0 }
    ensures same_table { SameSlice sets.old.nodes sets.new.nodes }
    ensures answer { Answer spp.entry.fields (project way depth r.0)
        (stores (store_of sets.old) (view_of spp.entry)) cache.old result (store_of sets.new) cache.new }
{
    if depth == 0 {
        return Ok(SP(r.0));
    }
    let code = project_code(way);
    if let Some(h) = cache::look(cache, code, r.0, r.0) {
        return Ok(SP(h));
    }
    let node = spp.get(r);
    let q = turned(way, node);
    let below = depth - 1;
    let w = project(sets, spp, cache, below, way, q.x00)?;
    let x = project(sets, spp, cache, below, way, q.x01)?;
    let y = project(sets, spp, cache, below, way, q.x10)?;
    let z = project(sets, spp, cache, below, way, q.x11)?;
    let h = join(sets, cache, below, w, x, y, z)?;
    cache::note(cache, code, r.0, r.0, h.0);
    Ok(h)
}

// the packets that a relation leads to
pub fn fwd(
    sets: &mut SPstore,
    spp: SPPview,
    cache: &mut [u32],
    depth: u32,
    r: SPP,
) -> Result<SP, Full>
    requires { Asked spp.fields depth (stores (store_of sets.old) (view_of spp)) cache.old r.0 }
    ensures same_table { SameSlice sets.old.nodes sets.new.nodes }
    ensures answer { Answer spp.entry.fields (fwd depth r.0)
        (stores (store_of sets.old) (view_of spp.entry)) cache.old result (store_of sets.new) cache.new }
{
    project(sets, spp, cache, depth, Way::Forward, r)
}

// the packets that a relation leads on
pub fn bwd(
    sets: &mut SPstore,
    spp: SPPview,
    cache: &mut [u32],
    depth: u32,
    r: SPP,
) -> Result<SP, Full>
    requires { Asked spp.fields depth (stores (store_of sets.old) (view_of spp)) cache.old r.0 }
    ensures same_table { SameSlice sets.old.nodes sets.new.nodes }
    ensures answer { Answer spp.entry.fields (bwd depth r.0)
        (stores (store_of sets.old) (view_of spp.entry)) cache.old result (store_of sets.new) cache.new }
{
    project(sets, spp, cache, depth, Way::Backward, r)
}

// what is known of push and pull with no look at the nodes
#[tactic(auto, unfolding(spp_steps::specs::ImageModel::led_exit))]
fn led_exit(fields: u32, depth: u32, s: SP, r: SPP) -> Led
    requires { (fields ≤ 31) × (depth ≤ 31) }
    ensures { led_exit fields depth s.0 r.0 ≡ led_of result }
{
    let zero = spp::zero_at_depth(depth);
    let one = spp::one_at_depth(fields, depth);
    let top = spp::top_at_depth(fields, depth);
    if sp::is_zero(depth, s) || r == one {
        return Led::Done(s);
    }
    if r == zero {
        return Led::Done(sp::zero_at_depth(depth));
    }
    if r == top {
        return Led::Done(sp::one_at_depth(depth));
    }
    if sp::is_universal(depth, s) {
        return Led::Whole;
    }
    Led::More
}

// x and y, backward y and x
fn paired(way: Way, x: SP, y: SP) -> SPnode
    ensures { (result.x0.0 ≡ first way x.0 y.0) × (result.x1.0 ≡ second way x.0 y.0) }
{
    match way {
        Way::Forward => SPnode { x0: x, x1: y },
        Way::Backward => SPnode { x0: y, x1: x },
    }
}

// where `lead` keeps its results
fn lead_code(way: Way) -> u32
    ensures { result ≡ lead_code way }
{
    match way {
        Way::Forward => PUSH,
        Way::Backward => PULL,
    }
}

// the image of a set, or the packets that a relation leads into a set
fn lead(
    sets: &mut SPstore,
    spp: SPPview,
    cache: &mut [u32],
    depth: u32,
    way: Way,
    s: SP,
    r: SPP,
) -> Result<SP, Full>
    requires { LeadAsked spp.fields depth (stores (store_of sets.old) (view_of spp)) cache.old s.0 r.0 }
    ensures same_table { SameSlice sets.old.nodes sets.new.nodes }
    ensures answer { Answer spp.entry.fields (lead way spp.entry.fields depth s.0 r.0)
        (stores (store_of sets.old) (view_of spp.entry)) cache.old result (store_of sets.new) cache.new }
{
    match led_exit(spp.fields, depth, s, r) {
        Led::Done(h) => Ok(h),
        Led::Whole => project(sets, spp, cache, depth, way, r),
        Led::More => {
            let code = lead_code(way);
            if let Some(h) = cache::look(cache, code, s.0, r.0) {
                return Ok(SP(h));
            }
            let p = sets.get(s);
            let q = spp.get(r);
            let mid = paired(way, p.x1, p.x0);
            let below = depth - 1;
            let a = lead(sets, spp, cache, below, way, p.x0, q.x00)?;
            let b = lead(sets, spp, cache, below, way, mid.x0, q.x10)?;
            let c = lead(sets, spp, cache, below, way, mid.x1, q.x01)?;
            let d = lead(sets, spp, cache, below, way, p.x1, q.x11)?;
            let ends = paired(way, b, c);
            let h = join(sets, cache, below, a, ends.x0, ends.x1, d)?;
            cache::note(cache, code, s.0, r.0, h.0);
            Ok(h)
        }
    }
}

// the packets that a relation leads to from a packet of the set
pub fn push(
    sets: &mut SPstore,
    spp: SPPview,
    cache: &mut [u32],
    depth: u32,
    s: SP,
    r: SPP,
) -> Result<SP, Full>
    requires { LeadAsked spp.fields depth (stores (store_of sets.old) (view_of spp)) cache.old s.0 r.0 }
    ensures same_table { SameSlice sets.old.nodes sets.new.nodes }
    ensures answer { Answer spp.entry.fields (push spp.entry.fields depth s.0 r.0)
        (stores (store_of sets.old) (view_of spp.entry)) cache.old result (store_of sets.new) cache.new }
{
    lead(sets, spp, cache, depth, Way::Forward, s, r)
}

// the packets that a relation leads to a packet of the set
pub fn pull(
    sets: &mut SPstore,
    spp: SPPview,
    cache: &mut [u32],
    depth: u32,
    r: SPP,
    s: SP,
) -> Result<SP, Full>
    requires { LeadAsked spp.fields depth (stores (store_of sets.old) (view_of spp)) cache.old s.0 r.0 }
    ensures same_table { SameSlice sets.old.nodes sets.new.nodes }
    ensures answer { Answer spp.entry.fields (pull spp.entry.fields depth r.0 s.0)
        (stores (store_of sets.old) (view_of spp.entry)) cache.old result (store_of sets.new) cache.new }
{
    lead(sets, spp, cache, depth, Way::Backward, s, r)
}
