// The least packet of a set, and the least of a set to which a relation leads a packet, each as its number.
// They make no node.
#![tactic(auto)]

ghost use Rattle.std.specs.Prelude.{◌≡◌, ◌+◌, ◌*◌, ◌-◌, ◌^◌, ◌≤◌, ◌<◌, length, IfSome};
ghost use Rattle.sp.specs.Clauses as Sets;
ghost use Rattle.spp.specs.Clauses.{view_of};
ghost use Rattle.netkat_paths.specs.Order.{least};
ghost use Rattle.sp_steps.specs.Model.{mem};
ghost use Rattle.spp_steps.specs.ImageModel.{stores};
ghost use Rattle.spp_least.specs.Clauses.{number_of, word, raised, LeastAsked, LedAsked, LedAnswer, RowOf};

use sp::{SP, SPview};
use spp::{SPP, SPPview};

// the code of the packet 0 in the cache
pub const LEAST: u32 = 2147483648;

// what the first of so many bits counts
fn half(depth: u32) -> u32
    requires { (1 ≤ depth) × (depth ≤ 31) }
    ensures { result ≡ 2 ^ (depth - 1) }
{
    1u32 << (depth - 1)
}

// a number with a bit 1 in front
fn raise(depth: u32, rest: Option<u32>) -> Option<u32>
    requires { (1 ≤ depth) × (depth ≤ 31) × IfSome rest (λ k. k < 2 ^ (depth - 1)) }
    ensures { result ≡ raised (2 ^ (depth - 1)) rest }
{
    Some(half(depth) + rest?)
}

// a slot's word: 0 for no packet, or its number + 1
fn to_word(packet: Option<u32>) -> u32
    requires { IfSome packet (λ k. k < 4294967295) }
    ensures { result ≡ word packet }
{
    packet.map_or(0, |k| k + 1)
}

fn from_word(w: u32) -> Option<u32>
    ensures { word result ≡ w }
{
    w.checked_sub(1)
}

// the least packet of a set
pub fn least(sets: SPview, depth: u32, s: SP) -> Option<u32>
    requires { LeastAsked depth (Sets.view_of sets) s.0 }
    ensures { result ≡ number_of (least depth (mem sets.entry.nodes.now depth s.0)) }
{
    if sp::is_zero(depth, s) {
        return None;
    }
    if depth == 0 {
        return Some(0);
    }
    let p = sets.get(s);
    match least(sets, depth - 1, p.x0) {
        None => raise(depth, least(sets, depth - 1, p.x1)),
        low => low,
    }
}

// where a node leads a packet, by the packet's first bit; and the number of its other bits
#[derive(Clone, Copy)]
struct Led {
    x0: SPP,
    x1: SPP,
    rest: u32,
}

fn row(spp: SPPview, depth: u32, packet: u32, r: SPP) -> Led
    requires { (1 ≤ depth) × (depth ≤ 31) × (packet < 2 ^ depth) × (2 ≤ r.0) × (4 * r.0 ≤ length spp.nodes.now + 4) }
    ensures { RowOf spp.entry.nodes.now depth packet r.0 result.x0.0 result.x1.0 result.rest }
{
    let k = half(depth);
    let q = spp.get(r);
    if packet < k {
        return Led {
            x0: q.x00,
            x1: q.x01,
            rest: packet,
        };
    }
    Led {
        x0: q.x10,
        x1: q.x11,
        rest: packet - k,
    }
}

// the least packet of the set to which the relation leads the packet with that number
pub fn least_led(
    sets: SPview,
    spp: SPPview,
    cache: &mut [u32],
    depth: u32,
    packet: u32,
    s: SP,
    r: SPP,
) -> Option<u32>
    requires { LedAsked spp.fields depth (stores (Sets.view_of sets) (view_of spp)) cache.old packet s.0 r.0 }
    ensures { LedAnswer depth (stores (Sets.view_of sets.entry) (view_of spp.entry)) cache.old packet s.0 r.0
        result cache.new }
{
    if sp::is_zero(depth, s) || spp::is_zero(depth, r) {
        return None;
    }
    if depth == 0 {
        return Some(0);
    }
    if let Some(word) = cache::look(cache, LEAST + packet, s.0, r.0) {
        return from_word(word);
    }
    let p = sets.get(s);
    let q = row(spp, depth, packet, r);
    let led = match least_led(sets, spp, cache, depth - 1, q.rest, p.x0, q.x0) {
        None => {
            let high = least_led(sets, spp, cache, depth - 1, q.rest, p.x1, q.x1);
            raise(depth, high)
        }
        low => low,
    };
    cache::note(cache, LEAST + packet, s.0, r.0, to_word(led));
    led
}
