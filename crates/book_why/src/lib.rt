// The answer to `why`: the string is picked from the rounds, hop by hop, and its sentence is written, whole or not at all.
#![tactic(auto)]

ghost use Rattle.std.specs.Prelude.{◌≡◌, ◌<◌};
ghost use Rattle.slices.specs.Same.{SameSlice};
ghost use Rattle.aut_sets.specs.Lent.{OnlyScratch, OnlySearch};
ghost use Rattle.book_why.specs.Clauses.{PreStart, PostStart, PreNext, PostNext, PreLast, PostLast, PreString, PostString, PreAnswer, PostAnswer};

use aut_relations::Aut;
use aut_states::Config;
use aut_why_again::Rounds;
use aut_why_words::word;
use book_writer::Output;
use refusal::Refusal;

// where the picking stands: the rounds, the state, and the packet's number
#[derive(Clone, Copy)]
pub struct Spot {
    pub rounds: Rounds,
    pub state: u32,
    pub packet: u32,
}

// about the square root: a power of two
fn step_for(k: usize) -> usize
    ensures { 0 < result }
{
    1 << k.max(1).ilog2().div_ceil(2)
}

// the least start of a string of x with so many hops; there is one
fn put_first(aut: &mut Aut, config: Config, out: &mut Output, n: usize, hops: usize, x: u32) -> Spot
    requires { PreStart config aut.old out.old n hops x }
    ensures keeps { OnlySearch aut.old aut.new }
    ensures pending { aut.new.pending ≡ aut.old.pending }
    ensures bytes { SameSlice out.old.bytes out.new.bytes }
    ensures gives { PostStart config n hops x aut.old out.old result aut.new out.new }
{
    let none = Rounds {
        n,
        step: step_for(hops + 1),
        mark: hops + 1,
    };
    let rounds = aut_why_again::sets_for(aut, config, none, hops);
    let starts = aut_live_words::set_at(aut, x, word::BEFORE);
    let packet = aut_why_least::first_of(aut, config, starts).unwrap();
    out.put_start(config.fields, packet);
    Spot {
        rounds,
        state: x,
        packet,
    }
}

// the next hop, j hops before the end; there is one
fn put_next(
    aut: &mut Aut,
    config: Config,
    out: &mut Output,
    j: usize,
    first: bool,
    spot: Spot,
) -> Spot
    requires { PreNext config aut.old out.old spot.rounds.n j spot }
    ensures keeps { OnlySearch aut.old aut.new }
    ensures pending { aut.new.pending ≡ aut.old.pending }
    ensures bytes { SameSlice out.old.bytes out.new.bytes }
    ensures gives { PostNext config spot.rounds.n j first spot aut.old out.old result aut.new out.new }
{
    let rounds = aut_why_again::sets_for(aut, config, spot.rounds, j);
    let (packet, state) = aut_why_hop::hop(aut, config, spot.state, spot.packet).unwrap();
    out.put_hop(config.fields, first, packet);
    Spot {
        rounds,
        state,
        packet,
    }
}

// the least end; there is one
fn put_last(aut: &mut Aut, config: Config, out: &mut Output, spot: Spot)
    requires { PreLast config aut.old out.old spot }
    ensures keeps { OnlyScratch aut.old aut.new }
    ensures bytes { SameSlice out.old.bytes out.new.bytes }
    ensures gives { PostLast config spot aut.old out.old aut.new out.new }
{
    let epsilon = aut_why_words::epsilon_at(aut, spot.state);
    let packet = aut_why_least::end_of(aut, config, spot.packet, epsilon).unwrap();
    out.put_end(config.fields, packet);
}

// the sentence of the string with so many hops, for which there is room
fn put_string(aut: &mut Aut, config: Config, out: &mut Output, n: usize, hops: usize, x: u32)
    requires { PreString config aut.old out.old n hops x }
    ensures keeps { OnlySearch aut.old aut.new }
    ensures pending { aut.new.pending ≡ aut.old.pending }
    ensures bytes { SameSlice out.old.bytes out.new.bytes }
    ensures gives { PostString config n hops x aut.old out.old aut.new out.new }
{
    let mut spot = put_first(aut, config, out, n, hops, x);
    for j in (0..hops).rev() {
        spot = put_next(aut, config, out, j, j + 1 == hops, spot);
    }
    put_last(aut, config, out, spot);
}

// the answer for x, with the fewest hops of its strings, if there is one
pub fn why_answer(
    aut: &mut Aut,
    config: Config,
    out: &mut Output,
    n: usize,
    hops: Option<usize>,
    x: u32,
) -> Result<(), Refusal>
    requires { PreAnswer config aut.old n hops x }
    ensures keeps { OnlySearch aut.old aut.new }
    ensures pending { aut.new.pending ≡ aut.old.pending }
    ensures bytes { SameSlice out.old.bytes out.new.bytes }
    ensures gives { PostAnswer config n hops x aut.old out.old result aut.new out.new }
{
    let Some(hops) = hops else {
        return out.none_answer();
    };
    let long = book_writer::why_length(config.fields, hops);
    out.room(long)?;
    aut_why_least::forget(aut);
    put_string(aut, config, out, n, hops, x);
    Ok(())
}
