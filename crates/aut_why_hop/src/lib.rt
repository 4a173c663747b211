// One hop of the string that `why` prints: the least packet to which a transition of the state leads the packet, of those in the set of its target (word BEFORE).
#![tactic(auto)]

ghost use Rattle.std.specs.Prelude.{◌≡◌};
ghost use Rattle.aut_sets.specs.Lent.{diagrams_in, OnlyScratch};
ghost use Rattle.aut_why_least.specs.Clauses.{PostLed};
ghost use Rattle.aut_why_hop.specs.Clauses.{ahead_of, sooner, PreLed, PreHop, PostHop};

use aut_relations::Aut;
use aut_st_edges::Transition;
use aut_states::Config;
use aut_why_words::word;

// by the transition t
fn led(aut: &mut Aut, config: Config, t: Transition, packet: u32) -> Option<u32>
    requires { PreLed config.fields (diagrams_in aut.old) aut.old.states.words.now
        aut.old.scratch.now t.target t.label.0 packet }
    ensures keeps { OnlyScratch aut.old aut.new }
    ensures gives { PostLed config.fields (diagrams_in aut.old) packet
        (ahead_of aut.old.states.words.now t.target) t.label.0 result aut.old.scratch.now
        aut.new.scratch.now }
{
    let ahead = aut_live_words::set_at(aut, t.target, word::BEFORE);
    aut_why_least::led_to(aut, config, packet, ahead, t.label)
}

// than the packet of the best hop so far
fn is_lower(packet: u32, best: Option<(u32, u32)>) -> bool
    ensures { result ≡ sooner packet best }
{
    best.is_none_or(|(low, _)| packet < low)
}

// the packet, and the state that it leads to
pub fn hop(aut: &mut Aut, config: Config, x: u32, packet: u32) -> Option<(u32, u32)>
    requires { PreHop config.fields (diagrams_in aut.old) aut.old.states.words.now
        aut.old.transitions.words.now aut.old.scratch.now x packet }
    ensures keeps { OnlyScratch aut.old aut.new }
    ensures gives { PostHop config.fields (diagrams_in aut.old) aut.old.states.words.now
        aut.old.transitions.words.now x packet result aut.old.scratch.now
        aut.new.scratch.now }
{
    let list = aut_st_source::stored_list(aut, x);
    let mut best = None;
    for i in 0..list.count {
        let t = list.get(aut, i);
        if let Some(p) = led(aut, config, t, packet) {
            if is_lower(p, best) {
                best = Some((p, t.target));
            }
        }
    }
    best
}
