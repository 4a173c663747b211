// Least packets for `why`: the cache that the search takes lies in scratch, behind the lists. A packet is told by its number.
#![tactic(auto)]

ghost use Rattle.std.specs.Prelude.{◌≡◌};
ghost use Rattle.netkat_paths.specs.Order.{least};
ghost use Rattle.sp_steps.specs.Model.{mem};
ghost use Rattle.spp_least.specs.Clauses.{number_of};
ghost use Rattle.aut_sets.specs.Lent.{sets_in, diagrams_in, OnlyScratch};
ghost use Rattle.aut_why_least.specs.Clauses.{PreFirst, PreLed, PostLed, PreEnd, PostEnd, Forgotten};

use aut_relations::Aut;
use aut_scratch::LISTS;
use aut_states::Config;
use sp::SP;
use spp::SPP;

// the least packet of a set
pub fn first_of(aut: &Aut, config: Config, s: SP) -> Option<u32>
    requires { PreFirst config.fields (sets_in aut.now) s.0 }
    ensures { result ≡ number_of (least config.fields (mem aut.now.sp.nodes.now config.fields s.0)) }
{
    spp_least::least(aut.sp.view(), config.fields, s)
}

// the least packet of the set to which the relation leads the packet with that number
pub fn led_to(aut: &mut Aut, config: Config, packet: u32, s: SP, r: SPP) -> Option<u32>
    requires { PreLed config.fields (diagrams_in aut.old) aut.old.scratch.now packet s.0 r.0 }
    ensures keeps { OnlyScratch aut.old aut.new }
    ensures gives { PostLed config.fields (diagrams_in aut.old) packet s.0 r.0 result
        aut.old.scratch.now aut.new.scratch.now }
{
    let sets = aut.sp.view();
    let relations = aut_sets::relations_of(&aut.spp, config.fields);
    spp_least::least_led(
        sets,
        relations,
        &mut aut.scratch[LISTS..],
        config.fields,
        packet,
        s,
        r,
    )
}

// the least packet to which the relation leads the packet with that number
pub fn end_of(aut: &mut Aut, config: Config, packet: u32, r: SPP) -> Option<u32>
    requires { PreEnd config.fields (diagrams_in aut.old) aut.old.scratch.now packet r.0 }
    ensures keeps { OnlyScratch aut.old aut.new }
    ensures gives { PostEnd config.fields (diagrams_in aut.old) packet r.0 result
        aut.old.scratch.now aut.new.scratch.now }
{
    let all = sp::one_at_depth(config.fields);
    led_to(aut, config, packet, all, r)
}

// the cache is emptied
pub fn forget(aut: &mut Aut)
    ensures keeps { OnlyScratch aut.old aut.new }
    ensures gives { Forgotten aut.old.scratch.now aut.new.scratch.now }
{
    if LISTS < aut.scratch.len() {
        aut.scratch[LISTS..].fill(0);
    }
}
