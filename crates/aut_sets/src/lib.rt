// Packet sets and images for the queries: the cache that the operations take lies in scratch, behind the lists.
#![tactic(auto)]

ghost use Rattle.std.specs.Prelude.{◌≡◌, IfErr};
ghost use Rattle.sp_steps.specs.Model as Sp;
ghost use Rattle.sp_steps.specs.Reuse.{SpNoted};
ghost use Rattle.spp_steps.specs.ImageModel as Images;
ghost use Rattle.cache.specs.Cache.{OnlyCodes};
ghost use Rattle.spp_image.specs.Reuse.{Written, Kept};
ghost use Rattle.refusal.specs.declared.Refusal.TheVariants as refusals;
ghost use Rattle.aut_relations.specs.Lent.{nodes_in, KeepsExprs};
ghost use Rattle.aut_sets.specs.Lent.{sets_in, diagrams_in, OnlyScratch, OnlySets};
ghost use Rattle.aut_sets.specs.Clauses.{Gives, PreSets, PreSet, PreImage, PreLead, PostHas, PreLift, PostSize, PreCount, PostCount};

use aut_relations::Aut;
use aut_scratch::LISTS;
use aut_states::Config;
use refusal::Refusal;
use sp::SP;
use spp::{SPP, SPPstore, SPPview};

// the relation nodes, to be read, for so many fields
pub fn relations_of<'a>(spp: &'a SPPstore, fields: u32) -> SPPview<'a>
    ensures { (result.nodes.now ≡ spp.now.nodes.now) × (result.count ≡ spp.now.count) × (result.fields ≡ fields) }
{
    SPPview {
        fields,
        ..spp.view()
    }
}

pub fn difference(aut: &mut Aut, config: Config, a: SP, b: SP) -> Result<SP, Refusal>
    requires { PreSets config.fields (sets_in aut.old) aut.old.scratch.now a.0 b.0 }
    ensures keeps { OnlySets aut.old aut.new }
    ensures only { IfErr result (λ e. e ≡ refusals.Sp) }
    ensures gives { Gives SpNoted (λ h. h.0) (Sp.difference config.fields a.0 b.0) (sets_in aut.old)
        result (sets_in aut.new) aut.old.scratch.now aut.new.scratch.now }
{
    Ok(
        aut.sp
            .difference(&mut aut.scratch[LISTS..], config.fields, a, b)?,
    )
}

pub fn union(aut: &mut Aut, config: Config, a: SP, b: SP) -> Result<SP, Refusal>
    requires { PreSets config.fields (sets_in aut.old) aut.old.scratch.now a.0 b.0 }
    ensures keeps { OnlySets aut.old aut.new }
    ensures only { IfErr result (λ e. e ≡ refusals.Sp) }
    ensures gives { Gives SpNoted (λ h. h.0) (Sp.union config.fields a.0 b.0) (sets_in aut.old)
        result (sets_in aut.new) aut.old.scratch.now aut.new.scratch.now }
{
    Ok(
        aut.sp
            .union(&mut aut.scratch[LISTS..], config.fields, a, b)?,
    )
}

// the packets that a relation leads to from a packet of the set
pub fn push(aut: &mut Aut, config: Config, s: SP, r: SPP) -> Result<SP, Refusal>
    requires { PreLead config.fields (diagrams_in aut.old) aut.old.scratch.now s.0 r.0 }
    ensures keeps { OnlySets aut.old aut.new }
    ensures only { IfErr result (λ e. e ≡ refusals.Sp) }
    ensures gives { Gives (Written config.fields) (λ h. h.0)
        (Images.push config.fields config.fields s.0 r.0) (diagrams_in aut.old) result
        (diagrams_in aut.new) aut.old.scratch.now aut.new.scratch.now }
{
    let relations = relations_of(&aut.spp, config.fields);
    Ok(spp_image::push(
        &mut aut.sp,
        relations,
        &mut aut.scratch[LISTS..],
        config.fields,
        s,
        r,
    )?)
}

// the packets that a relation leads to a packet of the set
pub fn pull(aut: &mut Aut, config: Config, r: SPP, s: SP) -> Result<SP, Refusal>
    requires { PreLead config.fields (diagrams_in aut.old) aut.old.scratch.now s.0 r.0 }
    ensures keeps { OnlySets aut.old aut.new }
    ensures only { IfErr result (λ e. e ≡ refusals.Sp) }
    ensures gives { Gives (Written config.fields) (λ h. h.0)
        (Images.pull config.fields config.fields r.0 s.0) (diagrams_in aut.old) result
        (diagrams_in aut.new) aut.old.scratch.now aut.new.scratch.now }
{
    let relations = relations_of(&aut.spp, config.fields);
    Ok(spp_image::pull(
        &mut aut.sp,
        relations,
        &mut aut.scratch[LISTS..],
        config.fields,
        r,
        s,
    )?)
}

// the packets that a relation leads on
pub fn bwd(aut: &mut Aut, config: Config, r: SPP) -> Result<SP, Refusal>
    requires { PreImage config.fields (diagrams_in aut.old) aut.old.scratch.now r.0 }
    ensures keeps { OnlySets aut.old aut.new }
    ensures only { IfErr result (λ e. e ≡ refusals.Sp) }
    ensures gives { Gives (Written config.fields) (λ h. h.0) (Images.bwd config.fields r.0)
        (diagrams_in aut.old) result (diagrams_in aut.new) aut.old.scratch.now
        aut.new.scratch.now }
{
    let relations = relations_of(&aut.spp, config.fields);
    Ok(spp_image::bwd(
        &mut aut.sp,
        relations,
        &mut aut.scratch[LISTS..],
        config.fields,
        r,
    )?)
}

// whether some packet of the set is related to some packet
pub fn has_image(aut: &mut Aut, config: Config, s: SP, r: SPP) -> bool
    requires { PreLead config.fields (diagrams_in aut.old) aut.old.scratch.now s.0 r.0 }
    ensures keeps { OnlyScratch aut.old aut.new }
    ensures has { PostHas config.fields (diagrams_in aut.old) s.0 r.0 result aut.old.scratch.now
        aut.new.scratch.now }
{
    let sets = aut.sp.view();
    let relations = relations_of(&aut.spp, config.fields);
    spp_query::has_image(
        sets,
        relations,
        &mut aut.scratch[LISTS..],
        config.fields,
        s,
        r,
    )
}

// the pairs whose second packet is in the set
pub fn ifwd(aut: &mut Aut, config: Config, s: SP) -> Result<SPP, Refusal>
    requires { (aut.old.spp.fields ≡ config.fields) ×
        PreLift config.fields (diagrams_in aut.old) aut.old.scratch.now s.0 }
    ensures keeps { KeepsExprs aut.old aut.new }
    ensures only { IfErr result (λ e. e ≡ refusals.Spp) }
    ensures gives { Gives (λ σ. OnlyCodes 10 15 (Kept config.fields σ)) (λ h. h.0)
        (Images.ifwd config.fields s.0) (diagrams_in aut.old) result (diagrams_in aut.new)
        aut.old.scratch.now aut.new.scratch.now }
{
    let sets = aut.sp.view();
    Ok(spp_query::ifwd(
        &mut aut.spp,
        sets,
        &mut aut.scratch[LISTS..],
        config.fields,
        s,
    )?)
}

// the number of packets in a set
pub fn size(aut: &mut Aut, config: Config, s: SP) -> u64
    requires { PreSet config.fields (sets_in aut.old) aut.old.scratch.now s.0 }
    ensures keeps { OnlyScratch aut.old aut.new }
    ensures size { PostSize config.fields (sets_in aut.old) s.0 result aut.old.scratch.now
        aut.new.scratch.now }
{
    let sets = aut.sp.view();
    sets.size(&mut aut.scratch[LISTS..], config.fields, s)
}

// the number of packet pairs in a relation
pub fn pairs(aut: &mut Aut, config: Config, r: SPP) -> u64
    requires { PreCount config.fields (nodes_in aut.old) aut.old.scratch.now r.0 }
    ensures keeps { OnlyScratch aut.old aut.new }
    ensures pairs { PostCount config.fields (nodes_in aut.old) r.0 result aut.old.scratch.now
        aut.new.scratch.now }
{
    let relations = relations_of(&aut.spp, config.fields);
    spp_query::size(relations, &mut aut.scratch[LISTS..], config.fields, r)
}
