// Before the instructions of a book: what is lent is zeroed, the limits are set, and the constants are made.
#![tactic(auto)]

ghost use Rattle.std.specs.Prelude.{◌≡◌, length};
ghost use Rattle.book_memory.specs.Place.{SameSlices, Empty, lengths_of};
ghost use Rattle.book_begin.specs.Clauses as Its;

use aut_states::{Config, Limits};
use book_memory::{Place, Setting};
use refusal::Refusal;

// everything that stands before the instructions
#[derive(Clone, Copy)]
pub struct Header {
    pub fields: u32,
    pub budget: u64,
}

// ---- zeroing

// the tables have no records
pub fn clear_tables(place: &mut Place)
    ensures keeps { Its.OnlyTables place.old place.new }
    ensures lengths { lengths_of place.new ≡ lengths_of place.old }
    ensures zeroed { Its.TablesZeroed place.new }
{
    place.aut.sp.nodes.fill(0);
    place.aut.sp.count = 0;
    place.aut.spp.nodes.fill(0);
    place.aut.spp.count = 0;
    place.aut.states.words.fill(0);
    place.aut.states.count = 0;
    place.aut.members.words.fill(0);
    place.aut.members.count = 0;
    place.aut.transitions.words.fill(0);
    place.aut.transitions.count = 0;
}

// no entries, no lines, nothing in scratch
pub fn clear_work(place: &mut Place)
    ensures keeps { Its.KeepsTables place.old place.new }
    ensures lengths { lengths_of place.new ≡ lengths_of place.old }
    ensures zeroed { Its.WorkZeroed place.new }
{
    place.aut.pending.fill(0);
    place.lines.words.fill(0);
    place.lines.count = 0;
    place.aut.scratch.fill(0);
}

// as a book finds it, whatever was there
pub fn clear(place: &mut Place)
    ensures keeps { SameSlices place.old place.new }
    ensures lengths { lengths_of place.new ≡ lengths_of place.old }
    ensures table { length place.new.lines.words.now ≡ length place.old.lines.words.now }
    ensures output { place.new.output.bytes ≡ place.old.output.bytes }
    ensures empty { Empty place.new }
{
    clear_tables(place);
    clear_work(place);
    place.output.at = 0;
}

// ---- before the instructions

// 01's limits
impl From<Header> for Setting {
    ghost from_gives = { λ h s. s ≡ Its.setting_for h };

    fn from(h: Header) -> Setting {
        Setting {
            config: Config {
                fields: h.fields,
                limits: Limits {
                    nesting: 256,
                    list: 64,
                    products: 32,
                    transitions: 64,
                },
            },
            budget: h.budget,
        }
    }
}

// the fields are set, and the constants made in zeroed tables of nodes
pub fn constants(place: &mut Place, fields: u32) -> Result<(), Refusal>
    requires { Its.PreConstants fields place.old }
    ensures keeps { Its.OnlyNodes fields place.old place.new }
    ensures gives { Its.PostConstants fields result place.new }
{
    place.aut.spp.fields = fields;
    place.aut.sp.start(fields)?;
    place.aut.spp.start()?;
    Ok(())
}

// .. and the line `fields N`
pub fn begin(place: &mut Place, h: Header) -> Result<(), Refusal>
    requires { Its.PreBegin h place.old }
    ensures keeps { SameSlices place.old place.new }
    ensures only { Its.OnlyBegun h.fields place.old place.new }
    ensures gives { Its.PostBegin h place.old result place.new }
{
    constants(place, h.fields)?;
    place.output.fields_answer(h.fields)
}
