// The last place of a run is kept as its image, or meets `Refusal::Next` or `Refusal::Output`.
#![tactic(auto)]

ghost use Rattle.std.specs.Prelude.{◌≡◌};
ghost use Rattle.aut_states.specs.Clauses.{Fits};
ghost use Rattle.book_memory.specs.Place.{SameSlices};
ghost use Rattle.image_steps.specs.Calls.{has_next};
ghost use Rattle.image_keep.specs.Clauses as Its;

use aut_states::{STATE, States, kind, word};
use book_finish::Stop;
use book_memory::{Place, Setting};
use image_block::BLOCK;
use refusal::Refusal;

// the most blocks of an image: a block's number has two bytes
pub const BLOCKS: usize = 65536;

// one of the states is of kind 10, which images do not know
fn has_next(states: &States) -> bool
    requires { Fits states.now.words.now states.now.count }
    ensures { has_next states.now.words.now states.now.count ≡ result }
{
    states.words[..STATE * states.count]
        .chunks_exact(STATE)
        .any(|s| s[word::KIND] == kind::NEXT)
}

// The image of a run's last place, if it has not stopped: the image's length. `Refusal::Next` where an image does not know a state's kind, `Refusal::Output` where it has no room.
fn keep(image: &mut [u8], place: &Place, went: Result<Setting, Stop>) -> Result<usize, Stop>
    requires { Its.PreKeep went place.now }
    ensures { Its.PostKeep went place.now result image.old image.new }
{
    let setting = went?;
    let length = place.output.at;
    let stop = |refusal| Stop {
        refusal,
        line: 0,
        length,
    };
    if has_next(&place.aut.states) {
        return Err(stop(Refusal::Next));
    }
    let h = image_save::head_of(setting, place);
    let n = image_words::blocks_of(h);
    if n > BLOCKS || BLOCK * n > image.len() {
        return Err(stop(Refusal::Output));
    }
    image_save::write(image, place, h);
    Ok(BLOCK * n)
}

// The image is written, and the run finished. An answer is the lengths of the output and of the image.
pub fn seal(
    image: &mut [u8],
    place: &mut Place,
    went: Result<Setting, Stop>,
) -> Result<(usize, usize), Stop>
    requires { Its.PreKeep went place.old }
    ensures keeps { SameSlices place.old place.new }
    ensures gives { Its.PostSeal went place.old result place.new image.old image.new }
{
    let kept = keep(image, place, went);
    let ran = book_finish::finish(place, kept.and(went));
    Ok((ran?, kept?))
}
