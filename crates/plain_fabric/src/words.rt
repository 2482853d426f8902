//! Steps made on the words of a fabric, one after another.
ghost use Rattle.std.specs.Prelude.{◌≡◌, ◌≤◌, length};
ghost use Rattle.fabric_words.specs.Makes.{IsPlaced};
ghost use Rattle.fabric_words.specs.Offsets.{width_of, word_in};
ghost use Rattle.fabric_words.specs.Shown.{Shows};
ghost use Rattle.plain_fabric.specs.Stepping.{AllPlaced, IsShown, MakesAll, TailIsOn};
ghost use Rattle.unit_model.specs.Effects.{after_step};
ghost use Rattle.unit_model.specs.Running.{Enabled};
ghost use Rattle.unit_model.specs.declared.machine.Core.{Core};

use fabric_words::{Layout, Place, Side};
use unit_model::Step;

// A push leaves the tail of its ring where it was. So before an entry is put at a place the tail is
// moved on to that place.
fn move_tail(layout: &Layout, words: &mut [u64], step: &Step)
    requires { (IsPlaced layout.now.shape step.now)
        × (width_of layout.now.shape ≤ length words.old) }
    ensures shows { (core : Core) → IsShown layout.now.shape words.old core
        → Enabled core step.now → IsShown layout.now.shape words.new core }
    ensures on { TailIsOn (word_in layout.now.shape words.new) step.now }
    ensures long { length words.new ≡ length words.old }
{
    match *step {
        Step::Push { queue, place, .. } => {
            let side = Side::LineSide;
            layout.set_word(words, Place::Tail { queue, side }, place);
        }
        Step::GiveItem { queue, place, .. } => {
            let side = Side::FreeSide;
            layout.set_word(words, Place::Tail { queue, side }, place);
        }
        _ => {}
    }
}

// Makes a step.
fn make(layout: &Layout, words: &mut [u64], step: &Step)
    requires { (IsPlaced layout.now.shape step.now)
        × (width_of layout.now.shape ≤ length words.old) }
    ensures shows { (core : Core) → IsShown layout.now.shape words.old core
        → Enabled core step.now → IsShown layout.now.shape words.new (after_step core step.now) }
    ensures long { length words.new ≡ length words.old }
{
    move_tail(layout, words, step);
    layout.make(words, step);
}

/// Makes steps, one after another.
pub(crate) fn make_all(layout: &Layout, words: &mut [u64], steps: &[Step])
    requires { (AllPlaced layout.now.shape steps.now)
        × (width_of layout.now.shape ≤ length words.old) }
    ensures made { MakesAll layout.now.shape words.old words.new steps.now }
    ensures long { length words.new ≡ length words.old }
{
    for step in steps {
        make(layout, words, step);
    }
}
