//! What the calls of a strand keep, and what the tests of this crate are for the definitions, each as the contract of a function that
//! does nothing.
ghost use Rattle.std.specs.Prelude.{◌≡◌, ℤ};
ghost use Rattle.trail_theory.specs.OpenLayers.{IsNumbered};
ghost use Rattle.strand_theory.specs.Ready.{IsReady};
ghost use Rattle.positions.specs.Setting.{Setting};
ghost use Rattle.positions.specs.Strands.{PlainStrand};
ghost use Rattle.positions.specs.Advance.{pause_of};
ghost use Rattle.activations.specs.Waiting.{leaves_none};
ghost use Rattle.right_strands.specs.Staying.{StrandsStayRight};
ghost use Rattle.right_strands.specs.Waiting.{DecidesWaiting};

use positions::phase::{Paused, Phase};

/// Whether two neighbours leave a name waiting is said by numbers as the definitions say it by name, where the left one has ended
/// and the right one waits at its entry's sync.
pub fn waiting_is_the_definitions()
    ensures decided { (setting : Setting) (l r : PlainStrand) (v : ℤ) → l.phase ≡ Phase.Leaving v
        → pause_of setting.codes r ≡ Paused.AtSync
        → DecidesWaiting setting l r (leaves_none l r) }
{}

/// Each call of a strand of `frames` keeps it right, by what its own contract says of it: what is left of it to do is what the serial
/// run has left there, the first strand has all of it, the end answers the elision from scratch, and the new records are sound and hold
/// now.
pub fn strands_stay_right()
    ensures stay { (setting : Setting) → IsReady setting.program setting.tables setting.memory
        → IsNumbered setting.program → StrandsStayRight setting }
{}
