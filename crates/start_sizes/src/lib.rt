// What the lent memories must have room for, read from a configuration where it lies: in bytes, or in the
// words of a table. An inner crate: its functions ask what their callers show.
#![tactic(auto)]

ghost use Rattle.std.specs.Prelude.{◌≤◌};
ghost use Rattle.config_view.specs.View.{viewed, InView};
ghost use Rattle.config_pairs.specs.Pairs.{FoundSays};

use config_view::View;

// The first machine that has more regions than so many slots.
pub fn first_crowded(v: &View<'_>, slots: usize) -> Option<usize>
    requires { InView v.now }
    ensures { FoundSays (λ k. (viewed v.now).count k ≤ slots) (viewed v.now).machines result }
{
    let n = v.machines();
    let mut at = v.first();
    for m in 0..n {
        if slots < v.count(m, at) {
            return Some(m);
        }
        at = v.next(m, at);
    }
    None
}
