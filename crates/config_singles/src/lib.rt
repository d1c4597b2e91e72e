// What is looked at machine by machine and region by region: the numbers, and the rules on one region.
#![tactic(auto)]

ghost use Rattle.std.specs.Prelude.{◌≡◌, ℕ, ◌<◌};
ghost use Rattle.config_model.specs.Rules.{Differ};
ghost use Rattle.config_view.specs.View.{viewed, place, InView};
ghost use Rattle.config_pairs.specs.Pairs.{FoundSays, SpotSays};
ghost use Rattle.config_singles.specs.Singles.{RefusedInSays, RefusedSays};

use address::Region;
use config_view::View;

// The first machine behind machine m that has its number.
fn same_after(v: &View<'_>, m: usize, at: usize) -> Option<usize>
    requires in_view { InView v.now }
    requires m_bound { (m < (viewed v.now).machines) × (at ≡ place v.now m) }
    ensures { FoundSays (Differ (viewed v.now) m) (viewed v.now).machines result }
{
    let n = v.machines();
    let x = v.number(m, at);
    let mut to = v.next(m, at);
    for m2 in m + 1..n {
        if v.number(m2, to) == x {
            return Some(m2);
        }
        to = v.next(m2, to);
    }
    None
}

// The first two machines that have one number.
pub fn numbers(v: &View<'_>) -> Option<(usize, usize)>
    requires { InView v.now }
    ensures { SpotSays (Differ (viewed v.now)) (λ m. (viewed v.now).machines) (viewed v.now).machines result }
{
    let n = v.machines();
    let mut at = v.first();
    for m in 0..n {
        if let Some(m2) = same_after(v, m, at) {
            return Some((m, m2));
        }
        at = v.next(m, at);
    }
    None
}

// The first region of machine m that a test refuses, and why.
fn refused_in<E: Drop, F: Fn(Region) -> Result<(), E>>(
    v: &View<'_>,
    test: &F,
    m: usize,
    at: usize,
) -> Option<(usize, E)>
    requires in_view { InView v.now }
    requires callable { F.IsAlwaysCallable test.now }
    requires m_bound { (m < (viewed v.now).machines) × (at ≡ place v.now m) }
    ensures { RefusedInSays (F.post test.now) (viewed v.now) m result }
{
    let n = v.count(m, at);
    for i in 0..n {
        if let Err(e) = test(v.region(m, at, i)) {
            return Some((i, e));
        }
    }
    None
}

// The first region of all that a test refuses, by its machine and its place there, and why.
pub fn refused_of<E: Drop, F: Fn(Region) -> Result<(), E>>(
    v: &View<'_>,
    test: &F,
) -> Option<(usize, usize, E)>
    requires in_view { InView v.now }
    requires callable { F.IsAlwaysCallable test.now }
    ensures { RefusedSays (F.post test.now) (viewed v.now) result }
{
    let n = v.machines();
    let mut at = v.first();
    for m in 0..n {
        if let Some((i, e)) = refused_in(v, test, m, at) {
            return Some((m, i, e));
        }
        at = v.next(m, at);
    }
    None
}
