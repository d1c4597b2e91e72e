// The rules on two regions: which two may not stand in one configuration, and the first such two.
#![tactic(auto)]

ghost use Rattle.std.specs.Prelude.{◌≡◌, ℕ, ◌+◌, ◌≤◌, ◌<◌, length};
ghost use Rattle.base.specs.Says.{Says};
ghost use Rattle.address.specs.declared.Kind.{Kind};
ghost use Rattle.config_model.specs.Rules.{Alone, Together, Clear};
ghost use Rattle.config_view.specs.View.{viewed, place, InView};
ghost use Rattle.config_pairs.specs.Pairs.{Holds, Small, SparesSays, ApartSays, FoundSays, SpotSays, HitSays, ClashSays};

use address::{Kind, Region};
use config_view::View;

// A rule on two regions. No closure, since a rule is three functions (`fine`, `spares`, `apart`), and what
// `config::check` promises of a refusal names the rule.
#[derive(Clone, Copy, Debug, PartialEq, Eq)]
pub enum Rule {
    // An ordinary or device region shares no host page with another region.
    Alone,
    // A shared region shares host pages only with what it may.
    Together,
    // Two regions of one machine share no guest page.
    Clear,
}

// Whether a region is shared.
fn is_shared(r: Region) -> bool
    ensures { Says result (r.kind ≡ Kind.Shared) }
{
    matches!(r.kind, Kind::Shared)
}

// Whether a, where it is not shared, and b have no host page in common, unless they are one.
fn alone(m: usize, i: usize, a: Region, m2: usize, i2: usize, b: Region) -> bool
    ensures { Says result (Alone m i a m2 i2 b) }
{
    // The overlap first: nearly all pairs have none.
    !address::overlaps_pmem(a, b) || (m == m2 && i == i2) || is_shared(a)
}

// Whether two shared regions, of which a stands before b, may share what they share.
fn together(m: usize, i: usize, a: Region, m2: usize, i2: usize, b: Region) -> bool
    requires { Small m i × Small m2 i2 }
    ensures { Says result (Together m i a m2 i2 b) }
{
    !is_shared(a)
        || !is_shared(b)
        || 32 * m2 + i2 <= 32 * m + i
        || !address::overlaps_pmem(a, b)
        || (m != m2 && a.host == b.host && a.pages == b.pages)
}

// Whether two regions of one machine, of which a stands before b, have no guest page in common.
fn clear(m: usize, i: usize, a: Region, m2: usize, i2: usize, b: Region) -> bool
    ensures { Says result (Clear m i a m2 i2 b) }
{
    m != m2 || i2 <= i || !address::overlaps_vmem(a, b)
}

// Whether a rule holds of a, region i of machine m, and b, region i2 of machine m2.
fn fine(rule: Rule, m: usize, i: usize, a: Region, m2: usize, i2: usize, b: Region) -> bool
    requires { Small m i × Small m2 i2 }
    ensures { Says result (Holds rule m i a m2 i2 b) }
{
    match rule {
        Rule::Alone => alone(m, i, a, m2, i2, b),
        Rule::Together => together(m, i, a, m2, i2, b),
        Rule::Clear => clear(m, i, a, m2, i2, b),
    }
}

// Whether a rule holds of a and every region, so that nothing has to be looked at.
fn spares(rule: Rule, a: Region) -> bool
    ensures { SparesSays rule a result }
{
    match rule {
        Rule::Alone => is_shared(a),
        Rule::Together => !is_shared(a),
        Rule::Clear => false,
    }
}

// Whether a rule holds of every region of machine m and every region of machine m2.
fn apart(rule: Rule, m: usize, m2: usize) -> bool
    ensures { ApartSays rule m m2 result }
{
    match rule {
        Rule::Alone => false,
        Rule::Together => m2 < m,
        Rule::Clear => m2 != m,
    }
}

// The first region of machine m2 of which the rule does not hold with a, region i of machine m.
fn find_in(
    v: &View<'_>,
    rule: Rule,
    m: usize,
    i: usize,
    a: Region,
    m2: usize,
    at: usize,
) -> Option<usize>
    requires in_view { InView v.now }
    requires m2_bound { (m2 < (viewed v.now).machines) × (at ≡ place v.now m2) }
    requires small { Small m i }
    ensures { FoundSays (λ i2. Holds rule m i a m2 i2 ((viewed v.now).region m2 i2)) ((viewed v.now).count m2) result }
{
    if apart(rule, m, m2) {
        return None;
    }
    let n = v.count(m2, at);
    for i2 in 0..n {
        if !fine(rule, m, i, a, m2, i2, v.region(m2, at, i2)) {
            return Some(i2);
        }
    }
    None
}

// The first region of all of which the rule does not hold with a, region i of machine m, by its machine and
// its place there.
fn find(v: &View<'_>, rule: Rule, m: usize, i: usize, a: Region) -> Option<(usize, usize)>
    requires in_view { InView v.now }
    requires small { Small m i }
    ensures { SpotSays (λ m2 i2. Holds rule m i a m2 i2 ((viewed v.now).region m2 i2)) (viewed v.now).count (viewed v.now).machines result }
{
    if spares(rule, a) {
        return None;
    }
    let n = v.machines();
    let mut at = v.first();
    for m2 in 0..n {
        if let Some(i2) = find_in(v, rule, m, i, a, m2, at) {
            return Some((m2, i2));
        }
        at = v.next(m2, at);
    }
    None
}

// The first region of machine m with which some region may not stand, and the first such.
fn clash_in(v: &View<'_>, rule: Rule, m: usize, at: usize) -> Option<(usize, usize, usize)>
    requires in_view { InView v.now }
    requires m_bound { (m < (viewed v.now).machines) × (at ≡ place v.now m) }
    ensures { HitSays rule (viewed v.now) m result }
{
    let n = v.count(m, at);
    for i in 0..n {
        if let Some((m2, i2)) = find(v, rule, m, i, v.region(m, at, i)) {
            return Some((i, m2, i2));
        }
    }
    None
}

// The first region of all with which some region may not stand, and the first such, each by its machine and
// its place there.
pub fn clash_of(v: &View<'_>, rule: Rule) -> Option<(usize, usize, usize, usize)>
    requires { InView v.now }
    ensures { ClashSays rule (viewed v.now) result }
{
    let n = v.machines();
    let mut at = v.first();
    for m in 0..n {
        if let Some((i, m2, i2)) = clash_in(v, rule, m, at) {
            return Some((m, i, m2, i2));
        }
        at = v.next(m, at);
    }
    None
}
