// Which files are questions. The rules look at an outline of the file.
ghost use Rattle.std.specs.Prelude.{◌≡◌, get_or, map};
ghost use Rattle.paper.specs.Grammar.{kinds, place_in};
ghost use Rattle.paper.specs.Rules as Rules;
ghost use Rattle.paper.specs.Inner.{byte_of};

use crate::kinds::{FILE_ASSETS, FILE_PERIODS, KINDS, KindName, place};

// Of each kind, in the order of the file, how many records there are and the first body, 0 where there is none. No list of pairs: the
// rules look at each list alone.
#[derive(Clone, Copy)]
pub struct Outline {
    pub counts: [u64; KINDS],
    pub firsts: [u64; KINDS],
}

// The number of a kind in a list that has one for each.
fn entry(list: [u64; KINDS], kind: KindName) -> u64
    ensures { result ≡ get_or list (place_in kinds (byte_of kind)) 0 }
{
    list[place(kind)]
}

pub(crate) fn count(o: Outline, kind: KindName) -> u64
    ensures { result ≡ Rules.count o (byte_of kind) }
{
    entry(o.counts, kind)
}

pub(crate) fn has(o: Outline, kind: KindName) -> bool
    ensures { result ≡ Rules.has o (byte_of kind) }
{
    count(o, kind) != 0
}

pub(crate) fn value(o: Outline, kind: KindName) -> u64
    ensures { result ≡ Rules.value o (byte_of kind) }
{
    entry(o.firsts, kind)
}

pub(crate) fn assets(o: Outline) -> u64
    ensures { result ≡ Rules.assets o }
{
    value(o, KindName::Shape) % 65536
}

pub(crate) fn periods(o: Outline) -> u64
    ensures { result ≡ Rules.periods o }
{
    value(o, KindName::Shape) / 65536
}

// How many of the listed kinds come.
fn present(o: Outline, kinds: &[KindName]) -> usize
    ensures { result ≡ Rules.present o (map byte_of kinds.now) }
{
    let mut n = 0;
    for &kind in kinds {
        if has(o, kind) {
            n += 1;
        }
    }
    n
}

#[tactic(auto, unfolding(crate::specs::Rules::shape_fits))]
fn shape_fits(o: Outline) -> bool
    ensures { result ≡ Rules.shape_fits o }
{
    let n = assets(o);
    let t = periods(o);
    if count(o, KindName::Shape) != 1 {
        return false;
    }
    if n > FILE_ASSETS as u64 {
        return false;
    }
    if t > FILE_PERIODS as u64 {
        return false;
    }
    if count(o, KindName::Return) != t * n {
        return false;
    }
    let given = count(o, KindName::GivenEntry);
    given == 0 || given == n * n
}

const SETTINGS: [KindName; 9] = [
    KindName::Regularization,
    KindName::FixedShrinkage,
    KindName::Target,
    KindName::HalfLife,
    KindName::Semi,
    KindName::SemiThreshold,
    KindName::GivenEntry,
    KindName::SweepLimit,
    KindName::DecayFactor,
];

const SHRINKAGES: [KindName; 2] = [KindName::FixedShrinkage, KindName::Target];

const ESTIMATES: [KindName; 5] = [
    KindName::HalfLife,
    KindName::Semi,
    KindName::SemiThreshold,
    KindName::GivenEntry,
    KindName::DecayFactor,
];

const LIMIT: [KindName; 1] = [KindName::SweepLimit];

#[tactic(auto, unfolding(crate::specs::Rules::settings_fit))]
fn settings_fit(o: Outline) -> bool
    ensures { result ≡ Rules.settings_fit o }
{
    present(o, &SHRINKAGES) <= 1 && present(o, &ESTIMATES) <= 1 && value(o, KindName::Target) <= 1
}

#[tactic(auto, unfolding(crate::specs::Rules::has_decay))]
pub(crate) fn has_decay(o: Outline) -> bool
    ensures { result ≡ Rules.has_decay o }
{
    has(o, KindName::HalfLife) || has(o, KindName::DecayFactor)
}

// Whether the settings are those that question q takes.
#[tactic(auto, unfolding(crate::specs::Rules::takes))]
fn takes(q: u64, o: Outline) -> bool
    ensures { result ≡ Rules.takes q o }
{
    match q {
        0 => !has(o, KindName::SweepLimit) || has(o, KindName::GivenEntry),
        1 => has_decay(o) && present(o, &SETTINGS) == 1,
        2 | 3 => present(o, &SETTINGS) == present(o, &LIMIT),
        _ => false,
    }
}

#[tactic(auto, unfolding(crate::specs::Rules::well_formed))]
pub fn well_formed(o: Outline) -> bool
    ensures { result ≡ Rules.well_formed o }
{
    shape_fits(o)
        && settings_fit(o)
        && count(o, KindName::Question) == 1
        && takes(value(o, KindName::Question), o)
}
