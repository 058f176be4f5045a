// How often a degree stands in a list, and the least one.
ghost use Rattle.std.specs.Prelude.{◌≡◌, ◌<◌, ◌≤◌, ◌⊎◌, cond, nat_eq};
ghost use Rattle.betti_laws.specs.Tables.{occurrences};
ghost use Rattle.minimal_betti.specs.Growing.{IsLeastDegree};

/// What `least_from` answers where there is none.
pub(crate) const NONE: u64 = 4294967296;

// 1 where the two are the same.
fn one_if(a: u32, b: u32) -> u64
    ensures { result ≡ cond (nat_eq a b) 1 0 }
{
    if a == b { 1 } else { 0 }
}

/// How often the degree stands in the list.
pub(crate) fn count_of(degrees: &[u32], degree: u32) -> u64
    ensures { result ≡ occurrences degree degrees.now }
{
    let mut count: u64 = 0;
    for d in degrees {
        count += one_if(degree, *d);
    }
    count
}

// The less of the two, if the second is not below the bound.
fn lower(least: u64, d: u32, from: u64) -> u64
    ensures { ((from ≤ d) × (d < least) × (result ≡ d)) ⊎ (((d < from) ⊎ (least ≤ d)) × (result ≡ least)) }
{
    let d = u64::from(d);
    if from <= d && d < least { d } else { least }
}

/// The least degree of the list from this one on, or `NONE`.
pub(crate) fn least_from(degrees: &[u32], from: u64) -> u64
    ensures { IsLeastDegree from result degrees.now }
{
    let mut least = NONE;
    for d in degrees {
        least = lower(least, *d, from);
    }
    least
}
