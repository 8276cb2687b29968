//! When a majority was heard of.
ghost use Rattle.std.specs.Prelude.{◌≡◌, ◌≤◌, ℕ, true, IfSome, IsSomeAnd};
ghost use Rattle.raft_timers.specs.Majority.{hears_majority, is_heard_since};

// Whether it was heard of at the moment or behind it.
fn is_heard_since(heard: Option<u64>, moment: u64) -> bool
    ensures { result ≡ is_heard_since moment heard }
{
    match heard {
        Some(at) => moment <= at,
        None => false,
    }
}

// Whether more than half were heard of at the moment or behind it.
fn hears_majority(heard: &[Option<u64>], moment: u64) -> bool
    ensures { result ≡ hears_majority heard.now moment }
{
    let count = heard
        .iter()
        .filter(|at| is_heard_since(**at, moment))
        .count();
    heard.len() / 2 < count
}

/// The latest moment at or after which more than half of the voters were heard of, for the view of
/// a leader; none where no such half was. `heard` tells of each voter when it was heard of last, if
/// it was: of the leader itself that is now.
pub fn majority_heard(heard: &[Option<u64>]) -> Option<u64>
    ensures majority { IfSome result (λ m. hears_majority heard.now m ≡ true) }
    ensures latest { (m : ℕ) → hears_majority heard.now m ≡ true
        → IsSomeAnd result (λ found. m ≤ found) }
{
    let mut latest = None;
    for at in heard {
        latest = later_majority(heard, *at, latest);
    }
    latest
}

// The later one of both moments, of which the first counts where it has a majority.
fn later_majority(heard: &[Option<u64>], at: Option<u64>, latest: Option<u64>) -> Option<u64>
    requires { IfSome latest (λ m. hears_majority heard.now m ≡ true) }
    ensures majority { IfSome result (λ m. hears_majority heard.now m ≡ true) }
    ensures kept { IfSome latest (λ m. IsSomeAnd result (λ found. m ≤ found)) }
    ensures tried { IfSome at (λ m. hears_majority heard.now m ≡ true
        → IsSomeAnd result (λ found. m ≤ found)) }
{
    let Some(moment) = at else {
        return latest;
    };
    if !hears_majority(heard, moment) {
        return latest;
    }
    match latest {
        Some(before) if moment <= before => latest,
        _ => Some(moment),
    }
}
