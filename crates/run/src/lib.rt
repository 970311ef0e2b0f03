// A run of records that the host lends, searched for the lowest label number whose level and set both match (01, Single writes, the
// paragraph after them; 02, Four). A run may have any length and content. It is no part of the state, so no search of it gets 0.
#![tactic(auto)]

ghost use Rattle.std.specs.Prelude.{◌≡◌};
ghost use Rattle.run.specs.Run.{lower_of, settled_of, run_of, records_of};
ghost use Rattle.run.specs.Within.{searched, Shortest};

use numbers::CategorySet;
use refusals::Refusal;

// A record of a run: a label number, a level and a set, of any content.
#[repr(C)]
#[derive(Clone, Copy, Debug, PartialEq, Eq)]
pub struct Record {
    pub label: u64,
    pub level: u64,
    pub set: CategorySet,
}

// The lower of the best label so far, where there is one, and a record's, where the record's level and set both match.
fn lower(best: Option<u64>, entry: Record, level: u64, set: CategorySet) -> Option<u64>
    ensures { result ≡ lower_of level set best entry }
{
    if entry.level != level {
        return best;
    }
    let held = entry.set;
    if !numbers::same_set(held, set) {
        return best;
    }
    match best {
        Some(n) => {
            if entry.label < n {
                Some(entry.label)
            } else {
                Some(n)
            }
        }
        None => Some(entry.label),
    }
}

// How many of a run's records are looked at: all, or none where the level or the set is refused.
fn reach(count: usize, level: u64, set: CategorySet) -> usize
    ensures { result ≡ searched count level set }
{
    if lookups::can_be_sought(level, set) {
        count
    } else {
        0
    }
}

// What a search answers by the best that it found.
fn settled(best: Option<u64>, level: u64, set: CategorySet) -> Result<Option<usize>, Refusal>
    ensures { result ≡ settled_of best level set }
{
    if !lookups::can_be_sought(level, set) {
        return Err(Refusal::BadLevelOrCategory);
    }
    match best {
        Some(n) => Ok(Some(n as usize)),
        None => Ok(None),
    }
}

// The shortest of three lengths.
fn shortest(a: usize, b: usize, c: usize) -> usize
    ensures { Shortest a b c result }
{
    a.min(b).min(c)
}

// The search by plain values: each field of the records stands in a slice of its own, a set as its three words one after another. There are as many
// records as the shortest of the three has room for.
pub fn lowest_of(
    labels: &[u64],
    levels: &[u64],
    sets: &[u64],
    level: u64,
    set: CategorySet,
) -> Result<Option<usize>, Refusal>
    ensures { result ≡ run_of (records_of labels.now levels.now sets.now) level set }
{
    let all = shortest(labels.len(), levels.len(), sets.len() / 3);
    let count = reach(all, level, set);
    let mut best = None;
    for i in 0..count {
        let entry = Record {
            label: labels[i],
            level: levels[i],
            set: CategorySet {
                first: sets[i * 3],
                second: sets[i * 3 + 1],
                third: sets[i * 3 + 2],
            },
        };
        best = lower(best, entry, level, set);
    }
    settled(best, level, set)
}

// The search of a run of records. It reads a record whole, and `lower` compares it by value.
pub fn lowest(run: &[Record], level: u64, set: CategorySet) -> Result<Option<usize>, Refusal>
    ensures { result ≡ run_of run.now level set }
{
    let count = reach(run.len(), level, set);
    let mut best = None;
    for record in &run[..count] {
        best = lower(best, *record, level, set);
    }
    settled(best, level, set)
}
