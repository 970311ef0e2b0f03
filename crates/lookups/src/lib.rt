// Mappings looked up, by label and by level and set (01, Single writes, the paragraph after them; 02, Four). Nothing is changed.
#![tactic(auto)]

ghost use Rattle.std.specs.Prelude.{◌≡◌, ◌<◌, get_or};
ghost use Rattle.store.specs.Layout.{table_of};
ghost use Rattle.store.specs.LentWithin.{lent, tested};
ghost use Rattle.lookups.specs.Lookups.{sought, by_label_of, by_level_of, has_both};

use numbers::CategorySet;
use refusals::Refusal;
use store::{Lent, Tables};

// What a label is mapped to: a level, a set, and how many categories are in that.
#[derive(Clone, Copy, Debug, PartialEq, Eq)]
pub struct Cipso {
    pub level: u8,
    pub set: CategorySet,
    pub count: u32,
}

// What a label is mapped to, or nothing where it has no mapping.
pub fn by_label(state: Lent, label: &[u8]) -> Result<Option<Cipso>, Refusal>
    ensures { result ≡ by_label_of (lent state.entry) label.now }
{
    damage::check(state)?;
    alphabet::check_label(label)?;
    let stored = state.words[store::LABEL_COUNT] as usize;
    let mappings = state.words[store::MAPPING_COUNT] as usize;
    let Some(n) = places::find_label(state.labels, stored, label) else {
        return Ok(None);
    };
    let Some(k) = places::find_mapping(state.entries, mappings, n) else {
        return Ok(None);
    };
    let level = state.entries[store::LEVELS_FROM + k];
    let set = store::set_at(state.words, k);
    let count = numbers::category_count(set);
    Ok(Some(Cipso { level, set, count }))
}

// Whether label n has this level and this set: by the first mapping that names it, and only if n is the first number of its label. Who
// calls it has tested the store.
fn has_both(tables: Tables, n: usize, level: u64, set: CategorySet) -> bool
    requires { n < get_or tables.words.now 0 0 }
    ensures { result ≡ has_both (table_of (tested tables.entry)) level set n }
{
    let stored = tables.words[store::LABEL_COUNT] as usize;
    let mappings = tables.words[store::MAPPING_COUNT] as usize;
    let Some(k) = places::find_mapping(tables.entries, mappings, n) else {
        return false;
    };
    if tables.entries[store::LEVELS_FROM + k] as u64 != level {
        return false;
    }
    let held = store::set_at(tables.words, k);
    if !numbers::same_set(held, set) {
        return false;
    }
    let own = places::label_at(tables.labels, n);
    let Some(i) = places::find_label(tables.labels, stored, own) else {
        return false;
    };
    i == n
}

// Whether a level and a set can be looked up: the level is 0 to 255, and the set has no bit that is no category.
#[tactic(auto, using(crate::proofs::Laws::over_level))]
pub fn can_be_sought(level: u64, set: CategorySet) -> bool
    ensures { result ≡ sought level set }
{
    if numbers::LEVEL_LIMIT < level {
        return false;
    }
    numbers::known_set(set)
}

// The number of the lowest-numbered label whose level and set are these, or nothing where there is none.
pub fn by_level(state: Lent, level: u64, set: CategorySet) -> Result<Option<usize>, Refusal>
    ensures { result ≡ by_level_of (lent state.entry) level set }
{
    let tables = damage::tested(state)?;
    if !can_be_sought(level, set) {
        return Err(Refusal::BadLevelOrCategory);
    }
    let stored = tables.words[store::LABEL_COUNT] as usize;
    for n in 0..stored {
        if has_both(tables, n, level, set) {
            return Ok(Some(n));
        }
    }
    Ok(None)
}
