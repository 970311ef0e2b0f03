// The damage test (01: refusal 0): every call makes it first, of the whole lent state.
#![tactic(auto)]

ghost use Rattle.std.specs.Prelude.{◌≡◌, true, false, IfOk, IfErr, ℕ, ◌+◌, ◌<◌, ◌≤◌, length, get_or, take, []};
ghost use Rattle.refusals.specs.Refusals.{damaged};
ghost use Rattle.search.specs.Search.{all, entries as listed};
ghost use Rattle.modes.specs.Modes.{known_modes};
ghost use Rattle.numbers.specs.Categories.{known_third};
ghost use Rattle.store.specs.Table.{sound_rule, sound_table, rule_limit, mapping_limit, onlycap_limit};
ghost use Rattle.store.specs.Layout.{store, modes_from, onlycap_from, thirds_from, rule_at, table_of, undamaged_of};
ghost use Rattle.store.specs.Within.{Counts};
ghost use Rattle.store.specs.LentWithin.{lent, tested};
ghost use Rattle.damage.specs.Undamaged.{WhatUndamagedIs};
ghost use Rattle.damage.specs.Within.{Bounded};

use refusals::Refusal;
use store::{Lent, Tables};

// Where the sets' third words and the onlycap list end.
const THIRDS_TO: usize = store::THIRDS_FROM + store::MAPPING_LIMIT;

const ONLYCAP_TO: usize = store::ONLYCAP_FROM + store::ONLYCAP_LIMIT;

// Whether none of the first `count` words of a run, the third words of sets, has a bit that is no category. It reads all of them, so that the compiler
// can take many at a time. Who calls it has made sure that the run has that many.
fn all_known(run: &[u64], count: usize) -> bool
    requires { count ≤ length run.now }
    ensures { result ≡ all known_third (take count run.now) }
{
    let mut ok = true;
    for word in &run[..count] {
        ok &= *word % numbers::LOWEST_CATEGORY_BIT == 0;
    }
    ok
}

// Whether the first `count` numbers of a run, the modes of rules, may all be stored. It reads all of them, so that the compiler can take many at a time.
// Who calls it has made sure that the run has that many.
fn all_modes_known(run: &[u8], count: usize) -> bool
    requires { count ≤ length run.now }
    ensures { result ≡ all known_modes (take count run.now) }
{
    let mut ok = true;
    for &modes in &run[..count] {
        ok &= modes & modes::RULE_LETTERS == modes;
    }
    ok
}

// What no rule of a run exceeds: the largest number of a label, and the modes of all of them joined.
#[derive(Clone, Copy, Debug, PartialEq, Eq)]
struct Bounds {
    label: u8,
    modes: u8,
}

// What no rule of the first `count` exceeds. It reads all of them, so that the compiler can take many at a time. Its contract says no more than that no
// rule exceeds it, which is all that is needed where the number is small enough and the modes may be stored. Who calls it has tested the sizes.
fn largest(entries: &[u8], count: usize) -> Bounds
    requires { (modes_from + rule_limit ≤ length entries.now) × (count ≤ rule_limit) }
    ensures { (k : ℕ) → k < count → Bounded entries.now k result.label result.modes }
{
    let mut label = 0;
    let mut modes = 0;
    for i in 0..count {
        label = entries[i].max(entries[store::OBJECTS_FROM + i]).max(label);
        modes |= entries[store::MODES_FROM + i];
    }
    Bounds { label, modes }
}

// Whether each stored rule names stored labels and has known modes. What no place of whole blocks of 32 exceeds decides most calls; these may be places
// that hold no rule, and where a number is too large or a bit unknown the rules alone are read. Who calls it has tested the sizes.
fn rules_sound(entries: &[u8], rules: usize, labels: u8) -> bool
    requires { (modes_from + rule_limit ≤ length entries.now) × (rules ≤ rule_limit) }
    ensures { result ≡ all (sound_rule labels) (listed (rule_at entries.now) rules) }
{
    let most = largest(entries, (rules + 31) / 32 * 32);
    if (most.label < labels) & (most.modes & modes::RULE_LETTERS == most.modes) {
        return true;
    }
    let subjects = search::all_below(&entries[0..store::OBJECTS_FROM], rules, labels);
    let objects = search::all_below(
        &entries[store::OBJECTS_FROM..store::MODES_FROM],
        rules,
        labels,
    );
    let modes = all_modes_known(&entries[store::MODES_FROM..store::MAPPED_FROM], rules);
    subjects & objects & modes
}

// Whether each stored number names a stored label, and each stored mode and category bit is known. `undamaged` has tested the sizes and
// the counts.
fn sound(entries: &[u8], words: &[u64]) -> bool
    requires { (onlycap_from + onlycap_limit ≤ length entries.now) × (thirds_from + mapping_limit ≤ length words.now) × Counts words.now }
    ensures { result ≡ sound_table (get_or words.now 0 0) (table_of (store [] entries.now words.now)) }
{
    let labels = words[store::LABEL_COUNT] as u8;
    let mappings = words[store::MAPPING_COUNT] as usize;
    let onlycap = words[store::ONLYCAP_COUNT] as usize;
    let rules = rules_sound(entries, words[store::RULE_COUNT] as usize, labels);
    let mapped = search::all_below(
        &entries[store::MAPPED_FROM..store::LEVELS_FROM],
        mappings,
        labels,
    );
    let sets = all_known(&words[store::THIRDS_FROM..THIRDS_TO], mappings);
    let listed = search::all_below(&entries[store::ONLYCAP_FROM..ONLYCAP_TO], onlycap, labels);
    rules & (mapped & sets) & listed
}

// The claim that a state passes the definition's damage test, and so, by the contract below, the code's, exactly where it is as 01 and 02 say of refusal 0.
pub fn what_undamaged_is()
    ensures { WhatUndamagedIs }
{}

// The test of the three slices, one by one: so each goes in registers, and every call of the library makes the test by a call of this one. The whole
// state in a struct would go through memory.
#[inline(never)]
fn slices_undamaged(labels: &[u8], entries: &[u8], words: &[u64]) -> bool
    ensures { result ≡ undamaged_of (store labels.now entries.now words.now) }
{
    if labels.len() != store::LABELS_SIZE {
        return false;
    }
    if entries.len() != store::ENTRIES_SIZE {
        return false;
    }
    if words.len() != store::WORDS_SIZE {
        return false;
    }
    if (store::LABEL_LIMIT as u64) < words[store::LABEL_COUNT] {
        return false;
    }
    if (store::RULE_LIMIT as u64) < words[store::RULE_COUNT] {
        return false;
    }
    if (store::MAPPING_LIMIT as u64) < words[store::MAPPING_COUNT] {
        return false;
    }
    if (store::ONLYCAP_LIMIT as u64) < words[store::ONLYCAP_COUNT] {
        return false;
    }
    sound(entries, words)
}

// Whether the lent state is undamaged: refusal 0 otherwise.
pub fn undamaged(state: Lent) -> bool
    ensures { result ≡ undamaged_of (lent state.entry) }
{
    slices_undamaged(state.labels, state.entries, state.words)
}

// That the lent state is undamaged, or refusal 0.
pub fn check(state: Lent) -> Result<(), Refusal>
    ensures ok { IfOk result (λ _. undamaged_of (lent state.entry) ≡ true) }
    ensures err { IfErr result (λ why. (why ≡ damaged) × (undamaged_of (lent state.entry) ≡ false)) }
{
    if !undamaged(state) {
        return Err(Refusal::Damaged);
    }
    Ok(())
}

// The tables of the lent state, or refusal 0.
pub fn tested<'a>(state: Lent<'a>) -> Result<Tables<'a>, Refusal>
    ensures ok { IfOk result (λ t. (tested t ≡ lent state.entry) × (undamaged_of (lent state.entry) ≡ true)) }
    ensures err { IfErr result (λ why. (why ≡ damaged) × (undamaged_of (lent state.entry) ≡ false)) }
{
    check(state)?;
    Ok(Tables {
        labels: state.labels,
        entries: state.entries,
        words: state.words,
    })
}
