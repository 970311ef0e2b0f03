// The tables in lent memory: the label store, the rules, the CIPSO mappings and the onlycap list (01: the override list). Three lent
// slices hold them: `labels`, `entries` and `words`, laid out as specs/Layout.antt says.
#![tactic(auto)]

ghost use Rattle.std.specs.Prelude.{◌≡◌, ◌+◌, ◌<◌, ◌≤◌, length};
ghost use Rattle.store.specs.Table.{Table, FirstCounts, label_limit, rule_limit, mapping_limit};
ghost use Rattle.store.specs.Layout.{store, Sizes, labels_size, modes_from, levels_from, thirds_from, set_at};
ghost use Rattle.store.specs.Within.{Counts, with_label, with_rule, with_numbers, with_words};
ghost use Rattle.store.specs.Judged.{fresh_answer, fresh_store};

use numbers::CategorySet;
use refusals::Refusal;

// The full size of each lent slice, as specs/Layout.antt has them.
pub const LABELS_SIZE: usize = 16384;

pub const ENTRIES_SIZE: usize = 840;

pub const WORDS_SIZE: usize = 100;

// The most labels, rules, mappings and onlycap labels.
pub const LABEL_LIMIT: usize = 64;

pub const RULE_LIMIT: usize = 256;

pub const MAPPING_LIMIT: usize = 32;

pub const ONLYCAP_LIMIT: usize = 8;

// How many bytes a label's place has: its length, and the longest label.
pub const LABEL_PLACE: usize = 256;

// Where the runs of entries begin: the rules' subjects stand from 0.
pub const OBJECTS_FROM: usize = 256;

pub const MODES_FROM: usize = 512;

pub const MAPPED_FROM: usize = 768;

pub const LEVELS_FROM: usize = 800;

pub const ONLYCAP_FROM: usize = 832;

// Where each count stands among the words, and where the first, second and third words of the mappings' category sets begin.
pub const LABEL_COUNT: usize = 0;

pub const RULE_COUNT: usize = 1;

pub const MAPPING_COUNT: usize = 2;

pub const ONLYCAP_COUNT: usize = 3;

pub const FIRSTS_FROM: usize = 4;

pub const SECONDS_FROM: usize = 36;

pub const THIRDS_FROM: usize = 68;

// What a host lends of a state: its three slices, of any size and any content.
#[derive(Clone, Copy)]
pub struct Lent<'a> {
    pub labels: &'a [u8],
    pub entries: &'a [u8],
    pub words: &'a [u64],
}

// The same, where a call may change what they hold.
#[derive(Drop)]
pub struct LentMut<'a> {
    pub labels: &'a mut [u8],
    pub entries: &'a mut [u8],
    pub words: &'a mut [u64],
}

// The slices of a state that was tested: each has its full size, and no count is over its limit.
#[derive(Clone, Copy)]
pub struct Tables<'a> {
    pub labels: &'a [u8],
    pub entries: &'a [u8],
    pub words: &'a [u64],
    ghost sizes: { Sizes labels.now entries.now words.now },
    ghost counts: { Counts words.now },
}

impl<'a> LentMut<'a> {
    ghost use Rattle.store.specs.Lent.{lent_mut};
    ghost use Rattle.store.specs.LentWithin.{lent, tested};

    // The slices, to be read.
    pub fn shared(&self) -> Lent<'_>
        ensures { lent result ≡ lent_mut self.now }
    {
        Lent {
            labels: &self.labels[..],
            entries: &self.entries[..],
            words: &self.words[..],
        }
    }

    // The slices, to be read, of a state that who calls it has tested.
    pub fn tables(&self) -> Tables<'_>
        requires sizes { Sizes self.now.labels.now self.now.entries.now self.now.words.now }
        requires counts { Counts self.now.words.now }
        ensures { tested result ≡ lent_mut self.now }
    {
        let Lent {
            labels,
            entries,
            words,
        } = self.shared();
        Tables {
            labels,
            entries,
            words,
        }
    }
}

// A rule: the numbers of its subject and its object, and its modes.
#[derive(Clone, Copy, Debug, PartialEq, Eq)]
pub struct Rule {
    pub subject: u8,
    pub object: u8,
    pub modes: u8,
}

// A CIPSO mapping: the label's number, its level and its category set.
#[derive(Clone, Copy, Debug, PartialEq, Eq)]
pub struct Mapping {
    pub label: u8,
    pub level: u8,
    pub set: CategorySet,
}

// The first counts, and a label means its first number: of every table. This function does nothing, and what it ensures is the theorem.
pub fn the_first_counts()
    ensures { (t : Table) → FirstCounts t }
{}

// Writes a label into place k: its length and its bytes. Who calls it has tested the store and the label.
pub fn write_label(labels: &mut [u8], k: usize, label: &[u8])
    requires { (length labels.old ≡ labels_size) × (k < label_limit) × (length label.now ≤ 255) }
    ensures { labels.new ≡ with_label labels.old k label.now }
{
    let at = k * LABEL_PLACE;
    labels[at] = label.len() as u8;
    search::copy_at(labels, at + 1, label);
}

// Writes a rule into place k. Who calls it has tested the store.
pub fn write_rule(entries: &mut [u8], k: usize, rule: Rule)
    requires { (modes_from + rule_limit ≤ length entries.old) × (k < rule_limit) }
    ensures { entries.new ≡ with_rule entries.old k rule }
{
    entries[k] = rule.subject;
    entries[OBJECTS_FROM + k] = rule.object;
    entries[MODES_FROM + k] = rule.modes;
}

// Writes a mapping into place k. Who calls it has tested the store.
pub fn write_mapping(entries: &mut [u8], words: &mut [u64], k: usize, mapping: Mapping)
    requires { (levels_from + mapping_limit ≤ length entries.old) × (thirds_from + mapping_limit ≤ length words.old) × (k < mapping_limit) }
    ensures entries_after { entries.new ≡ with_numbers entries.old k mapping }
    ensures words_after { words.new ≡ with_words words.old k mapping }
{
    entries[MAPPED_FROM + k] = mapping.label;
    entries[LEVELS_FROM + k] = mapping.level;
    let set = mapping.set;
    words[FIRSTS_FROM + k] = set.first;
    words[SECONDS_FROM + k] = set.second;
    words[THIRDS_FROM + k] = set.third;
}

// The category set of the mapping at place k. Who calls it has tested the store.
pub fn set_at(words: &[u64], k: usize) -> CategorySet
    requires { (thirds_from + mapping_limit ≤ length words.now) × (k < mapping_limit) }
    ensures { result ≡ set_at words.now k }
{
    CategorySet {
        first: words[FIRSTS_FROM + k],
        second: words[SECONDS_FROM + k],
        third: words[THIRDS_FROM + k],
    }
}

// Makes a fresh table of lent memory, whatever it holds: the five labels alone. Refused with 0 where a part has not its full size. What no
// entry holds stays as it was.
pub fn fresh_table(labels: &mut [u8], entries: &[u8], words: &mut [u64]) -> Result<(), Refusal>
    ensures value { result ≡ fresh_answer (store labels.old entries.now words.old) }
    ensures stored { store labels.new entries.now words.new ≡ fresh_store (store labels.old entries.now words.old) }
{
    if labels.len() != LABELS_SIZE {
        return Err(Refusal::Damaged);
    }
    if entries.len() != ENTRIES_SIZE {
        return Err(Refusal::Damaged);
    }
    if words.len() != WORDS_SIZE {
        return Err(Refusal::Damaged);
    }
    let floor = [b'_'];
    let hat = [b'^'];
    let star = [b'*'];
    let huh = [b'?'];
    let web = [b'@'];
    write_label(labels, 0, &floor);
    write_label(labels, 1, &hat);
    write_label(labels, 2, &star);
    write_label(labels, 3, &huh);
    write_label(labels, 4, &web);
    words[LABEL_COUNT] = 5;
    words[RULE_COUNT] = 0;
    words[MAPPING_COUNT] = 0;
    words[ONLYCAP_COUNT] = 0;
    Ok(())
}
