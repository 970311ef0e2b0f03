// Where a label and a pair stand in the tables: the label of a number, the first number of a label, and the first place of a pair's rule.
// Nothing is changed.
#![tactic(auto)]

ghost use Rattle.std.specs.Prelude.{◌≡◌, cond, List, ◌∷◌, ℕ, ◌+◌, ◌<◌, ◌≤◌, length, get_or};
ghost use Rattle.search.specs.Within.{count_after};
ghost use Rattle.search.specs.Search.{first, place_of, entries as listed};
ghost use Rattle.search.specs.Bytes.{same_bytes};
ghost use Rattle.store.specs.Table.{is_pair, names, no_place, label_limit, rule_limit, mapping_limit};
ghost use Rattle.store.specs.Layout.{labels_size, place_size, modes_from, mapped_from, label_at, rule_at, mapping_at};
ghost use Rattle.store.specs.Within.{entered};
ghost use Rattle.places.specs.Places.{label_start, PartFrom};
ghost use Rattle.places.specs.Within.{Unlike, NoWord, NotHeld, Another, FirstHeld, block, none_in_block};

// How many places of rules are looked at in one go, and what stands for no place among them.
const BLOCK: usize = 64;

const NO_PLACE: u8 = 255;

// The very part of the label store that holds label k. Who calls it has tested the store.
pub fn label_at(labels: &[u8], k: usize) -> &[u8]
    requires { (length labels.now ≡ labels_size) × (k < label_limit) }
    ensures bytes { result.now ≡ label_at labels.now k }
    ensures part_from { PartFrom result labels.entry (label_start k) }
{
    let at = k * store::LABEL_PLACE;
    let start = at + 1;
    let end = start + labels[at] as usize;
    &labels[start..end]
}

// The last byte of a label, or 0 where it is empty.
fn last_byte(label: &[u8]) -> u8
    ensures { result ≡ get_or (0 ∷ label.now) (length label.now) 0 }
{
    let n = label.len();
    if n == 0 { 0 } else { label[n - 1] }
}

// The next place from an index on, of the first `count`, that has a label of length n with this last byte, or one past them: for labels of
// fewer than four bytes. Its contract speaks of the places that it passes alone, as do those of the three that follow: the place that it stops at is
// compared whole. Who calls it has tested the store and the length.
#[inline(never)]
fn next_short(labels: &[u8], from: usize, count: usize, n: usize, last: u8) -> usize
    requires { (length labels.now ≡ labels_size) × (from ≤ label_limit) × (count ≤ label_limit) × (n ≤ 255) }
    ensures { (from ≤ result) × ((k : ℕ) → from ≤ k → k < result → Unlike labels.now k n last) }
{
    for k in from..count {
        let at = k * store::LABEL_PLACE;
        if (labels[at + n] == last) & (labels[at] as usize == n) {
            return k;
        }
    }
    from.max(count)
}

// The first of N places from an index on that has this word at that offset, or one past them. How many is a constant, so that the compiler gives each
// place a test and an exit of its own, and the processor guesses wrong once for a label. Who calls it has tested the store.
fn next_of<const N: usize>(labels: &[u8], from: usize, offset: usize, word: u32) -> usize
    requires { (length labels.now ≡ labels_size) × (from + N ≤ label_limit) × (offset + 4 ≤ place_size) }
    ensures { (from ≤ result) × (result ≤ from + N) × NoWord labels.now offset word from result }
{
    for k in from..from + N {
        if search::word_at(labels, k * store::LABEL_PLACE + offset) == word {
            return k;
        }
    }
    from + N
}

// The next place from an index on, of the first `count`, that has this word at that offset, or one that is not of these: eight at a time, of
// which some may stand past the count, and what is left before it one by one. Who calls it has tested the store.
fn next_with(labels: &[u8], from: usize, count: usize, offset: usize, word: u32) -> usize
    requires { (length labels.now ≡ labels_size) × (from ≤ label_limit) × (count ≤ label_limit) × (offset + 4 ≤ place_size) }
    ensures { (from ≤ result) × NoWord labels.now offset word from result }
{
    let eights = (count + 7) / 8 * 8;
    let mut i = from;
    while i + 8 <= eights {
        let k = next_of::<8>(labels, i, offset, word);
        if k < i + 8 {
            return k;
        }
        i += 8;
    }
    for k in i..count {
        if search::word_at(labels, k * store::LABEL_PLACE + offset) == word {
            return k;
        }
    }
    i.max(count)
}

// The next place from an index on, of the first `count`, that is like a label, or one past them: it ends in the same four bytes. Few others
// do, whatever they begin with. A shorter label is told by its length and its last byte. Who calls it has tested the store and the length.
fn next_like(labels: &[u8], from: usize, count: usize, label: &[u8]) -> usize
    requires { (length labels.now ≡ labels_size) × (from ≤ label_limit) × (count ≤ label_limit) × (length label.now ≤ 255) }
    ensures { (from ≤ result) × NotHeld labels.now label.now from result }
{
    let n = label.len();
    if n < 4 {
        return next_short(labels, from, count, n, last_byte(label));
    }
    next_with(labels, from, count, n - 3, search::word_at(label, n - 4))
}

// The number of a label among the first `count`: the first that has its bytes. One place, where there is such a place, is known to hold another
// label, and is not compared. Who calls it has tested the store.
fn find_besides(labels: &[u8], count: usize, label: &[u8], passed: usize) -> Option<usize>
    requires { (length labels.now ≡ labels_size) × (count ≤ label_limit) × Another labels.now count label.now passed }
    ensures { result ≡ first (same_bytes label.now) (listed (label_at labels.now) count) }
{
    if 255 < label.len() {
        return None;
    }
    let mut i = 0;
    while i < count {
        let k = next_like(labels, i, count, label);
        if count <= k {
            return None;
        }
        if k != passed {
            let held = label_at(labels, k);
            if search::same_bytes(label, held) {
                return Some(k);
            }
        }
        i = k + 1;
    }
    None
}

// The number of a label among the first `count`, each of which may hold it. Who calls it has tested the store.
pub fn find_label(labels: &[u8], count: usize, label: &[u8]) -> Option<usize>
    requires { (length labels.now ≡ labels_size) × (count ≤ label_limit) }
    ensures { result ≡ first (same_bytes label.now) (listed (label_at labels.now) count) }
{
    find_besides(labels, count, label, count)
}

// The same, where the other label of a question, which is often the same, has been sought: the place that it answered is compared first, and not again. Who
// calls it has tested the store and has that answer.
#[inline(always)]
pub fn find_label_hinted(
    labels: &[u8],
    count: usize,
    label: &[u8],
    hint: Option<usize>,
) -> Option<usize>
    requires { (length labels.now ≡ labels_size) × (count ≤ label_limit) × FirstHeld labels.now count hint }
    ensures { result ≡ first (same_bytes label.now) (listed (label_at labels.now) count) }
{
    let Some(k) = hint else {
        return find_besides(labels, count, label, count);
    };
    let hinted = label_at(labels, k);
    if search::same_bytes(label, hinted) {
        return hint;
    }
    find_besides(labels, count, label, k)
}

// A place where it holds what is sought, and what stands for none where not.
fn place_if(holds: bool, place: u8) -> u8
    ensures { result ≡ cond holds place none_in_block }
{
    if holds { place } else { NO_PLACE }
}

// The first of a block of places that holds the pair, counted from the block's first, or what stands for none. It reads all of them, stored or
// not, with no exit, so that the compiler can take many at a time and nothing is guessed. Who calls it has tested the store.
fn lowest_pair(entries: &[u8], from: usize, subject: u8, object: u8) -> u8
    requires { (modes_from + rule_limit ≤ length entries.now) × (from + block ≤ rule_limit) }
    ensures { result ≡ place_of (first (is_pair subject object) (listed (λ i. rule_at entries.now (from + i)) block)) none_in_block }
{
    let mut low = NO_PLACE;
    for i in 0..BLOCK {
        let at = from + i;
        let holds = (entries[at] == subject) & (entries[store::OBJECTS_FROM + at] == object);
        low = search::smaller(low, place_if(holds, i as u8));
    }
    low
}

// The place of a pair's rule among the first `count`: only numbers are compared, a block of places at a time, of which some may stand past the
// count. Who calls it has tested the store.
pub fn find_pair(entries: &[u8], count: usize, subject: u8, object: u8) -> Option<usize>
    requires { (modes_from + rule_limit ≤ length entries.now) × (count ≤ rule_limit) }
    ensures { result ≡ first (is_pair subject object) (listed (rule_at entries.now) count) }
{
    for passed in 0..count.div_ceil(BLOCK) {
        let from = passed * BLOCK;
        let low = lowest_pair(entries, from, subject, object) as usize;
        if low < BLOCK {
            let k = from + low;
            if k < count {
                return Some(k);
            }
            return None;
        }
    }
    None
}

// The number of an entry that is there or takes the next place, and how many entries there then are.
#[derive(Clone, Copy, Debug, PartialEq, Eq)]
pub struct Numbered {
    pub number: usize,
    pub count: usize,
}

// The number of an entry that was sought, and how many there then are. Who calls it has a count of a tested store, which is at most 256, or one
// more; 300 leaves room for that.
pub fn number_for(found: Option<usize>, count: usize) -> Numbered
    requires { count ≤ 300 }
    ensures { result ≡ record { number = place_of found count; count = count_after found count } }
{
    match found {
        Some(i) => Numbered { number: i, count },
        None => Numbered {
            number: count,
            count: count + 1,
        },
    }
}

// Whether an entry that was sought has no place among `count`, of which there may be `limit`.
pub fn full(found: Option<usize>, count: usize, limit: usize) -> bool
    ensures { result ≡ no_place found count limit }
{
    match found {
        Some(_) => false,
        None => limit <= count,
    }
}

// Writes a label into the next place where it was not found. Who calls it has tested the store and the label, and that there is room. (That each number of a
// slice of bytes is a byte is told too: who lends it out of a struct does not see that.)
pub fn enter(labels: &mut [u8], found: Option<usize>, count: usize, label: &[u8])
    requires { (length labels.old ≡ labels_size) × (place_of found count < label_limit) × (length label.now ≤ 255) }
    ensures labels_after { labels.new ≡ entered found labels.old count label.now }
    ensures bytes { (k : ℕ) → get_or labels.old k 0 ≤ 255 }
{
    match found {
        Some(_) => {}
        None => {
            store::write_label(labels, count, label);
        }
    }
}

// The place of a label's mapping among the first `count`, by the label's number: the first that names it, whatever the sets. Who calls it
// has tested the store.
pub fn find_mapping(entries: &[u8], count: usize, number: usize) -> Option<usize>
    requires { (mapped_from + mapping_limit ≤ length entries.now) × (count ≤ mapping_limit) }
    ensures { (words : List ℕ) → result ≡ first (names number) (listed (mapping_at entries.now words) count) }
{
    for i in 0..count {
        if entries[store::MAPPED_FROM + i] as usize == number {
            return Some(i);
        }
    }
    None
}
