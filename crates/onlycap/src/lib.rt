// The onlycap list (01, Single writes, Override list): one write replaces it. Everything is judged before the first byte is written.
#![tactic(auto)]

ghost use Rattle.std.specs.Prelude.{◌≡◌, [], ℕ, ◌≤◌, length, get_or, take};
ghost use Rattle.search.specs.Search.{first, all, entries};
ghost use Rattle.search.specs.Bytes.{same_bytes};
ghost use Rattle.alphabet.specs.Alphabet.{well_formed, fields, line_limit};
ghost use Rattle.store.specs.Table.{label_limit};
ghost use Rattle.store.specs.Layout.{store, label_at, labels_size};
ghost use Rattle.store.specs.Lent.{lent_mut, SameSlices};
ghost use Rattle.onlycap.specs.Onlycap.{lone_dash, onlycap_answer, onlycap_store};
ghost use Rattle.onlycap.specs.Within.{appears_in, joined, count_with, list_set, Fits};

use alphabet::Field;
use refusals::Refusal;
use store::LentMut;

// How many different labels a write has, and how many labels the table would have with them.
#[derive(Clone, Copy, Debug, PartialEq, Eq)]
pub struct Counted {
    pub different: usize,
    pub labels: usize,
}

// Whether the only field of a write is a dash.
fn lone_dash(text: &[u8]) -> bool
    ensures { result ≡ lone_dash (fields text.now) }
{
    let Field::Part { start, end } = alphabet::next_field(text, 0) else {
        return false;
    };
    let Field::End = alphabet::next_field(text, end) else {
        return false;
    };
    search::same_bytes(&text[start..end], b"-")
}

// Whether each field of a write is a well-formed label.
fn all_formed(text: &[u8]) -> bool
    ensures { result ≡ all well_formed (fields text.now) }
{
    let mut at = 0;
    loop {
        let Field::Part { start, end } = alphabet::next_field(text, at) else {
            return true;
        };
        if !alphabet::well_formed(&text[start..end]) {
            return false;
        }
        at = end;
    }
}

// Whether a label is among the first `count` fields of a write.
fn seen_before(text: &[u8], count: usize, label: &[u8]) -> bool
    ensures { result ≡ appears_in label.now (take count (fields text.now)) }
{
    let mut at = 0;
    for _ in 0..count {
        let Field::Part { start, end } = alphabet::next_field(text, at) else {
            return false;
        };
        if search::same_bytes(label, &text[start..end]) {
            return true;
        }
        at = end;
    }
    false
}

// Counts one field, of which `seen` says whether it stood before. A write of 600 bytes has at most 300 fields, so neither count comes near
// 1000.
fn count_label(labels: &[u8], stored: usize, label: &[u8], seen: bool, counted: Counted) -> Counted
    requires { (length labels.now ≡ labels_size) × (stored ≤ label_limit) × (counted.different ≤ 1000) × (counted.labels ≤ 1000) }
    ensures { result ≡ count_with counted seen (first (same_bytes label.now) (entries (label_at labels.now) stored)) }
{
    if seen {
        return counted;
    }
    let found = places::find_label(labels, stored, label);
    match found {
        Some(_) => Counted {
            different: counted.different + 1,
            labels: counted.labels,
        },
        None => Counted {
            different: counted.different + 1,
            labels: counted.labels + 1,
        },
    }
}

// How many different labels a write has, and how many labels the table would have with them. Nothing is stored.
fn count(labels: &[u8], stored: usize, text: &[u8]) -> Counted
    requires { (length labels.now ≡ labels_size) × (stored ≤ label_limit) × (length text.now ≤ line_limit) }
    ensures { result ≡ record {
      different = length (joined [] (fields text.now) (length (fields text.now)));
      labels = length
          (joined (entries (label_at labels.now) stored) (fields text.now) (length (fields text.now)));
    } }
{
    let mut counted = Counted {
        different: 0,
        labels: stored,
    };
    let mut at = 0;
    let mut i = 0;
    loop {
        let Field::Part { start, end } = alphabet::next_field(text, at) else {
            return counted;
        };
        let seen = seen_before(text, i, &text[start..end]);
        counted = count_label(labels, stored, &text[start..end], seen, counted);
        at = end;
        i += 1;
    }
}

// Replaces the list by the labels of a write that was judged.
fn apply(state: &mut LentMut, text: &[u8])
    requires { Fits (lent_mut state.old) text.now }
    ensures stored { lent_mut state.new ≡ list_set (lent_mut state.old) (fields text.now) }
    ensures same_slices { SameSlices state.old state.new }
{
    let mut stored = state.words[store::LABEL_COUNT] as usize;
    let mut listed = 0;
    let mut at = 0;
    let mut i = 0;
    loop {
        let Field::Part { start, end } = alphabet::next_field(text, at) else {
            state.words[store::LABEL_COUNT] = stored as u64;
            state.words[store::ONLYCAP_COUNT] = listed as u64;
            return;
        };
        let label = &text[start..end];
        let found = places::find_label(state.shared().labels, stored, label);
        let numbered = places::number_for(found, stored);
        places::enter(state.labels, found, stored, label);
        stored = numbered.count;
        if !seen_before(text, i, label) {
            state.entries[store::ONLYCAP_FROM + listed] = numbered.number as u8;
            listed += 1;
        }
        at = end;
        i += 1;
    }
}

// That each number of a slice of bytes is a byte: who lends it out of a struct does not see that. This function does nothing.
fn are_bytes(labels: &[u8])
    ensures { (k : ℕ) → get_or labels.now k 0 ≤ 255 }
{}

// Replaces the onlycap list by the labels of a write, or clears it where the write is a lone dash.
pub fn set_onlycap(state: &mut LentMut, text: &[u8]) -> Result<(), Refusal>
    ensures value { result ≡ onlycap_answer (lent_mut state.old) text.now }
    ensures stored { lent_mut state.new ≡ onlycap_store (lent_mut state.old) text.now }
    ensures same_slices { SameSlices state.old state.new }
{
    let lent = state.shared();
    damage::check(lent)?;
    are_bytes(lent.labels);
    if alphabet::LINE_LIMIT < text.len() {
        return Err(Refusal::TooLong);
    }
    let Field::Part { start: _, end: _ } = alphabet::next_field(text, 0) else {
        return Err(Refusal::WrongFields);
    };
    if lone_dash(text) {
        state.words[store::ONLYCAP_COUNT] = 0;
        return Ok(());
    }
    if !all_formed(text) {
        return Err(alphabet::bad_label_in(text));
    }
    let counted = count(lent.labels, lent.words[store::LABEL_COUNT] as usize, text);
    if store::ONLYCAP_LIMIT < counted.different {
        return Err(Refusal::TooManyOverrides);
    }
    if store::LABEL_LIMIT < counted.labels {
        return Err(Refusal::LabelsFull);
    }
    apply(state, text);
    Ok(())
}
