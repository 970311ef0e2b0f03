// The listing: a rule by its number as a line of text, and a label by its number (01, Listing). Nothing is changed but the lent buffer.
#![tactic(auto)]

ghost use Rattle.std.specs.Prelude.{◌≡◌};
ghost use Rattle.store.specs.Layout.{store};
ghost use Rattle.store.specs.LentWithin.{lent};
ghost use Rattle.places.specs.Places.{PartFrom};
ghost use Rattle.listing.specs.Listing.{list_answer, list_out, label_given, label_answer, label_from};

use refusals::Refusal;
use store::Lent;

// Rule number k as text.
pub fn list_rule(state: Lent, k: usize, out: &mut [u8]) -> Result<usize, Refusal>
    ensures value { result ≡ list_answer (lent state.entry) k out.old }
    ensures out_after { out.new ≡ list_out (lent state.entry) k out.old }
{
    damage::check(state)?;
    let rules = state.words[store::RULE_COUNT] as usize;
    if rules <= k {
        return Err(Refusal::NoSuchNumber);
    }
    let subject = places::label_at(state.labels, state.entries[k] as usize);
    let object = places::label_at(
        state.labels,
        state.entries[store::OBJECTS_FROM + k] as usize,
    );
    let mut text = [0u8; 5];
    let n = modes::write_modes(&mut text, 0, state.entries[store::MODES_FROM + k]);
    rule_text::put_text(out, subject, object, &text[0..n])
}

// What `label_by_number` does: done, or its refusal.
pub fn label_check(state: Lent, k: usize) -> Result<(), Refusal>
    ensures { result ≡ label_answer (lent state.entry) k }
{
    damage::check(state)?;
    let stored = state.words[store::LABEL_COUNT] as usize;
    if stored <= k {
        return Err(Refusal::NoSuchNumber);
    }
    Ok(())
}

// The very part of the label store that holds label k, or an empty part of it on a refusal.
pub fn label_by_number<'a, 'b, 'c>(
    labels: &'a [u8],
    entries: &'b [u8],
    words: &'c [u64],
    k: usize,
) -> &'a [u8]
    ensures bytes { result.now ≡ label_given (store labels.now entries.now words.now) k }
    ensures part_from { PartFrom result labels.entry (label_from (label_answer (store labels.now entries.now words.now) k) k) }
{
    let state = Lent {
        labels,
        entries,
        words,
    };
    let answer = label_check(state, k);
    match answer {
        Err(_) => &labels[0..0],
        Ok(()) => places::label_at(labels, k),
    }
}
