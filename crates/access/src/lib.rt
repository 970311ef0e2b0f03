// The access check (01: a question): the seven published rules in their order, and the override capability (CAP_MAC_OVERRIDE with onlycap).
// A question changes nothing.
#![tactic(auto)]

ghost use Rattle.std.specs.Prelude.{◌≡◌, [], ◌∷◌, ◌+◌, ◌<◌, ◌≤◌, length};
ghost use Rattle.search.specs.Search.{place_of};
ghost use Rattle.search.specs.Bytes.{same_bytes};
ghost use Rattle.store.specs.Table.{label_limit, rule_limit, onlycap_limit};
ghost use Rattle.store.specs.Layout.{store, modes_from, onlycap_from, firsts_from, table_of, Sizes};
ghost use Rattle.store.specs.LentWithin.{lent, tested};
ghost use Rattle.store.specs.Within.{Counts};
ghost use Rattle.store.specs.Pairs.{rule_between};
ghost use Rattle.access.specs.SevenRules as rules;
ghost use Rattle.access.specs.Access as access;
ghost use Rattle.access.specs.Within as within;

use refusals::Refusal;
use store::{Lent, Tables};

// The rule that denies: 1, the subject is *; or 7, any other access.
#[derive(Clone, Copy, Debug, PartialEq, Eq)]
pub enum Denial {
    StarSubject,
    AnyOther,
}

// What a run of the rules says: granted, with the rule's number; denied, with the rule that denies; or nothing, where none applies.
#[derive(Clone, Copy, Debug, PartialEq, Eq)]
pub enum Verdict {
    Grants(u8),
    Denies(Denial),
    Undecided,
}

// What rules 5 to 7 say, and the modes of the rule by which rule 6 granted: none where another decided.
#[derive(Clone, Copy, Debug, PartialEq, Eq)]
pub struct Ruling {
    pub verdict: Verdict,
    pub modes: u8,
}

// The answer to a question: granted, with the rule's number; denied, with the rule that denies; granted by override, with the rule that would have
// denied; refused, with its number and place.
#[derive(Clone, Copy, Debug, PartialEq, Eq)]
pub enum Answer {
    Granted(u8),
    Denied(Denial),
    Override(Denial),
    Refused(Refusal),
}

// The labels that have a rule of their own: _ ^ *.
const FLOOR: u8 = b'_';

const HAT: u8 = b'^';

const STAR: u8 = b'*';

// The bits of r and x.
const READ_EXECUTE: u8 = 40;

// Whether a label is one byte, that one. Labels with a rule of their own are known by their bytes: a lent table may hold others in places
// 0 to 2.
fn is_mark(label: &[u8], mark: u8) -> bool
    ensures { result ≡ same_bytes label.now (mark ∷ []) }
{
    if label.len() != 1 {
        return false;
    }
    label[0] == mark
}

// Rules 1 to 4, the first that applies: they know _ ^ and * by their bytes.
pub fn by_marks(subject: &[u8], object: &[u8], wanted: u8) -> Verdict
    ensures { result ≡ rules.first_of (within.mark_rules subject.now object.now wanted) }
{
    if is_mark(subject, STAR) {
        return Verdict::Denies(Denial::StarSubject);
    }
    if is_mark(subject, HAT) & (wanted & READ_EXECUTE == wanted) {
        return Verdict::Grants(2);
    }
    if is_mark(object, FLOOR) & (wanted & READ_EXECUTE == wanted) {
        return Verdict::Grants(3);
    }
    if is_mark(object, STAR) {
        return Verdict::Grants(4);
    }
    Verdict::Undecided
}

// Whether two labels are equal, by the numbers that were found for them: their bytes are compared only where neither has one.
#[inline(always)]
fn same_label(subject: &[u8], object: &[u8], s: Option<usize>, o: Option<usize>) -> bool
    ensures { result ≡ within.same_label subject.now object.now s o }
{
    let Some(i) = s else {
        let None = o else {
            return false;
        };
        return search::same_bytes(subject, object);
    };
    let Some(j) = o else {
        return false;
    };
    i == j
}

// Where the rule of two labels that were sought stands. The rule search, `places::find_pair`, is handed two numbers and lent no label; it is not begun
// where a label has no number. Who calls it has tested the store, and has the numbers from searches of it.
#[inline(always)]
fn find_rule(
    entries: &[u8],
    words: &[u64],
    subject: Option<usize>,
    object: Option<usize>,
) -> Option<usize>
    requires tables_fit { (modes_from + rule_limit ≤ length entries.now) × (firsts_from ≤ length words.now) × Counts words.now }
    requires numbers_fit { (place_of subject 0 < label_limit) × (place_of object 0 < label_limit) }
    ensures { result ≡ rule_between (table_of (store [] entries.now words.now)) subject object }
{
    let Some(s) = subject else {
        return None;
    };
    let Some(o) = object else {
        return None;
    };
    places::find_pair(entries, words[store::RULE_COUNT] as usize, s as u8, o as u8)
}

// Whether the onlycap list holds a label, by its number. Who calls it has tested the store.
fn on_list(entries: &[u8], words: &[u64], subject: Option<usize>) -> bool
    requires { (onlycap_from + onlycap_limit ≤ length entries.now) × (firsts_from ≤ length words.now) × Counts words.now }
    ensures { result ≡ access.on_list (table_of (store [] entries.now words.now)).onlycap subject }
{
    let Some(s) = subject else {
        return false;
    };
    let count = words[store::ONLYCAP_COUNT] as usize;
    for i in 0..count {
        if s == entries[store::ONLYCAP_FROM + i] as usize {
            return true;
        }
    }
    false
}

// Whether override counts after a denial: the asker has it, and the onlycap list is empty or holds the subject. Who calls it has tested the
// store.
fn effective(entries: &[u8], words: &[u64], subject: Option<usize>, capable: bool) -> bool
    requires { (onlycap_from + onlycap_limit ≤ length entries.now) × (firsts_from ≤ length words.now) × Counts words.now }
    ensures { result ≡ access.effective (table_of (store [] entries.now words.now)) subject capable }
{
    if !capable {
        return false;
    }
    if words[store::ONLYCAP_COUNT] == 0 {
        return true;
    }
    on_list(entries, words, subject)
}

// The answer after a denial. Who calls it has tested the store.
fn denied(
    entries: &[u8],
    words: &[u64],
    subject: Option<usize>,
    by: Denial,
    capable: bool,
) -> Answer
    requires { (onlycap_from + onlycap_limit ≤ length entries.now) × (firsts_from ≤ length words.now) × Counts words.now }
    ensures { result ≡ access.denied (access.effective (table_of (store [] entries.now words.now)) subject capable) by }
{
    if effective(entries, words, subject, capable) {
        return Answer::Override(by);
    }
    Answer::Denied(by)
}

// The answer by what the rules say. Who calls it has tested the store.
#[inline(always)]
fn answered(
    entries: &[u8],
    words: &[u64],
    subject: Option<usize>,
    verdict: Verdict,
    capable: bool,
) -> Answer
    requires { (onlycap_from + onlycap_limit ≤ length entries.now) × (firsts_from ≤ length words.now) × Counts words.now }
    ensures { result ≡ access.answered (access.effective (table_of (store [] entries.now words.now)) subject capable) verdict }
{
    match verdict {
        Verdict::Grants(rule) => Answer::Granted(rule),
        Verdict::Denies(by) => denied(entries, words, subject, by, capable),
        Verdict::Undecided => denied(entries, words, subject, Denial::AnyOther, capable),
    }
}

// Rules 5 to 7, by whether the two labels are equal and the numbers that were found for them. No label is looked up or compared; and it is small, so that the
// compiler can put it into each of its callers. Who calls it has tested the store, and has the numbers from searches of it.
#[inline(always)]
pub fn by_numbers(
    entries: &[u8],
    words: &[u64],
    same: bool,
    s: Option<usize>,
    o: Option<usize>,
    wanted: u8,
) -> Ruling
    requires tables_fit { (modes_from + rule_limit ≤ length entries.now) × (firsts_from ≤ length words.now) × Counts words.now }
    requires numbers_fit { (place_of s 0 < label_limit) × (place_of o 0 < label_limit) }
    ensures { result ≡ within.ruling_by (table_of (store [] entries.now words.now)) same s o wanted }
{
    if same {
        return Ruling {
            verdict: Verdict::Grants(5),
            modes: 0,
        };
    }
    let Some(k) = find_rule(entries, words, s, o) else {
        return Ruling {
            verdict: Verdict::Denies(Denial::AnyOther),
            modes: 0,
        };
    };
    let modes = entries[store::MODES_FROM + k];
    if wanted & modes == wanted {
        return Ruling {
            verdict: Verdict::Grants(6),
            modes,
        };
    }
    Ruling {
        verdict: Verdict::Denies(Denial::AnyOther),
        modes: 0,
    }
}

// The first of the seven rules that applies decides. Where rules 1 to 4 do, no label is looked up, but for a denial that may be overridden. Otherwise each
// label is looked up once, the object first at the place where the subject was found, where it stands under rule 5. Who calls it has tested the store.
#[inline(always)]
fn decide(tables: Tables, subject: &[u8], object: &[u8], wanted: u8, capable: bool) -> Answer
    ensures { result ≡ access.decide (table_of (tested tables.entry)) subject.now object.now wanted capable }
{
    match by_marks(subject, object, wanted) {
        Verdict::Grants(rule) => Answer::Granted(rule),
        Verdict::Denies(by) => {
            if !capable {
                return Answer::Denied(by);
            }
            let s = places::find_label(
                tables.labels,
                tables.words[store::LABEL_COUNT] as usize,
                subject,
            );
            denied(tables.entries, tables.words, s, by, capable)
        }
        Verdict::Undecided => {
            let count = tables.words[store::LABEL_COUNT] as usize;
            let s = places::find_label(tables.labels, count, subject);
            let o = places::find_label_hinted(tables.labels, count, object, s);
            let same = same_label(subject, object, s, o);
            let ruling = by_numbers(tables.entries, tables.words, same, s, o, wanted);
            let verdict = ruling.verdict;
            answered(tables.entries, tables.words, s, verdict, capable)
        }
    }
}

// The answer to a question, or why it is refused.
fn asked(
    state: Lent,
    subject: &[u8],
    object: &[u8],
    request: &[u8],
    capable: bool,
) -> Result<Answer, Refusal>
    ensures { within.answer_given result ≡ access.question_of (lent state.entry) subject.now object.now request.now capable }
{
    let tables = damage::tested(state)?;
    alphabet::check_label(subject)?;
    alphabet::check_label(object)?;
    if request.len() == 0 {
        return Err(Refusal::BadRequest);
    }
    let Some(wanted) = modes::read_modes(request, modes::REQUEST_LETTERS, false) else {
        return Err(Refusal::BadRequest);
    };
    Ok(decide(tables, subject, object, wanted, capable))
}

// May a subject have the wanted access to an object? `capable` says whether the asker has the override capability.
pub fn question(state: Lent, subject: &[u8], object: &[u8], request: &[u8], capable: bool) -> Answer
    ensures { result ≡ access.question_of (lent state.entry) subject.now object.now request.now capable }
{
    match asked(state, subject, object, request, capable) {
        Ok(answer) => answer,
        Err(refusal) => Answer::Refused(refusal),
    }
}
