// The label of a new object that a creator makes in a folder (02, Seven). Nothing is changed, and no label enters.
#![tactic(auto)]

ghost use Rattle.std.specs.Prelude.{◌≡◌, Bool, List, ℕ};
ghost use Rattle.store.specs.Table.{Table};
ghost use Rattle.store.specs.Layout.{store, Store, table_of, Sizes};
ghost use Rattle.store.specs.LentWithin.{lent, tested};
ghost use Rattle.store.specs.Within.{Counts};
ghost use Rattle.store.specs.Pairs.{PairModes, has_modes, modes_between};
ghost use Rattle.new_object.specs.NewObject.{object_label_by, object_label_for, object_label_of};
ghost use Rattle.new_object.specs.WhichLabel.{WhichLabel, by_labels_and_modes, SameNewObjects};

use access::Verdict;
use refusals::Refusal;
use store::{Lent, Tables};

// Which label it gets: the creator's; none, since the creator may not write to the folder; or the folder's, and whether the new object transmutes.
#[derive(Clone, Copy, Debug, PartialEq, Eq)]
pub enum ObjectLabel {
    CreatorLabel,
    Denied,
    FolderLabel(bool),
}

// By what the rules say and, where rule 6 granted, the modes of its rule.
fn by_verdict(
    verdict: Verdict,
    granting: u8,
    folder_transmutes: bool,
    is_folder: bool,
) -> ObjectLabel
    ensures { result ≡ object_label_by verdict (has_modes granting) folder_transmutes is_folder }
{
    match verdict {
        Verdict::Grants(rule) => {
            if folder_transmutes & ((rule == 6) & (granting & modes::TRANSMUTE != 0)) {
                return ObjectLabel::FolderLabel(is_folder);
            }
            ObjectLabel::CreatorLabel
        }
        Verdict::Denies(_) => ObjectLabel::Denied,
        Verdict::Undecided => ObjectLabel::Denied,
    }
}

// By the seven rules, of a request of w alone. Rules 1 to 4 go by no rule of the table; nor does rule 5, which is told by the bytes, so that nothing is looked
// up for a creator in a folder of its own label. For rules 6 and 7 each label is looked up once. Who calls it has tested the store.
fn by_rules(
    tables: Tables,
    creator: &[u8],
    folder: &[u8],
    folder_transmutes: bool,
    is_folder: bool,
) -> ObjectLabel
    ensures { result ≡ object_label_for creator.now folder.now (modes_between (table_of (tested tables.entry)) creator.now folder.now) folder_transmutes is_folder }
{
    match access::by_marks(creator, folder, modes::WRITE) {
        Verdict::Grants(_) => ObjectLabel::CreatorLabel,
        Verdict::Denies(_) => ObjectLabel::Denied,
        Verdict::Undecided => {
            if search::same_bytes(creator, folder) {
                return ObjectLabel::CreatorLabel;
            }
            let count = tables.words[store::LABEL_COUNT] as usize;
            let s = places::find_label(tables.labels, count, creator);
            let o = places::find_label(tables.labels, count, folder);
            let ruling = access::by_numbers(
                tables.entries,
                tables.words,
                false,
                s,
                o,
                modes::WRITE,
            );
            let verdict = ruling.verdict;
            let granting = ruling.modes;
            by_verdict(verdict, granting, folder_transmutes, is_folder)
        }
    }
}

// The label of a new object. `folder_transmutes` says whether the folder transmutes, `is_folder` whether the new object is a folder itself.
pub fn object_label(
    state: Lent,
    creator: &[u8],
    folder: &[u8],
    folder_transmutes: bool,
    is_folder: bool,
) -> Result<ObjectLabel, Refusal>
    ensures { result ≡ object_label_of (lent state.entry) creator.now folder.now folder_transmutes is_folder }
{
    let tables = damage::tested(state)?;
    alphabet::check_label(creator)?;
    alphabet::check_label(folder)?;
    Ok(by_rules(tables, creator, folder, folder_transmutes, is_folder))
}

// The claim of when it is denied, the folder's or the creator's label, in 02's words: by the answer to a question for w, and the rule of the pair. And of a
// table nothing counts but the modes of the pair: so not the override list, no mapping, and no other rule; what they make of it is told by the two labels.
pub fn which_label_a_new_object_gets()
    ensures which_label { (st : Store) (creator folder : List ℕ) (folder_transmutes is_folder : Bool) → WhichLabel st creator folder folder_transmutes is_folder }
    ensures same_new_objects { (t u : Table) (creator folder : List ℕ) → modes_between t creator folder ≡ modes_between u creator folder → SameNewObjects t u creator folder }
    ensures by_labels_and_modes { (creator folder : List ℕ) (pair : PairModes) (folder_transmutes is_folder : Bool) → object_label_for creator folder pair folder_transmutes is_folder ≡ by_labels_and_modes creator folder pair folder_transmutes is_folder }
{}
