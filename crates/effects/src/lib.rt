// What an accepted line, change, revoke, override list and mapping do, what a mapping's text says, what override is, what the look-ups find, and that old
// rule files load as before but for b, as contracts: these functions do nothing, and what each ensures is a theorem on the definitions. So the check names
// each of them, and a reader finds each by its name.
#![tactic(auto)]

ghost use Rattle.std.specs.Prelude.{◌≡◌, true, ◌↔◌, List, ℕ, length, Ok};
ghost use Rattle.numbers.specs.declared.CategorySet.{CategorySet};
ghost use Rattle.store.specs.Table.{Table};
ghost use Rattle.store.specs.Layout.{Store, table_of};
ghost use Rattle.store.specs.Judged.{is_accepted};
ghost use Rattle.revoke.specs.Revoke.{revoke_write, revoke_answer};
ghost use Rattle.alphabet.specs.Alphabet.{fields};
ghost use Rattle.lines.specs.Lines.{rule, change};
ghost use Rattle.writes.specs.Writes.{judged};
ghost use Rattle.onlycap.specs.Onlycap.{onlycap_write};
ghost use Rattle.cipso.specs.Cipso.{mapping, mapping_of, mapping_write};
ghost use Rattle.lookups.specs.Lookups.{sought};
ghost use Rattle.grown.specs.Sane.{LabelsOnce};
ghost use Rattle.grown.specs.Pairs.{SoundTable};
ghost use Rattle.effects.specs.Effects.{Revokes, CountsRules, rules_of, SetsFields, Maps, KeepsPlaces};
ghost use Rattle.effects.specs.MappingText.{MappingText};
ghost use Rattle.effects.specs.OldFiles.{AsBefore};
ghost use Rattle.effects.specs.OverrideAndLookUp.{OverrideCounts, LabelsMapping, LowestLabel};

// An accepted revoke clears the modes of every rule with its subject, which keeps its place, and changes no answer of another subject.
pub fn accepted_revoke_clears_its_subject()
    ensures { (t t' : Table) (l : List ℕ) → revoke_write l t ≡ is_accepted t' → Revokes t t' l }
{}

// Its answer is how many rules have that subject: of every state by the label's number, and by the label's bytes where
// every label is well formed and stored once.
pub fn revoke_counts_its_rules()
    ensures counts_by_number { (st : Store) (l : List ℕ) (count : ℕ) → revoke_answer st l ≡ Ok count → CountsRules (table_of st) l count }
    ensures counts_by_bytes { (st : Store) (l : List ℕ) (count : ℕ) → LabelsOnce (table_of st) → revoke_answer st l ≡ Ok count →
        count ≡ length (rules_of (table_of st) l) }
{}

// An accepted override list is who overrides from then on: the labels of its fields, each once, in the order of their first appearance.
pub fn accepted_list_is_who_overrides()
    ensures { (t t' : Table) (text : List ℕ) → SoundTable t → onlycap_write text t ≡ is_accepted t' → SetsFields t t' (fields text) }
{}

// An accepted mapping is what its label's look-up finds from then on; no other mapping changes, and no answer.
pub fn accepted_mapping_is_found()
    ensures { (t t' : Table) (text l : List ℕ) (level : ℕ) (set : CategorySet) → SoundTable t → mapping_of text ≡ mapping l level set →
        mapping_write text t ≡ is_accepted t' → Maps t t' l level set }
{}

// What a mapping write says, by its fields: label, level, then no or more categories.
pub fn what_a_mapping_write_says()
    ensures { (text l : List ℕ) (level : ℕ) (set : CategorySet) → (mapping_of text ≡ mapping l level set) ↔ MappingText text l level set }
{}

// A line of rule text and a change let every label and every rule keep its place, and change no rule but the pair's; what is new goes last.
pub fn labels_and_pairs_keep_their_places()
    ensures by_a_line { (t t' : Table) (s o : List ℕ) (m : ℕ) → judged t (rule s o m) ≡ is_accepted t' → KeepsPlaces t t' s o }
    ensures by_a_change { (t t' : Table) (s o : List ℕ) (allow deny : ℕ) → judged t (change s o allow deny) ≡ is_accepted t' → KeepsPlaces t t' s o }
{}

// Override turns a denial into a grant by override, and nothing else; it counts for an asker who has it where the list is empty or holds the subject.
pub fn override_after_a_denial()
    ensures { (t : Table) → OverrideCounts t }
{}

// The look-up by label finds the label's mapping, or that it has none.
pub fn what_a_label_is_mapped_to()
    ensures { (t : Table) (l : List ℕ) → LabelsMapping t l }
{}

// The look-up by level and set, where they can be sought, finds the lowest-numbered label that has both, or none; where every label is well formed and stored once.
pub fn lowest_label_of_a_level_and_set()
    ensures { (t : Table) (level : ℕ) (set : CategorySet) → LabelsOnce t → sought level set ≡ true → LowestLabel t level set }
{}

// Old rule files load as before but for the retired letter b: it is a placeholder; every line is accepted, skipped or refused as it was, with its other
// letters; and every question gets the answer that it got, but that granted 6 no longer tells of b (02, Six).
pub fn old_files_load_as_before()
    ensures { AsBefore }
{}
