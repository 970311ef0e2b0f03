// Demand 2, and what holds of tables grown from a fresh one, as contracts: these functions do nothing, and what each ensures is a theorem on the
// definitions. So the check names each of them, and a reader finds each by its name.
#![tactic(auto)]

ghost use Rattle.std.specs.Prelude.{◌≡◌, Bool, true, false, List, ◌↔◌, length, ℕ, ◌≤◌};
ghost use Rattle.store.specs.Table.{Table, label_in};
ghost use Rattle.store.specs.Layout.{Store, table_of, undamaged_of};
ghost use Rattle.lines.specs.Lines.{rule, change, rule_of, change_of};
ghost use Rattle.writes.specs.Writes.{judged, changed};
ghost use Rattle.store.specs.Judged.{is_accepted, table_after};
ghost use Rattle.store.specs.Pairs.{modes_between, modes_or_none};
ghost use Rattle.access.specs.Access.{effective};
ghost use Rattle.rule_text.specs.RuleText.{longest_rule};
ghost use Rattle.listing.specs.Listing.{listing};
ghost use Rattle.grown.specs.Grown.{Grown};
ghost use Rattle.grown.specs.Sane.{Sane};
ghost use Rattle.grown.specs.Pairs.{SoundTable, Triple, ChangeText, has_room, was_accepted, SetsPair};
ghost use Rattle.grown.specs.Order.{Asks, ByFirst};
ghost use Rattle.grown.specs.Relisted.{LoadsBack, ListedByNumber};
ghost use Rattle.grown.specs.Numbered.{OnlyNumbers, EqualNumbers, FindsListed};

// What holds of every grown table.
pub fn grown_is_sane()
    ensures { (t : Table) → Grown t → Sane t }
{}

// The claims on pairs are of every sound table: a grown one, and that of any undamaged state.
pub fn grown_and_undamaged_are_sound()
    ensures grown_is_sound { (t : Table) → Grown t → SoundTable t }
    ensures undamaged_is_sound { (st : Store) → undamaged_of st ≡ true → SoundTable (table_of st) }
{}

// Demand 2, first half: without an effective override, the first of the seven rules that applies decides.
pub fn demand_2_first_rule_decides()
    ensures { (t : Table) (s o request : List ℕ) (capable : Bool) (wanted : ℕ) → Asks s o request wanted →
        effective t (label_in t s) capable ≡ false → ByFirst t s o request capable wanted }
{}

// Demand 2, second half: a well-formed triple of two different labels, within the line length and with room for it, sets its pair's modes
// and changes no other pair's answer.
pub fn demand_2_triple_sets_its_pair()
    ensures { (t : Table) (line s o : List ℕ) (m : ℕ) → SoundTable t → Triple line s o m →
        has_room t s o ≡ true → SetsPair t (table_after t (judged t (rule_of line))) s o m }
{}

// Such a triple is exactly what a line has to be to say a rule.
pub fn triple_is_a_rule_line()
    ensures { (line s o : List ℕ) (m : ℕ) → (rule_of line ≡ rule s o m) ↔ Triple line s o m }
{}

// It is accepted exactly where there is room.
pub fn triple_accepted_with_room()
    ensures { (t : Table) (line s o : List ℕ) (m : ℕ) → Triple line s o m → was_accepted (judged t (rule_of line)) ≡ has_room t s o }
{}

// Any line that is accepted as a rule sets its pair's modes and changes no other pair's answer.
pub fn accepted_line_sets_its_pair()
    ensures { (t t' : Table) (line s o : List ℕ) (m : ℕ) → SoundTable t → rule_of line ≡ rule s o m → judged t (rule_of line) ≡ is_accepted t' →
        SetsPair t t' s o m }
{}

// What a change write has to be to say a change: four fields, the last two of letters that are allowed and denied.
pub fn what_a_change_says()
    ensures { (text s o : List ℕ) (allow deny : ℕ) → (change_of text ≡ change s o allow deny) ↔ ChangeText text s o allow deny }
{}

// An accepted change leaves its pair with (old modes or allow) without deny, and changes no other pair's answer either.
pub fn accepted_change_sets_its_pair()
    ensures { (t t' : Table) (text s o : List ℕ) (allow deny : ℕ) → SoundTable t → change_of text ≡ change s o allow deny →
        judged t (change_of text) ≡ is_accepted t' → SetsPair t t' s o (changed (modes_or_none (modes_between t s o)) allow deny) }
{}

// Demand 2, last sentence: a listing of the rules, loaded into a fresh table, gives the same rules in the same order.
pub fn demand_2_listing_loads_back()
    ensures { (t : Table) → Grown t → LoadsBack t (listing t) }
{}

// The listing is what the listing call itself writes, asked for the rules' numbers in turn; so that loads back.
pub fn demand_2_listed_by_number_loads_back()
    ensures { (st : Store) → undamaged_of st ≡ true → ListedByNumber st }
{}

// 02, Two: the rule search compares only numbers, and finds nothing where a label has none; rule 5 can go by the numbers too, but where both labels are
// unknown. In a grown table the search finds the rule that the listing call writes with these two labels, into any buffer that is long enough for
// every rule, and none exactly when there is none.
pub fn number_search_finds_the_listed_rule()
    ensures only_numbers { (t : Table) → OnlyNumbers t }
    ensures equal_numbers { (t : Table) (s o : List ℕ) → EqualNumbers t s o }
    ensures finds_listed { (st : Store) (out s o : List ℕ) → undamaged_of st ≡ true → Grown (table_of st) → longest_rule ≤ length out →
        FindsListed st out s o }
{}
