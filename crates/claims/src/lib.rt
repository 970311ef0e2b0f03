// What the users asked for, each claim under its name; demand 2 stands in the crate grown, what accepted writes do in effects, and by which number a call
// is refused in faults. These functions do nothing: what each ensures is the claim, so the check names it as proved.
#![tactic(auto)]

ghost use Rattle.std.specs.Prelude.{◌≡◌, true, false, List, map};
ghost use Rattle.search.specs.Search.{all};
ghost use Rattle.alphabet.specs.Alphabet.{class_of, ByteClasses, LabelForm};
ghost use Rattle.modes.specs.Modes.{LettersAndBits};
ghost use Rattle.store.specs.Layout.{table_of, undamaged_of};
ghost use Rattle.load.specs.Loader.{Load};
ghost use Rattle.lists.specs.Reader.{Call, Reply, events, reports};
ghost use Rattle.calls.specs.Calls.{Fresh, Runs};
ghost use Rattle.calls.specs.PlainReaders.{PlainReaders, refusal_of};
ghost use Rattle.lists.specs.Tables.{TablesFollow};
ghost use Rattle.claims.specs.Cases.{right, cases, further_cases, new_object_cases};
ghost use Rattle.claims.specs.EachRule.{EachRule};
ghost use Rattle.claims.specs.Examples.{ExamplesOf01, ExamplesOf02};
ghost use Rattle.claims.specs.Exported.{ExportedCalls};
ghost use Rattle.claims.specs.Numbers.{NumbersOf01, NumbersOf02};
ghost use Rattle.claims.specs.Program.{ProgramOutput};
ghost use Rattle.claims.specs.ReportCounts.{LineCounts};
ghost use Rattle.claims.specs.Unchanged.{NothingChanges};
ghost use Rattle.claims.specs.RunSearch.{SearchesTheRun};

// Demand 1, that every input is met with an answer: of every function of the crate balqirven, which balqirven_c exports, out of its own
// contract, it asks nothing of its caller, and its answer and what it leaves in each lent slice are what the definitions say.
pub fn demand_1_every_call_answers()
    ensures { ExportedCalls }
{}

// Demand 1, that a refusal leaves the tables, the loader and every lent buffer holding what they held before.
pub fn demand_1_refusals_change_nothing()
    ensures { NothingChanges }
{}

// What each write leaves in the lent slices is what 01 says it does to the tables, and an undamaged state stays undamaged.
pub fn tables_follow()
    ensures { TablesFollow }
{}

// Demand 3, undivided, of every list of calls of the same functions: pieces, end calls and questions, and between them any other call on the
// tables, but for making a fresh table or loader, which begin a list. From any undamaged table and a fresh loader, the list is the plain reader's.
// Two lists with the same bytes, end calls and single writes in the same order, whatever their cuts and questions, get the same reports and leave
// the same table.
// Of a damaged table every call of a list is refused with 0, and nothing changes.
// And every list can be made from every state, so that none of this speaks of nothing.
pub fn demand_3()
    ensures plain_readers { (s s' : Load) (cs : List Call) (rs : List Reply) → Fresh s → Runs s cs rs s' → PlainReaders s cs rs s' }
    ensures cuts_do_not_matter { (s z s' z' : Load) (cs ds : List Call) (rs qs : List Reply) → Fresh s → Fresh z → table_of s.store ≡ table_of z.store →
        events cs ≡ events ds → Runs s cs rs s' → Runs z ds qs z' → (table_of s'.store ≡ table_of z'.store) × (reports rs ≡ reports qs) }
    ensures damaged_is_refused { (s s' : Load) (cs : List Call) (rs : List Reply) → undamaged_of s.store ≡ false → Runs s cs rs s' → (s' ≡ s) ×
        (rs ≡ map refusal_of cs) }
    ensures every_list_runs { (s : Load) (cs : List Call) → (rs : List Reply) × (s' : Load) × Runs s cs rs s' }
{}

// What the program writes: for every cutting of its input into pieces, the report and the answers that 01 has written for the whole.
pub fn program_output()
    ensures { ProgramOutput }
{}

// What the search of a run answers is the lowest label number whose level and set both match, or none, whatever the run.
pub fn search_of_a_run()
    ensures { SearchesTheRun }
{}

// Byte classes, labels and letters as 01 says them, byte by byte: label byte, blank, newline or other; what a well-formed label is; each letter's bit in
// either case, and the letters that each place allows. That the code's tables are these, say the contracts of `alphabet::classes` and of what reads and
// writes modes.
pub fn bytes_and_letters()
    ensures byte_classes { ByteClasses class_of }
    ensures label_form { LabelForm }
    ensures letters_and_bits { LettersAndBits }
{}

// The cases P1 to P12, further ones, and those of a new object.
pub fn either_side_of_a_limit()
    ensures cases_right { all right cases ≡ true }
    ensures further_cases_right { all right further_cases ≡ true }
    ensures new_object_cases_right { all right new_object_cases ≡ true }
{}

// 01's numbers, as they stand there: the refusals, the limits, and what a host gets for each case of an answer.
pub fn numbers_of_01()
    ensures { NumbersOf01 }
{}

// And what 02 adds to them.
pub fn numbers_of_02()
    ensures { NumbersOf02 }
{}

// 01's examples, byte for byte, and further ones.
pub fn examples_of_01()
    ensures { ExamplesOf01 }
{}

// Examples of 02: where the first bad byte is, in a line, a write and the report; what the program writes; that categories 0 and 185 are refused; and the
// retired letter b, in lines, in changes, in the report and in the program.
pub fn examples_of_02()
    ensures { ExamplesOf02 }
{}

// What each judged line does to the report's numbers; of the first refused line the number, the reason and the place are kept (02, Three); a line that held
// b counts once where it is accepted (02, Six).
pub fn what_a_line_counts()
    ensures { LineCounts }
{}

// Each of the seven rules as 01 says it, with the labels and the letters as text; and that a question is judged by these, in this order.
pub fn each_rule_of_01()
    ensures { EachRule }
{}
