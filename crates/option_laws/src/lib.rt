// What is written in a packet option is read from it (02, Five). Claims alone.
#![tactic(auto)]

ghost use Rattle.std.specs.Prelude.{◌≡◌, List, ℕ, take, Ok};
ghost use Rattle.store.specs.Table.{Table};
ghost use Rattle.store.specs.Layout.{Store, table_of};
ghost use Rattle.cipso_option.specs.Option.{option_answer, option_out};
ghost use Rattle.grown.specs.Grown.{Grown};
ghost use Rattle.option_laws.specs.Bitmap.{OptionBits};
ghost use Rattle.option_laws.specs.Says.{OptionSays};
ghost use Rattle.option_laws.specs.ReadsBack.{ReadsBack};
ghost use Rattle.option_laws.specs.Example.{OptionExamples};

// 02's example, and others, in numbers.
pub fn option_examples()
    ensures { OptionExamples }
{}

// What the written bytes have in them; that the reader takes what is written, and zero bytes behind it.
pub fn option_bits()
    ensures { OptionBits }
{}

// Of every table: a mapped label uses its mapping, an unmapped one of at most 23 bytes its own bits; and which label an option says.
pub fn what_an_option_says()
    ensures { (t : Table) → OptionSays t }
{}

// With one table, grown from a fresh one: reading what was written for a label gives the label back, unless a lower-numbered label has the same mapping.
pub fn option_reads_back()
    ensures { (st : Store) (l out : List ℕ) (n : ℕ) → Grown (table_of st) → option_answer st l out ≡ Ok n →
        ReadsBack st l (take n (option_out st l out)) }
{}
