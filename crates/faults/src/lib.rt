// Demand 1, that bad input is refused by a number from the list, and by which; and what the place beside that number means: as contracts. The functions do
// nothing, and what each ensures is the claim, so the check names it as proved.
#![tactic(auto)]

ghost use Rattle.faults.specs.Faults.{FirstInOrder};
ghost use Rattle.faults.specs.Lengths.{RefusedForLength};
ghost use Rattle.faults.specs.Places.{PlaceOfTheFirstBadByte};

// Each call, and each line of rule text, is refused by the first number in 01's order, or in 02's, whose test holds, and by none exactly when none holds.
pub fn demand_1_refused_by_the_first()
    ensures { FirstInOrder }
{}

// Refusal 1 is given exactly where a line or a write has over 600 bytes, a mapping write over 1,000 (02, Four).
pub fn refused_for_its_length()
    ensures { RefusedForLength }
{}

// What the place beside a refusal's number means (02, Three): beside 3 every byte before it in its label is a label byte, and at it stands the fault that 02
// names, in the first bad label in order; beside any other number it is 0.
pub fn place_of_the_first_bad_byte()
    ensures { PlaceOfTheFirstBadByte }
{}
