// The refusals (01, The refusal numbers; 02), each a case. specs/Refusals.antt has the same names for the definitions, and each case's number and place.
#![tactic(auto)]

ghost use Rattle.std.specs.Prelude.{◌≡◌};
ghost use Rattle.refusals.specs.Refusals.{number_of, place_of};

#[derive(Clone, Copy, Debug, PartialEq, Eq)]
pub enum Refusal {
    // The lent state is damaged: it comes before every other.
    Damaged,
    // A line or a write has too many bytes.
    TooLong,
    // Wrong number of fields.
    WrongFields,
    // A label is not well formed, and this is the place of its first bad byte (02, Three), or 0 for calls that tell none.
    BadLabel { place: usize },
    // An access field has a byte not allowed there.
    BadAccess,
    // Subject equals object.
    SameLabels,
    // More new labels than free label places.
    LabelsFull,
    // The pair has no rule, and the table of rules is full.
    RulesFull,
    // The request is empty or has another byte.
    BadRequest,
    // A level is not as 01 says, or is 250 in a mapping write (02, Five); or a category is not as 02, Four, says.
    BadLevelOrCategory,
    // The label has no mapping, and the table of mappings is full.
    MappingsFull,
    // Too many different labels in an override list.
    TooManyOverrides,
    // The lent output is too short.
    OutputTooShort,
    // No rule or label of that number.
    NoSuchNumber,
    // No record of the fixed load form (02, One).
    BadRecord,
    // What a line says has no place in such a record.
    NotInARecord,
    // Bytes that are no packet option of the layout (02, Five).
    BadOption,
    // An option of another DOI.
    OtherDoi,
    // An option with category 0 or above 184.
    BadOptionCategory,
    // An unmapped label is too long for an option.
    NotInAnOption,
    // No mapping matches an option.
    NoSuchMapping,
}

impl Refusal {
    // The number that a host gets.
    pub fn number(self) -> u8
        ensures { result ≡ number_of self }
    {
        match self {
            Refusal::Damaged => 0,
            Refusal::TooLong => 1,
            Refusal::WrongFields => 2,
            Refusal::BadLabel { place: _ } => 3,
            Refusal::BadAccess => 4,
            Refusal::SameLabels => 5,
            Refusal::LabelsFull => 6,
            Refusal::RulesFull => 7,
            Refusal::BadRequest => 8,
            Refusal::BadLevelOrCategory => 9,
            Refusal::MappingsFull => 10,
            Refusal::TooManyOverrides => 11,
            Refusal::OutputTooShort => 12,
            Refusal::NoSuchNumber => 13,
            Refusal::BadRecord => 14,
            Refusal::NotInARecord => 15,
            Refusal::BadOption => 16,
            Refusal::OtherDoi => 17,
            Refusal::BadOptionCategory => 18,
            Refusal::NotInAnOption => 19,
            Refusal::NoSuchMapping => 21,
        }
    }

    // The place beside the number: beside any number but 3 it is 0.
    pub fn place(self) -> usize
        ensures { result ≡ place_of self }
    {
        match self {
            Refusal::BadLabel { place } => place,
            _ => 0,
        }
    }
}
