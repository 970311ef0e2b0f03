// The decimal numbers of levels and categories, and a set of categories as bits of three u64 (01, Mapping; 02, Four and Five).
#![tactic(auto)]

ghost use Rattle.std.specs.Prelude.{◌≡◌, ◌^◌, ◌<◌, length};
ghost use Rattle.numbers.specs.Numbers.{number_of, NumbersOfDigits};
ghost use Rattle.numbers.specs.Categories.{is_mapping_level, categories, with_category, same_set, known_set, CategorySets};
ghost use Rattle.numbers.specs.Within.{Category};

// Level 0 to 255, category 1 to 184.
pub const LEVEL_LIMIT: u64 = 255;

pub const CATEGORY_LIMIT: u64 = 184;

// The level at which an unmapped label goes as its own bits (02, Five).
pub const OWN_LEVEL: u64 = 250;

// A set of categories: a number of 192 bits, the highest 64 in `first`. Category 1 is the top bit, and the eight lowest are no category.
#[repr(C)]
#[derive(Clone, Copy, Debug, PartialEq, Eq)]
pub struct CategorySet {
    pub first: u64,
    pub second: u64,
    pub third: u64,
}

// The bit of category 184 in a set's third word: the lowest of a category. Those below it are none.
pub const LOWEST_CATEGORY_BIT: u64 = 256;

// The set of no category.
pub const NO_CATEGORIES: CategorySet = CategorySet {
    first: 0,
    second: 0,
    third: 0,
};

// The value of a field of 1 to 3 digits; nothing where it is no such field.
pub fn read_number(field: &[u8]) -> Option<u64>
    ensures { result ≡ number_of field.now }
{
    if field.len() < 1 {
        return None;
    }
    if field.len() > 3 {
        return None;
    }
    let mut value = 0;
    for &b in field {
        if b < b'0' {
            return None;
        }
        if b > b'9' {
            return None;
        }
        value = value * 10 + u64::from(b - b'0');
    }
    Some(value)
}

// The claim that a number is as 01 says: the definition's, and so, by the contract above, the code's.
pub fn numbers_of_digits()
    ensures { NumbersOfDigits }
{}

// Whether a mapping may be written at a level: 0 to 255, but not the one of labels as their own bits.
pub fn is_mapping_level(level: u64) -> bool
    ensures { result ≡ is_mapping_level level }
{
    (level <= LEVEL_LIMIT) & (level != OWN_LEVEL)
}

// The claim that a set is told by its categories and made of them: what one category more changes, that two sets with the same categories and no other bit
// are equal, and where each category lies.
pub fn category_sets()
    ensures { CategorySets }
{}

// A word with one bit, `place` places up. Who calls it has made sure that the word has that many.
fn one_bit(place: u64) -> u64
    requires { place < 64 }
    ensures { result ≡ 2 ^ place }
{
    1 << place
}

// A set with one category more. Who calls it has made sure that it is one of the 184: a mapping's categories are checked as they are read.
pub fn with_category(set: CategorySet, n: u64) -> CategorySet
    requires { Category n }
    ensures { result ≡ with_category set n }
{
    if n <= 64 {
        return CategorySet {
            first: set.first | one_bit(64 - n),
            second: set.second,
            third: set.third,
        };
    }
    if n <= 128 {
        return CategorySet {
            first: set.first,
            second: set.second | one_bit(128 - n),
            third: set.third,
        };
    }
    CategorySet {
        first: set.first,
        second: set.second,
        third: set.third | one_bit(192 - n),
    }
}

// Whether two sets are equal: all three words.
pub fn same_set(a: CategorySet, b: CategorySet) -> bool
    ensures { result ≡ same_set a b }
{
    a == b
}

// Whether a set has no other bit than those of categories.
pub fn known_set(set: CategorySet) -> bool
    ensures { result ≡ known_set set }
{
    set.third % LOWEST_CATEGORY_BIT == 0
}

// How many categories are in a set: the ones of its words, without the eight bits that are none.
pub fn category_count(set: CategorySet) -> u32
    ensures { result ≡ length (categories set) }
{
    u64::count_ones(set.first)
        + u64::count_ones(set.second)
        + u64::count_ones(set.third / LOWEST_CATEGORY_BIT)
}
