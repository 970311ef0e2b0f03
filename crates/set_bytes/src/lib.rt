// A set of categories as bytes, in the two orders of 02, Five: that of an option's bitmap, and that of a label's own bits.
#![tactic(auto)]

ghost use Rattle.std.specs.Prelude.{◌≡◌, ◌+◌, ◌<◌, ◌≤◌, length, get_or};
ghost use Rattle.search.specs.Search.{entries};
ghost use Rattle.search.specs.Bytes.{written};
ghost use Rattle.numbers.specs.Categories.{byte_of};
ghost use Rattle.set_bytes.specs.SetBytes.{bitmap_bytes, set_of_bitmap, only_categories, own_bytes, set_of_own, BitsAndCategories};
ghost use Rattle.set_bytes.specs.Within.{word_from, halved};

use numbers::CategorySet;

// The claim of what bits, bytes and categories say of each other, in both orders.
pub fn bits_and_categories()
    ensures { BitsAndCategories }
{}

// Byte i, or 0 behind the last.
fn byte_at(bytes: &[u8], i: usize) -> u8
    ensures { result ≡ get_or bytes.now i 0 }
{
    if i < bytes.len() { bytes[i] } else { 0 }
}

// Eight bytes from an index on as one number, the highest first; behind the last byte they are 0.
fn word_from(bytes: &[u8], i: usize) -> u64
    requires { i ≤ 16 }
    ensures { result ≡ word_from bytes.now i }
{
    byte_at(bytes, i) as u64 * 72057594037927936
        + byte_at(bytes, i + 1) as u64 * 281474976710656
        + byte_at(bytes, i + 2) as u64 * 1099511627776
        + byte_at(bytes, i + 3) as u64 * 4294967296
        + byte_at(bytes, i + 4) as u64 * 16777216
        + byte_at(bytes, i + 5) as u64 * 65536
        + byte_at(bytes, i + 6) as u64 * 256
        + byte_at(bytes, i + 7) as u64
}

// Byte i of the 24 of a set's words. Who calls it has made sure that there is one.
fn byte_of(first: u64, second: u64, third: u64, i: usize) -> u8
    requires { i < 24 }
    ensures { result ≡ byte_of (record { first = first; second = second; third = third }) i }
{
    if i < 8 {
        return ((first >> (56 - 8 * (i as u64))) % 256) as u8;
    }
    if i < 16 {
        return ((second >> (120 - 8 * (i as u64))) % 256) as u8;
    }
    ((third >> (184 - 8 * (i as u64))) % 256) as u8
}

// Writes the first `count` of these bytes from an index on. Who calls it has made sure that there is room for them.
fn write_bytes(out: &mut [u8], at: usize, first: u64, second: u64, third: u64, count: usize)
    requires { (count ≤ 24) × (at + count ≤ length out.old) }
    ensures { out.new ≡
        written out.old at (entries (byte_of (record { first = first; second = second; third = third })) count) }
{
    for i in 0..count {
        out[at + i] = byte_of(first, second, third, i);
    }
}

// The number of a set's words one bit further down.
fn halve(set: CategorySet) -> CategorySet
    ensures { result ≡ halved set }
{
    CategorySet {
        first: set.first / 2,
        second: set.first % 2 * 9223372036854775808 + set.second / 2,
        third: set.second % 2 * 9223372036854775808 + set.third / 2,
    }
}

// Writes the 24 bytes of a set's bitmap from an index on. Who calls it has made sure that there is room for them.
pub fn write_bitmap(out: &mut [u8], at: usize, set: CategorySet)
    requires { at + 24 ≤ length out.old }
    ensures { out.new ≡ written out.old at (bitmap_bytes set) }
{
    let half = halve(set);
    write_bytes(out, at, half.first, half.second, half.third, 24);
}

// Writes the 23 bytes whose own bits are a set's categories, in front. Who calls it has made sure that there is room for them.
pub fn write_own(out: &mut [u8], set: CategorySet)
    requires { 23 ≤ length out.old }
    ensures { out.new ≡ written out.old 0 (own_bytes set) }
{
    write_bytes(out, 0, set.first, set.second, set.third, 23);
}

// The set of a bitmap's categories.
pub fn set_of_bitmap(bitmap: &[u8]) -> CategorySet
    ensures { result ≡ set_of_bitmap bitmap.now }
{
    let first = word_from(bitmap, 0);
    let second = word_from(bitmap, 8);
    let third = word_from(bitmap, 16);
    CategorySet {
        first: first % 9223372036854775808 * 2 + second / 9223372036854775808,
        second: second % 9223372036854775808 * 2 + third / 9223372036854775808,
        third: third % 9223372036854775808 / 128 * 256,
    }
}

// The set of the categories that bytes have as their own bits.
pub fn set_of_own(bytes: &[u8]) -> CategorySet
    ensures { result ≡ set_of_own bytes.now }
{
    CategorySet {
        first: word_from(bytes, 0),
        second: word_from(bytes, 8),
        third: word_from(bytes, 16) / 256 * 256,
    }
}

// Whether each bit of a bitmap that is 1 is a category: not bit 0, and none above 184, which is the top bit of byte 23. Who calls it has made sure that
// there are at most 30 bytes.
#[tactic(auto, using(crate::proofs::Laws::first_bit))]
pub fn only_categories(bitmap: &[u8]) -> bool
    requires { length bitmap.now ≤ 30 }
    ensures { result ≡ only_categories bitmap.now }
{
    if 128 <= byte_at(bitmap, 0) {
        return false;
    }
    if byte_at(bitmap, 23) % 128 != 0 {
        return false;
    }
    for i in 24..bitmap.len() {
        if bitmap[i] != 0 {
            return false;
        }
    }
    true
}
