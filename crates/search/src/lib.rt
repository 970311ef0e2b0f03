// What every table of the library shares: what a search answers, byte strings compared, copied and taken four bytes at a time, and a run of
// numbers held to a limit.
// Nothing here knows what a label or a rule is.
#![tactic(auto)]

ghost use Rattle.std.specs.Prelude.{◌≡◌, ◌+◌, ◌≤◌, min, ltb, length, take};
ghost use Rattle.search.specs.Search.{all};
ghost use Rattle.search.specs.Bytes.{same_bytes, written};
ghost use Rattle.search.specs.Within.{word_at, words_differ, second_four, third_four};

// Four bytes from an index on as one number, which the compiler reads at once. Who calls it has made sure that there are four.
pub fn word_at(bytes: &[u8], at: usize) -> u32
    requires { at + 4 ≤ length bytes.now }
    ensures { result ≡ word_at bytes.now at }
{
    u32::from_le_bytes([bytes[at], bytes[at + 1], bytes[at + 2], bytes[at + 3]])
}

// Where the second begins of the four fours that cover a string of 4 to 16 bytes; the first and the last begin at 0 and
// at n - 4. Who calls it has made sure that there are four bytes.
pub fn second_four(n: usize) -> usize
    requires { 4 ≤ n }
    ensures { result ≡ second_four n }
{
    let last = n - 4;
    if last < 4 { last } else { 4 }
}

// Where the third of them begins.
pub fn third_four(n: usize) -> usize
    ensures { result ≡ third_four n }
{
    if 8 < n { n - 8 } else { 0 }
}

// Whether two byte strings of the same length are equal. It reads all bytes, so that the compiler can take many at a time, and each once: what a
// comparison reads is counted (tests/question_reads), and `==` may read a byte again where two differ. `same_bytes` has compared the lengths.
fn all_same(a: &[u8], b: &[u8]) -> bool
    requires { length a.now ≡ length b.now }
    ensures { result ≡ same_bytes a.now b.now }
{
    let mut same = true;
    for i in 0..a.len() {
        same &= a[i] == b[i];
    }
    same
}

// Whether two byte strings of the same length differ in one of two words. `|` makes one branch of both tests. `same_bytes` has compared the
// lengths.
fn words_differ(a: &[u8], b: &[u8], i: usize, j: usize) -> bool
    requires { (length a.now ≡ length b.now) × (i + 4 ≤ length a.now) × (j + 4 ≤ length a.now) }
    ensures { result ≡ words_differ a.now b.now i j }
{
    (word_at(a, i) != word_at(b, i)) | (word_at(a, j) != word_at(b, j))
}

// Whether two byte strings are equal, all bytes. Most that differ do so in their length, their first byte or one of four words. These overlap:
// of 4 to 16 bytes they are all, so that within these no branch depends on how many there are.
pub fn same_bytes(a: &[u8], b: &[u8]) -> bool
    ensures { result ≡ same_bytes a.now b.now }
{
    let count = a.len();
    if (count == 0) | (b.len() == 0) {
        return count == b.len();
    }
    if (count != b.len()) | (a[0] != b[0]) {
        return false;
    }
    if count < 4 {
        return all_same(a, b);
    }
    if words_differ(a, b, 0, count - 4) {
        return false;
    }
    if words_differ(a, b, second_four(count), third_four(count)) {
        return false;
    }
    if count <= 16 {
        return true;
    }
    all_same(a, b)
}

// The smaller of two numbers.
pub fn smaller(a: u8, b: u8) -> u8
    ensures { result ≡ min a b }
{
    a.min(b)
}

// Writes `src` over `dst` from index `at`. Who calls it has made sure that it fits.
pub fn copy_at(dst: &mut [u8], at: usize, src: &[u8])
    requires { at + length src.now ≤ length dst.old }
    ensures { dst.new ≡ written dst.old at src.now }
{
    for i in 0..src.len() {
        dst[at + i] = src[i];
    }
}

// Whether the first `count` numbers of a run are all below `limit`. It reads all of them, so that the compiler can take many at a time.
// Who calls it has made sure that the run has that many.
pub fn all_below(run: &[u8], count: usize, limit: u8) -> bool
    requires { count ≤ length run.now }
    ensures { result ≡ all (λ x. ltb x limit) (take count run.now) }
{
    let mut ok = true;
    for x in &run[..count] {
        ok &= *x < limit;
    }
    ok
}
