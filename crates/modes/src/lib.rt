// Access modes: the letters r w x a t and their bits, read from text and written to it (01, Modes), and the retired letter b (02, Six).
#![tactic(auto)]

ghost use Rattle.std.specs.Prelude.{◌≡◌, ◌+◌, ◌≤◌, length};
ghost use Rattle.search.specs.Bytes.{written};
ghost use Rattle.modes.specs.Modes.{bit_of, read_modes, modes_text, LettersAndBits};
ghost use Rattle.modes.specs.Within.{bit_where};

// A letter and its bit.
#[derive(Clone, Copy, Debug, PartialEq, Eq)]
pub struct Letter {
    pub letter: u8,
    pub bit: u8,
}

// These letters in the order in which they are written out: r, w, x, a, t. Reading searches it, listing walks it.
const LETTERS: [Letter; 5] = [
    Letter {
        letter: b'r',
        bit: 32,
    },
    Letter {
        letter: b'w',
        bit: 16,
    },
    Letter {
        letter: b'x',
        bit: 8,
    },
    Letter {
        letter: b'a',
        bit: 4,
    },
    Letter {
        letter: b't',
        bit: 2,
    },
];

// The bit of b, the retired letter, in what is read of a line: a placeholder, which is never stored (02, Six).
pub const BRING_UP: u8 = 64;

const RETIRED: Letter = Letter {
    letter: b'b',
    bit: BRING_UP,
};

// The letters that a rule may have: r w x a t.
pub const RULE_LETTERS: u8 = 62;

// The letters that each place allows: a line's those of a rule and b, a change's those of a rule, a request's r w x a.
pub const LINE_LETTERS: u8 = RULE_LETTERS + BRING_UP;

pub const CHANGE_LETTERS: u8 = RULE_LETTERS;

pub const REQUEST_LETTERS: u8 = 60;

// The first letter, r: the bits go down by halves in the order of the letters.
pub const READ: u8 = 32;

// The letters w and t: the label of a new object goes by these (02, Seven).
pub const WRITE: u8 = 16;

pub const TRANSMUTE: u8 = 2;

// The bit that a small letter has and a capital one has not.
const SMALL: u8 = 32;

// The bit of a letter where a byte is that letter, and 0 where not.
fn bit_where(small: u8, entry: Letter) -> u8
    ensures { result ≡ bit_where small entry }
{
    if small == entry.letter { entry.bit } else { 0 }
}

// The bit of a letter in either case, or 0 for any other byte. A byte, with the bit SMALL set, is a small letter exactly where the byte is that
// letter in one case or the other. The whole table is searched, with no exit, since which letter it is can't be guessed.
fn bit_of(b: u8) -> u8
    ensures { result ≡ bit_of b }
{
    let small = b | SMALL;
    let mut bit = bit_where(small, RETIRED);
    for entry in LETTERS {
        bit |= bit_where(small, entry);
    }
    bit
}

// The claim that letters and bits are those that 01 and 02 say, that each place allows the bytes that they say, how a field is read and modes are written,
// which modes a table may store, and what is stored of a line's letters.
pub fn letters_and_bits()
    ensures { LettersAndBits }
{}

// The modes of an access field, which may have the letters of `allowed` and, where `dashes` says so, dashes; nothing where it has a byte not allowed there.
pub fn read_modes(field: &[u8], allowed: u8, dashes: bool) -> Option<u8>
    ensures { result ≡ read_modes allowed dashes field.now }
{
    let mut modes = 0;
    for b in field {
        let bit = bit_of(*b);
        if bit & allowed == 0 {
            if !dashes {
                return None;
            }
            if *b != alphabet::DASH {
                return None;
            }
        }
        modes |= bit;
    }
    Some(modes)
}

// Writes modes as text from index `at`, the letters in their order or a dash, and answers how many bytes that took. Who calls it has made
// sure that there is room for five.
pub fn write_modes(out: &mut [u8], at: usize, modes: u8) -> usize
    requires { at + 5 ≤ length out.old }
    ensures value { result ≡ length (modes_text modes) }
    ensures out_after { out.new ≡ written out.old at (modes_text modes) }
{
    if modes == 0 {
        out[at] = alphabet::DASH;
        return 1;
    }
    let mut n = 0;
    for entry in LETTERS {
        if modes & entry.bit != 0 {
            out[at + n] = entry.letter;
            n += 1;
        }
    }
    n
}
