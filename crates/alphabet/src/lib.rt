// The bytes of labels and lines: the class of each byte, what a well-formed label is, and the fields of a line (01, Labels and Rule text).
#![tactic(auto)]

ghost use Rattle.std.specs.Prelude.{◌≡◌, true, false, IfOk, IfErr, ◌+◌, ◌≤◌, drop, get_or, length};
ghost use Rattle.refusals.specs.Refusals.{bad_label_at};
ghost use Rattle.alphabet.specs.Alphabet.{label_byte, class_of, ByteClasses, well_formed, fault_of, bad_byte, bad_byte_in, FieldsOfALine, FirstBadByte};
ghost use Rattle.alphabet.specs.Within.{class_table, text_longest, run, field_at, label_field_at, label_bytes, high_bit};

use refusals::Refusal;

// The bytes that have a part of their own.
pub const NEWLINE: u8 = b'\n';

pub const SPACE: u8 = b' ';

pub const DASH: u8 = b'-';

// The most bytes of a label; of a line, and of every single write but a mapping.
pub const LABEL_LONGEST: usize = 255;

pub const LINE_LIMIT: usize = 600;

// The numbers of the four classes in the table below: a byte of a label, a blank, the end of a line, any other.
pub const IN_A_LABEL: u8 = 0;

pub const BLANK: u8 = 1;

pub const ENDS_A_LINE: u8 = 2;

pub const OTHER: u8 = 3;

// The class of each of the 256 byte values.
const CLASSES: [u8; 256] = [
    OTHER, // 0
    OTHER, // 1
    OTHER, // 2
    OTHER, // 3
    OTHER, // 4
    OTHER, // 5
    OTHER, // 6
    OTHER, // 7
    OTHER, // 8
    BLANK, // 9, tab
    ENDS_A_LINE, // 10, newline
    OTHER, // 11
    OTHER, // 12
    OTHER, // 13
    OTHER, // 14
    OTHER, // 15
    OTHER, // 16
    OTHER, // 17
    OTHER, // 18
    OTHER, // 19
    OTHER, // 20
    OTHER, // 21
    OTHER, // 22
    OTHER, // 23
    OTHER, // 24
    OTHER, // 25
    OTHER, // 26
    OTHER, // 27
    OTHER, // 28
    OTHER, // 29
    OTHER, // 30
    OTHER, // 31
    BLANK, // 32, space
    IN_A_LABEL, // 33, !
    OTHER, // 34, "
    IN_A_LABEL, // 35, #
    IN_A_LABEL, // 36, $
    IN_A_LABEL, // 37, %
    IN_A_LABEL, // 38, &
    OTHER, // 39, '
    IN_A_LABEL, // 40, (
    IN_A_LABEL, // 41, )
    IN_A_LABEL, // 42, *
    IN_A_LABEL, // 43, +
    IN_A_LABEL, // 44, ,
    IN_A_LABEL, // 45, -
    IN_A_LABEL, // 46, .
    OTHER, // 47, /
    IN_A_LABEL, // 48, 0
    IN_A_LABEL, // 49, 1
    IN_A_LABEL, // 50, 2
    IN_A_LABEL, // 51, 3
    IN_A_LABEL, // 52, 4
    IN_A_LABEL, // 53, 5
    IN_A_LABEL, // 54, 6
    IN_A_LABEL, // 55, 7
    IN_A_LABEL, // 56, 8
    IN_A_LABEL, // 57, 9
    IN_A_LABEL, // 58, :
    IN_A_LABEL, // 59, ;
    IN_A_LABEL, // 60, <
    IN_A_LABEL, // 61, =
    IN_A_LABEL, // 62, >
    IN_A_LABEL, // 63, ?
    IN_A_LABEL, // 64, @
    IN_A_LABEL, // 65, A
    IN_A_LABEL, // 66, B
    IN_A_LABEL, // 67, C
    IN_A_LABEL, // 68, D
    IN_A_LABEL, // 69, E
    IN_A_LABEL, // 70, F
    IN_A_LABEL, // 71, G
    IN_A_LABEL, // 72, H
    IN_A_LABEL, // 73, I
    IN_A_LABEL, // 74, J
    IN_A_LABEL, // 75, K
    IN_A_LABEL, // 76, L
    IN_A_LABEL, // 77, M
    IN_A_LABEL, // 78, N
    IN_A_LABEL, // 79, O
    IN_A_LABEL, // 80, P
    IN_A_LABEL, // 81, Q
    IN_A_LABEL, // 82, R
    IN_A_LABEL, // 83, S
    IN_A_LABEL, // 84, T
    IN_A_LABEL, // 85, U
    IN_A_LABEL, // 86, V
    IN_A_LABEL, // 87, W
    IN_A_LABEL, // 88, X
    IN_A_LABEL, // 89, Y
    IN_A_LABEL, // 90, Z
    IN_A_LABEL, // 91, [
    OTHER, // 92, \
    IN_A_LABEL, // 93, ]
    IN_A_LABEL, // 94, ^
    IN_A_LABEL, // 95, _
    IN_A_LABEL, // 96, `
    IN_A_LABEL, // 97, a
    IN_A_LABEL, // 98, b
    IN_A_LABEL, // 99, c
    IN_A_LABEL, // 100, d
    IN_A_LABEL, // 101, e
    IN_A_LABEL, // 102, f
    IN_A_LABEL, // 103, g
    IN_A_LABEL, // 104, h
    IN_A_LABEL, // 105, i
    IN_A_LABEL, // 106, j
    IN_A_LABEL, // 107, k
    IN_A_LABEL, // 108, l
    IN_A_LABEL, // 109, m
    IN_A_LABEL, // 110, n
    IN_A_LABEL, // 111, o
    IN_A_LABEL, // 112, p
    IN_A_LABEL, // 113, q
    IN_A_LABEL, // 114, r
    IN_A_LABEL, // 115, s
    IN_A_LABEL, // 116, t
    IN_A_LABEL, // 117, u
    IN_A_LABEL, // 118, v
    IN_A_LABEL, // 119, w
    IN_A_LABEL, // 120, x
    IN_A_LABEL, // 121, y
    IN_A_LABEL, // 122, z
    IN_A_LABEL, // 123, {
    IN_A_LABEL, // 124, |
    IN_A_LABEL, // 125, }
    IN_A_LABEL, // 126, ~
    OTHER, // 127, delete
    OTHER, // 128
    OTHER, // 129
    OTHER, // 130
    OTHER, // 131
    OTHER, // 132
    OTHER, // 133
    OTHER, // 134
    OTHER, // 135
    OTHER, // 136
    OTHER, // 137
    OTHER, // 138
    OTHER, // 139
    OTHER, // 140
    OTHER, // 141
    OTHER, // 142
    OTHER, // 143
    OTHER, // 144
    OTHER, // 145
    OTHER, // 146
    OTHER, // 147
    OTHER, // 148
    OTHER, // 149
    OTHER, // 150
    OTHER, // 151
    OTHER, // 152
    OTHER, // 153
    OTHER, // 154
    OTHER, // 155
    OTHER, // 156
    OTHER, // 157
    OTHER, // 158
    OTHER, // 159
    OTHER, // 160
    OTHER, // 161
    OTHER, // 162
    OTHER, // 163
    OTHER, // 164
    OTHER, // 165
    OTHER, // 166
    OTHER, // 167
    OTHER, // 168
    OTHER, // 169
    OTHER, // 170
    OTHER, // 171
    OTHER, // 172
    OTHER, // 173
    OTHER, // 174
    OTHER, // 175
    OTHER, // 176
    OTHER, // 177
    OTHER, // 178
    OTHER, // 179
    OTHER, // 180
    OTHER, // 181
    OTHER, // 182
    OTHER, // 183
    OTHER, // 184
    OTHER, // 185
    OTHER, // 186
    OTHER, // 187
    OTHER, // 188
    OTHER, // 189
    OTHER, // 190
    OTHER, // 191
    OTHER, // 192
    OTHER, // 193
    OTHER, // 194
    OTHER, // 195
    OTHER, // 196
    OTHER, // 197
    OTHER, // 198
    OTHER, // 199
    OTHER, // 200
    OTHER, // 201
    OTHER, // 202
    OTHER, // 203
    OTHER, // 204
    OTHER, // 205
    OTHER, // 206
    OTHER, // 207
    OTHER, // 208
    OTHER, // 209
    OTHER, // 210
    OTHER, // 211
    OTHER, // 212
    OTHER, // 213
    OTHER, // 214
    OTHER, // 215
    OTHER, // 216
    OTHER, // 217
    OTHER, // 218
    OTHER, // 219
    OTHER, // 220
    OTHER, // 221
    OTHER, // 222
    OTHER, // 223
    OTHER, // 224
    OTHER, // 225
    OTHER, // 226
    OTHER, // 227
    OTHER, // 228
    OTHER, // 229
    OTHER, // 230
    OTHER, // 231
    OTHER, // 232
    OTHER, // 233
    OTHER, // 234
    OTHER, // 235
    OTHER, // 236
    OTHER, // 237
    OTHER, // 238
    OTHER, // 239
    OTHER, // 240
    OTHER, // 241
    OTHER, // 242
    OTHER, // 243
    OTHER, // 244
    OTHER, // 245
    OTHER, // 246
    OTHER, // 247
    OTHER, // 248
    OTHER, // 249
    OTHER, // 250
    OTHER, // 251
    OTHER, // 252
    OTHER, // 253
    OTHER, // 254
    OTHER, // 255
];

// The table above, for a function that looks at many bytes and has it at hand once, not once a byte. No other function reads it, and of its
// entries this contract says all: each is the class that the definition gives, and that 01 gives, to its byte.
pub fn classes() -> [u8; 256]
    ensures value { result ≡ class_table }
    ensures byte_classes { ByteClasses (λ b. get_or result b 0) }
{
    CLASSES
}

// The claim that the class of a byte is the one that 01 says: the definition's, and so, by the contract above, the code's.
pub fn byte_classes()
    ensures { ByteClasses class_of }
{}

// The class of a byte, in the table that `classes` gives.
fn class(classes: &[u8], b: u8) -> u8
    requires { classes.now ≡ class_table }
    ensures { result ≡ class_of b }
{
    classes[b as usize]
}

// The place of the first fault of a label, or nothing where it is well formed: 0 for an empty label and for a leading dash, 255 for one
// that is too long and has no earlier fault.
pub fn label_fault(label: &[u8]) -> Option<usize>
    ensures { result ≡ fault_of label.now }
{
    if label.len() == 0 {
        return Some(0);
    }
    if label[0] == DASH {
        return Some(0);
    }
    let classes = classes();
    for (i, b) in label.iter().enumerate() {
        if i == LABEL_LONGEST {
            return Some(LABEL_LONGEST);
        }
        if class(&classes, *b) != IN_A_LABEL {
            return Some(i);
        }
    }
    None
}

// Refusal 3 of a label that is not well formed, with the place of its first bad byte.
pub fn bad_label(label: &[u8]) -> Refusal
    ensures { result ≡ bad_label_at (bad_byte label.now) }
{
    match label_fault(label) {
        Some(place) => Refusal::BadLabel { place },
        None => Refusal::BadLabel { place: 0 },
    }
}

// The same of a label that is a field of a text, with the place in that text, of which it begins at `start`. Who calls it has tested how long the text is.
pub fn bad_label_at(label: &[u8], start: usize) -> Refusal
    requires { start ≤ text_longest }
    ensures { result ≡ bad_label_at (start + bad_byte label.now) }
{
    Refusal::BadLabel {
        place: start + bad_label(label).place(),
    }
}

// The first byte past those of labels.
const DELETE: u8 = 127;

// 128 or more exactly where a byte is a label byte, class 0 of the table above: without the table or a branch, so that the compiler can take many
// bytes at a time. Of the low seven bits v: v + 95 is 128 or more where v is 33 or more, and (v ^ c) + 127 where v is not c; ' and / differ in the
// bit 8 alone, so one test serves both. b ^ 255 is 128 or more where b is below 128. `&` keeps the bit 128 where all six have it. Which number it
// is beyond that is left open, here and in the four functions that follow: nobody reads it.
fn label_high(b: u8) -> u8
    ensures { high_bit result ≡ label_byte b }
{
    let v = b & 127;
    (v + 95)
        & ((v ^ b'"') + 127)
        & (((v | 8) ^ b'/') + 127)
        & ((v ^ b'\\') + 127)
        & ((v ^ DELETE) + 127)
        & (b ^ 255)
}

// 128 or more exactly where the N bytes of a label from an index on are label bytes. How many is a constant, so that the compiler can take them
// at once; the smaller of two numbers is 128 or more where both are. Who calls it has made sure that the label has that many.
fn lowest_of<const N: usize>(label: &[u8], at: usize) -> u8
    requires { at + N ≤ length label.now }
    ensures { high_bit result ≡ label_bytes label.now at (at + N) }
{
    let mut low = 255;
    for i in 0..N {
        low = search::smaller(low, label_high(label[at + i]));
    }
    low
}

// 128 or more exactly where every byte of a label is a label byte. From 4 bytes on it looks at parts of one size; the last part ends where the label
// does, and so parts may overlap.
fn lowest(label: &[u8]) -> u8
    ensures { high_bit result ≡ label_bytes label.now 0 (length label.now) }
{
    let n = label.len();
    if n < 4 {
        let mut low = 255;
        for b in label {
            low = search::smaller(low, label_high(*b));
        }
        return low;
    }
    if n <= 16 {
        let second = search::second_four(n);
        let third = search::third_four(n);
        return search::smaller(
            search::smaller(lowest_of::<4>(label, 0), lowest_of::<4>(label, second)),
            search::smaller(lowest_of::<4>(label, third), lowest_of::<4>(label, n - 4)),
        );
    }
    if n < 32 {
        return search::smaller(lowest_of::<16>(label, 0), lowest_of::<16>(label, n - 16));
    }
    let mut low = lowest_of::<32>(label, n - 32);
    let mut i = 0;
    while i + 32 < n {
        low = search::smaller(low, lowest_of::<32>(label, i));
        i += 32;
    }
    low
}

// Whether a label is well formed; where it is not, `label_fault` says at which byte.
pub fn well_formed(label: &[u8]) -> bool
    ensures { result ≡ well_formed label.now }
{
    let n = label.len();
    if (n == 0) | (LABEL_LONGEST < n) {
        return false;
    }
    (127 < lowest(label)) & (label[0] != DASH)
}

// That a label is well formed, or refusal 3 with the place of its first bad byte.
pub fn check_label(label: &[u8]) -> Result<(), Refusal>
    ensures ok { IfOk result (λ _. well_formed label.now ≡ true) }
    ensures err { IfErr result (λ why. (why ≡ bad_label_at (bad_byte label.now)) × (well_formed label.now ≡ false)) }
{
    if !well_formed(label) {
        return Err(bad_label(label));
    }
    Ok(())
}

// What a field reader answers: where the next field starts and where it ends, which is where the reader goes on; or that none is left.
#[derive(Clone, Copy, Debug, PartialEq, Eq)]
pub enum Field {
    Part { start: usize, end: usize },
    End,
}

// The first index from `from` on whose byte is no blank (or, with `blanks` false, is one), or the end of the line.
fn skip(classes: &[u8], line: &[u8], from: usize, blanks: bool) -> usize
    requires { classes.now ≡ class_table }
    ensures { result ≡ from + run blanks (drop from line.now) }
{
    for i in from..line.len() {
        if (class(classes, line[i]) == BLANK) != blanks {
            return i;
        }
    }
    from.max(line.len())
}

// The next field of a line from an index on: a longest run of bytes that are no blanks. Who calls it lends the table that `classes` gives.
pub fn next_field_in(classes: &[u8], line: &[u8], from: usize) -> Field
    requires { classes.now ≡ class_table }
    ensures { result ≡ field_at line.now from }
{
    let start = skip(classes, line, from, true);
    if line.len() <= start {
        return Field::End;
    }
    let end = skip(classes, line, start, false);
    Field::Part { start, end }
}

// The same for who has no table at hand.
pub fn next_field(line: &[u8], from: usize) -> Field
    ensures { result ≡ field_at line.now from }
{
    let classes = classes();
    next_field_in(&classes, line, from)
}

// A field with whether its bytes are a well-formed label; or that none is left.
#[derive(Clone, Copy, Debug, PartialEq, Eq)]
pub enum LabelField {
    Part {
        start: usize,
        end: usize,
        formed: bool,
    },
    End,
}

// The next field of a line from an index on, judged as a label in the pass that finds its end. The classes of its bytes are joined by or, which
// leaves the class of a label byte, 0, exactly where each has it. Who calls it lends the table that `classes` gives.
pub fn next_label_field(classes: &[u8], line: &[u8], from: usize) -> LabelField
    requires { classes.now ≡ class_table }
    ensures { result ≡ label_field_at line.now from }
{
    let mut end = skip(classes, line, from, true);
    if line.len() <= end {
        return LabelField::End;
    }
    let start = end;
    let mut joined = IN_A_LABEL;
    for b in &line[start..] {
        let class = class(classes, *b);
        if class == BLANK {
            break;
        }
        joined = joined | class;
        end += 1;
    }
    let formed = (joined == IN_A_LABEL) & (end - start <= LABEL_LONGEST) & (line[start] != DASH);
    LabelField::Part { start, end, formed }
}

// The claim that the fields of a line are those that 01 says: the longest runs of bytes that are neither space nor tab.
pub fn fields_of_a_line()
    ensures { FieldsOfALine }
{}

// Refusal 3 of a line or a write with a field that is no label, with the place of the first bad byte of the first such field. Who calls it has tested
// how long the text is.
pub fn bad_label_in(text: &[u8]) -> Refusal
    requires { length text.now ≤ text_longest }
    ensures { result ≡ bad_label_at (bad_byte_in text.now) }
{
    let classes = classes();
    let mut at = 0;
    loop {
        let LabelField::Part { start, end, formed } = next_label_field(&classes, text, at) else {
            return Refusal::BadLabel { place: 0 };
        };
        if !formed {
            return bad_label_at(&text[start..end], start);
        }
        at = end;
    }
}

// The claim that the place of the first bad byte is the one that 02 says, in a label and in a text.
pub fn first_bad_byte()
    ensures { FirstBadByte }
{}
