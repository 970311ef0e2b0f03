// Old fixed records (02, One): a rule as the 53 bytes of the source's fixed load form, turned into a rule line and back. Nothing is lent but the
// two buffers.
#![tactic(auto)]

ghost use Rattle.std.specs.Prelude.{◌≡◌, true, ◌+◌, ◌<◌, ◌≤◌, length};
ghost use Rattle.modes.specs.Modes.{known_modes};
ghost use Rattle.search.specs.Bytes.{written};
ghost use Rattle.alphabet.specs.Alphabet.{label_longest};
ghost use Rattle.output.specs.Output.{text_answer, text_out};
ghost use Rattle.fixed_load.specs.Records.{label_place, record_access, five_letters, said_by, as_line, line_from, without_newline, in_places, if_it_fits, record_from, OldRecords};
ghost use Rattle.fixed_load.specs.Within.{placed};

use refusals::Refusal;

// The most bytes of a label in a record, the bytes of a label's place, where the access bytes begin, and the bytes of the record.
const RECORD_LABEL: usize = 23;

const LABEL_PLACE: usize = 24;

const ACCESS_FROM: usize = 48;

const RECORD_SIZE: usize = 53;

// How many access bytes there are.
const ACCESS_BYTES: usize = 5;

// How many bytes the label at the left of a place has; nothing where the place is all spaces, has another byte after a space or doesn't end in a
// space.
fn label_length(place: &[u8]) -> Option<usize>
    requires { length place.now ≡ label_place }
    ensures { result ≡ placed place.now }
{
    let mut count = 0;
    for i in 0..LABEL_PLACE {
        if place[i] != alphabet::SPACE {
            if count != i {
                return None;
            }
            count = i + 1;
        }
    }
    if count == 0 {
        return None;
    }
    if RECORD_LABEL < count {
        return None;
    }
    Some(count)
}

// The modes of the access bytes, each the letter of its place, in either case, or a dash; nothing where one is neither.
fn read_access(access: &[u8]) -> Option<u8>
    requires { length access.now ≡ 5 }
    ensures { result ≡ record_access access.now }
{
    let mut modes = 0;
    let mut bit = modes::READ;
    for i in 0..ACCESS_BYTES {
        modes |= modes::read_modes(&access[i..i + 1], bit, true)?;
        bit >>= 1;
    }
    Some(modes)
}

// Writes modes as access bytes from index `at`, each the letter of its place or a dash. Who calls it has made sure that there is room for nine, since
// `write_modes` wants room for five from the fifth of them on too.
fn write_access(out: &mut [u8], at: usize, modes: u8)
    requires { (at + 9 ≤ length out.old) × (known_modes modes ≡ true) }
    ensures { out.new ≡ written out.old at (in_places five_letters modes) }
{
    let mut bit = modes::READ;
    for i in 0..ACCESS_BYTES {
        modes::write_modes(out, at + i, modes & bit);
        bit >>= 1;
    }
}

// A rule by its two labels and its access bytes as a line, in the listing's form, at the front of `out`; or refused with 3, 4, 5 or 12.
fn put_line(out: &mut [u8], subject: &[u8], object: &[u8], access: &[u8]) -> Result<usize, Refusal>
    requires { (length subject.now ≤ label_longest) × (length object.now ≤ label_longest) × (length access.now ≡ 5) }
    ensures value { result ≡ text_answer (as_line (said_by subject.now object.now access.now)) out.old }
    ensures out_after { out.new ≡ text_out (as_line (said_by subject.now object.now access.now)) out.old }
{
    if !alphabet::well_formed(subject) {
        return Err(Refusal::BadLabel { place: 0 });
    }
    if !alphabet::well_formed(object) {
        return Err(Refusal::BadLabel { place: 0 });
    }
    let Some(m) = read_access(access) else {
        return Err(Refusal::BadAccess);
    };
    if search::same_bytes(subject, object) {
        return Err(Refusal::SameLabels);
    }
    let mut text = [0u8; 5];
    let n = modes::write_modes(&mut text, 0, m);
    rule_text::put_text(out, subject, object, &text[0..n])
}

// A record as a rule line, in the listing's form, at the front of `out`. Both label places are judged before either label.
pub fn record_to_line(bytes: &[u8], out: &mut [u8]) -> Result<usize, Refusal>
    ensures value { result ≡ text_answer (line_from bytes.now) out.old }
    ensures out_after { out.new ≡ text_out (line_from bytes.now) out.old }
{
    if bytes.len() != RECORD_SIZE {
        return Err(Refusal::BadRecord);
    }
    let Some(s) = label_length(&bytes[0..LABEL_PLACE]) else {
        return Err(Refusal::BadRecord);
    };
    let Some(o) = label_length(&bytes[LABEL_PLACE..ACCESS_FROM]) else {
        return Err(Refusal::BadRecord);
    };
    put_line(
        out,
        &bytes[0..s],
        &bytes[LABEL_PLACE..LABEL_PLACE + o],
        &bytes[ACCESS_FROM..RECORD_SIZE],
    )
}

// A line without its closing newline.
fn without_newline<'a>(line: &'a [u8]) -> &'a [u8]
    ensures { result.now ≡ without_newline line.now }
{
    let count = line.len();
    if count == 0 {
        return line;
    }
    if line[count - 1] != alphabet::NEWLINE {
        return line;
    }
    &line[0..count - 1]
}

// A rule as a record at the front of `out`, or refused where a label is over 23 bytes.
fn put_record(out: &mut [u8], subject: &[u8], object: &[u8], modes: u8) -> Result<usize, Refusal>
    requires { known_modes modes ≡ true }
    ensures value { result ≡ text_answer (if_it_fits subject.now object.now modes) out.old }
    ensures out_after { out.new ≡ text_out (if_it_fits subject.now object.now modes) out.old }
{
    if RECORD_LABEL < subject.len() {
        return Err(Refusal::NotInARecord);
    }
    if RECORD_LABEL < object.len() {
        return Err(Refusal::NotInARecord);
    }
    // 53 bytes, and as many more as `write_access` wants.
    let mut text = [alphabet::SPACE; 57];
    search::copy_at(&mut text, 0, subject);
    search::copy_at(&mut text, LABEL_PLACE, object);
    write_access(&mut text, ACCESS_FROM, modes);
    output::put(out, &text[0..RECORD_SIZE])
}

// A rule line, with or without its closing newline, as a record at the front of `out`.
pub fn line_to_record(line: &[u8], out: &mut [u8]) -> Result<usize, Refusal>
    ensures value { result ≡ text_answer (record_from line.now) out.old }
    ensures out_after { out.new ≡ text_out (record_from line.now) out.old }
{
    let text = without_newline(line);
    let Some(rule) = lines::rule_line(text)? else {
        return Err(Refusal::WrongFields);
    };
    let a = rule.labels.subject.start;
    let b = rule.labels.subject.end;
    let c = rule.labels.object.start;
    let d = rule.labels.object.end;
    put_record(out, &text[a..b], &text[c..d], rule.modes)
}

// The claim that records and lines go there and back as 02 says.
pub fn records_there_and_back()
    ensures { OldRecords }
{}
