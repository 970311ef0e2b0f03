// What the program writes for what it reads (01, What the program reads and writes): rule text, the first line that is exactly `?`, then
// question lines. The input comes in pieces, cut anywhere. The line under way is the loader's: a line of rule text, whose last may turn out to be
// `?`, and once the rule text has ended a question line.
#![tactic(auto)]

ghost use Rattle.std.specs.Prelude.{◌≡◌, true, suc, ◌+◌, ◌*◌, ◌≤◌, length};
ghost use Rattle.alphabet.specs.Alphabet.{line_limit, fields};
ghost use Rattle.store.specs.Layout.{store};
ghost use Rattle.store.specs.Lent.{lent_mut, SameSlices};
ghost use Rattle.store.specs.LentWithin.{lent};
ghost use Rattle.store.specs.Judged.{fresh_store};
ghost use Rattle.access.specs.Access.{question_of};
ghost use Rattle.program.specs.Program.{asked};
ghost use Rattle.program.specs.Turns.{went_count};
ghost use Rattle.program.specs.Steps as steps;
ghost use Rattle.program.specs.Within as within;
ghost use Rattle.replies.specs.Replies.{line_room};

use access::Answer;
use alphabet::Field;
use refusals::Refusal;
use reports::Loader;
use store::{Lent, LentMut};

// A line that is exactly this byte ends the rule text.
const MARK: u8 = b'?';

// The most bytes of a line that is written: so many for each byte of input are room enough.
pub const LINE_ROOM: usize = replies::LINE_ROOM;

// The session between two calls: whether rule text is still read, and the loader, whose kept line is the line under way.
#[derive(Clone, Copy, Debug, PartialEq, Eq)]
pub struct Session {
    pub loading: bool,
    pub loader: Loader,
}

// Why a call did nothing: the output may be too short for what the call says, or the lent state is damaged. Otherwise it answers the session to go on with
// and how many bytes it put at the front of the output.
#[derive(Clone, Copy, Debug, PartialEq, Eq)]
pub enum Declined {
    NoRoom,
    Damaged,
}

// The loader and the index of the output where the next byte goes.
#[derive(Clone, Copy, Debug, PartialEq, Eq)]
struct Step {
    loader: Loader,
    at: usize,
}

// Begins: a fresh table in the lent memory, and a fresh session.
pub fn begin(labels: &mut [u8], entries: &[u8], words: &mut [u64]) -> Session
    ensures value { result ≡ steps.fresh_session }
    ensures stored { store labels.new entries.now words.new ≡ fresh_store (store labels.old entries.now words.old) }
{
    let _ = store::fresh_table(labels, entries, words);
    let loading = true;
    Session {
        loading,
        loader: reports::fresh(),
    }
}

// Whether the line under way is exactly `?`.
fn is_mark(line: &[u8], l: Loader) -> bool
    ensures { result ≡ steps.at_mark line.now l }
{
    if l.kept != 1 {
        return false;
    }
    if line.len() == 0 {
        return false;
    }
    line[0] == MARK
}

// The loader without the line under way, where that is exactly `?`.
fn unmarked(line: &[u8], l: Loader) -> Loader
    ensures { result ≡ steps.unmarked line.now l }
{
    if is_mark(line, l) {
        return reports::keep(l, 0);
    }
    l
}

// How many bytes of the input are rule text that goes to the loader: those before the newline that ends the first line that is exactly `?`, or all.
// `empty` and `marked` say of the line under way whether it has no byte, and whether it is exactly `?`.
fn text_end(input: &[u8], empty: bool, marked: bool) -> usize
    ensures { result ≡ within.text_end empty marked input.now }
{
    let mut none = empty;
    let mut lone = marked;
    for (i, b) in input.iter().enumerate() {
        if lone & (*b == alphabet::NEWLINE) {
            return i;
        }
        lone = none & (*b == MARK);
        none = *b == alphabet::NEWLINE;
    }
    input.len()
}

// The answer to a question line that is not too long: refusal 2 before the question's own. It is asked of a state that `feed` or `finish` has tested, so
// that 0 comes first.
fn question_line(state: Lent, line: &[u8]) -> Answer
    ensures { result ≡ asked (question_of (lent state.entry)) (fields line.now) }
{
    let Field::Part { start: a, end: b } = alphabet::next_field(line, 0) else {
        return Answer::Refused(Refusal::WrongFields);
    };
    let Field::Part { start: c, end: d } = alphabet::next_field(line, b) else {
        return Answer::Refused(Refusal::WrongFields);
    };
    let Field::Part { start: e, end: f } = alphabet::next_field(line, d) else {
        return Answer::Refused(Refusal::WrongFields);
    };
    let Field::Part { start: g, end: h } = alphabet::next_field(line, f) else {
        return access::question(state, &line[a..b], &line[c..d], &line[e..f], false);
    };
    let Field::End = alphabet::next_field(line, h) else {
        return Answer::Refused(Refusal::WrongFields);
    };
    if search::same_bytes(&line[g..h], b"o") {
        return access::question(state, &line[a..b], &line[c..d], &line[e..f], true);
    }
    Answer::Refused(Refusal::WrongFields)
}

// Answers the question line that is kept, from index `at` of the output on. Who calls it has tested the line's size and the room.
fn answer_line(state: Lent, line: &[u8], out: &mut [u8], kept: usize, at: usize) -> usize
    requires { (length line.now ≡ line_limit) × (at + line_room ≤ length out.old) }
    ensures { within.Answers (lent state.entry) line.now kept out.old at out.new result }
{
    if alphabet::LINE_LIMIT < kept {
        return replies::write_answer(out, at, Answer::Refused(Refusal::TooLong));
    }
    let answer = question_line(state, &line[..kept]);
    replies::write_answer(out, at, answer)
}

// Takes question lines: each is answered at its newline, from index `from` of the output on. Who calls it has tested the line's size and the room.
fn answer_lines(
    state: Lent,
    line: &mut [u8],
    out: &mut [u8],
    l: Loader,
    from: usize,
    input: &[u8],
) -> Step
    requires { (length line.old ≡ line_limit) × (from + line_room * length input.now ≤ length out.old) }
    ensures state { within.asks (lent state.entry) line.new result.loader ≡ steps.take_input (within.asks (lent state.entry) line.old l) input.now }
    ensures says { within.Says (within.asks (lent state.entry) line.old l) input.now out.old from out.new result.at }
{
    let mut next = l;
    let mut at = from;
    let mut i = 0;
    loop {
        let end = text_lines::line_end(input, i);
        next = load::take_run(line, next, &input[i..end]);
        if end == input.len() {
            return Step { loader: next, at };
        }
        at = answer_line(state, line, out, next.kept, at);
        next = reports::keep(next, 0);
        i = end + 1;
    }
}

// Ends the rule text: the end call, whose report is written. Who calls it has made sure that there is room.
fn end_text(
    state: &mut LentMut,
    line: &mut [u8],
    out: &mut [u8],
    s: Session,
) -> Result<(Session, usize), Declined>
    requires { line_room ≤ length out.old }
    ensures text_ends { within.TextEnds (steps.state (lent_mut state.old) line.old s) out.old result (steps.leaves (lent_mut state.new) line.new s result) out.new }
    ensures a_line_at_most { went_count result ≤ line_room }
    ensures same_slices { SameSlices state.old state.new }
{
    let last = unmarked(line, s.loader);
    let Ok((report, fresh)) = load::end(state, line, last) else {
        return Err(Declined::Damaged);
    };
    let at = replies::write_report(out, 0, report);
    Ok((
        Session {
            loading: false,
            loader: fresh,
        },
        at,
    ))
}

// Ends the rule text, and takes the question lines behind it. Who calls it has made sure that there is room.
fn turn_to_questions(
    state: &mut LentMut,
    line: &mut [u8],
    out: &mut [u8],
    s: Session,
    input: &[u8],
) -> Result<(Session, usize), Declined>
    requires { line_room * suc (length input.now) ≤ length out.old }
    ensures turns_over { within.TurnsOver (steps.state (lent_mut state.old) line.old s) input.now out.old result (steps.leaves (lent_mut state.new) line.new s result) out.new }
    ensures same_slices { SameSlices state.old state.new }
{
    let (ended, at) = end_text(state, line, out, s)?;
    let asking = ended.loader;
    let step = answer_lines(state.shared(), line, out, asking, at, input);
    let loader = step.loader;
    let loading = false;
    Ok((Session { loading, loader }, step.at))
}

// Takes a piece while rule text is still read: the loader gets all of it, or what stands before the end of the line `?`. Who calls it has made sure that
// there is room.
fn take_text(
    state: &mut LentMut,
    line: &mut [u8],
    out: &mut [u8],
    s: Session,
    input: &[u8],
) -> Result<(Session, usize), Declined>
    requires { (s.loading ≡ true) × (line_room * length input.now ≤ length out.old) }
    ensures feeds { steps.Feeds (steps.state (lent_mut state.old) line.old s) input.now out.old result (steps.leaves (lent_mut state.new) line.new s result) out.new }
    ensures same_slices { SameSlices state.old state.new }
{
    let l = s.loader;
    let end = text_end(input, l.kept == 0, is_mark(line, l));
    let Ok(next) = load::piece(state, line, l, &input[..end]) else {
        return Err(Declined::Damaged);
    };
    let read = Session {
        loading: true,
        loader: next,
    };
    if end == input.len() {
        return Ok((read, 0));
    }
    let behind = end + 1;
    turn_to_questions(state, line, out, read, &input[behind..])
}

// Takes a piece of the input: any bytes, any length that the output has room for, also none.
pub fn feed(
    state: &mut LentMut,
    line: &mut [u8],
    out: &mut [u8],
    s: Session,
    input: &[u8],
) -> Result<(Session, usize), Declined>
    ensures feeds { steps.Feeds (steps.state (lent_mut state.old) line.old s) input.now out.old result (steps.leaves (lent_mut state.new) line.new s result) out.new }
    ensures same_slices { SameSlices state.old state.new }
{
    if out.len() / LINE_ROOM < input.len() {
        return Err(Declined::NoRoom);
    }
    if s.loading {
        return take_text(state, line, out, s, input);
    }
    let l = s.loader;
    let lent = state.shared();
    if !load::is_ready(lent, line, l) {
        return Err(Declined::Damaged);
    }
    let step = answer_lines(lent, line, out, l, 0, input);
    let loader = step.loader;
    let loading = false;
    Ok((Session { loading, loader }, step.at))
}

// The end of the input: rule text ends with it, and bytes after the last newline are one more line.
pub fn finish(
    state: &mut LentMut,
    line: &mut [u8],
    out: &mut [u8],
    s: Session,
) -> Result<(Session, usize), Declined>
    ensures finishes { steps.Finishes (steps.state (lent_mut state.old) line.old s) out.old result (steps.leaves (lent_mut state.new) line.new s result) out.new }
    ensures same_slices { SameSlices state.old state.new }
{
    if out.len() < LINE_ROOM {
        return Err(Declined::NoRoom);
    }
    let l = s.loader;
    if s.loading {
        return end_text(state, line, out, s);
    }
    let lent = state.shared();
    if !load::is_ready(lent, line, l) {
        return Err(Declined::Damaged);
    }
    let kept = l.kept;
    if kept == 0 {
        return Ok((s, 0));
    }
    let at = answer_line(lent, line, out, kept, 0);
    Ok((
        Session {
            loading: false,
            loader: reports::keep(l, 0),
        },
        at,
    ))
}
