// The program (01, What the program reads and writes): standard input to standard output. What is written is decided in `program`; here it
// is only read and written.
#![tactic(auto)]

ghost use Rattle.program.specs.Turns.{went_count};
ghost use Rattle.program.specs.Steps.{Front};

use program::{Declined, Session};
use std::io::Read;
use store::LentMut;

// How much is read at once, and the room for what so much input may say: a line for each byte.
const PIECE: usize = 1024;

const OUT: usize = PIECE * program::LINE_ROOM;

// Says on standard error why the run ends early. Where that can't be written either, nobody is told.
fn complain(rt: &impl Eprint, why: &str) {
    let _ = eprintln!(rt; "balqirven_ask: {why}");
}

// Writes what a call of the session put at the front of the output, and answers the session to go on with, or nothing where there is no more to do.
fn put_out(
    rt: &(impl Print + Eprint),
    out: &[u8],
    turn: Result<(Session, usize), Declined>,
) -> Option<Session>
    requires { Front (went_count turn) out.now }
{
    let Ok((next, count)) = turn else {
        complain(rt, "damaged state");
        return None;
    };
    match rt.write_all(&out[..count]) {
        Ok(()) => Some(next),
        Err(_) => {
            complain(rt, "cannot write to standard output");
            None
        }
    }
}

// Reads once, in whatever piece comes, and answers the session to go on with, or nothing where there is no more to do.
fn read_once(
    rt: &(impl Print + Eprint),
    input: &mut impl Read,
    state: &mut LentMut,
    line: &mut [u8],
    out: &mut [u8],
    s: Session,
) -> Option<Session> {
    let mut piece = [0u8; PIECE];
    let Ok(n) = input.read(&mut piece) else {
        complain(rt, "cannot read standard input");
        return None;
    };
    if n == 0 {
        let last = program::finish(state, line, out, s);
        put_out(rt, out, last);
        return None;
    }
    let turn = program::feed(state, line, out, s, &piece[..n]);
    put_out(rt, out, turn)
}

// Says that the loop below has come to the end of its count.
fn out_of_turns(rt: &impl Eprint) {
    complain(rt, "too many pieces of input");
}

// A proved loop has to end, and nothing says that the input does. So the loop counts its turns, up to a number that no run uses up.
fn read_all(
    rt: &(impl Print + Eprint),
    input: &mut impl Read,
    state: &mut LentMut,
    line: &mut [u8],
    out: &mut [u8],
    begun: Session,
) {
    let mut s = begun;
    for _ in 0..u64::MAX {
        let Some(next) = read_once(rt, input, state, line, out, s) else {
            return;
        };
        s = next;
    }
    out_of_turns(rt);
}

fn main(rt: HostRuntime) {
    let mut labels = [0u8; store::LABELS_SIZE];
    let mut entries = [0u8; store::ENTRIES_SIZE];
    let mut words = [0u64; store::WORDS_SIZE];
    let mut line = [0u8; alphabet::LINE_LIMIT];
    let mut out = [0u8; OUT];
    let s = program::begin(&mut labels, &entries, &mut words);
    let mut state = LentMut {
        labels: &mut labels,
        entries: &mut entries,
        words: &mut words,
    };
    read_all(&rt, &mut rt.stdin(), &mut state, &mut line, &mut out, s);
}
