// A rule as a line of text (01, Listing): written to a lent output. What such a line says when it is read is a law of the crate.
#![tactic(auto)]

ghost use Rattle.std.specs.Prelude.{◌≡◌, ◌≤◌, length};
ghost use Rattle.alphabet.specs.Alphabet.{label_longest};
ghost use Rattle.output.specs.Output.{put_answer, put_out};
ghost use Rattle.rule_text.specs.RuleText.{text_of};

use refusals::Refusal;

// Writes a rule's text to the front of `out`, and answers its length. The whole length is tested before the first byte is written. Who calls it
// has made sure that the two labels and the modes are no longer than such can be, so that the length can be counted.
pub fn put_text(
    out: &mut [u8],
    subject: &[u8],
    object: &[u8],
    modes: &[u8],
) -> Result<usize, Refusal>
    requires { (length subject.now ≤ label_longest) × (length object.now ≤ label_longest) × (length modes.now ≤ 5) }
    ensures value { result ≡ put_answer (text_of subject.now object.now modes.now) out.old }
    ensures out_after { out.new ≡ put_out (text_of subject.now object.now modes.now) out.old }
{
    let first = subject.len();
    let second = first + 1 + object.len();
    let third = second + 1 + modes.len();
    let length = third + 1;
    if out.len() < length {
        return Err(Refusal::OutputTooShort);
    }
    search::copy_at(out, 0, subject);
    out[first] = alphabet::SPACE;
    search::copy_at(out, first + 1, object);
    out[second] = alphabet::SPACE;
    search::copy_at(out, second + 1, modes);
    out[third] = alphabet::NEWLINE;
    Ok(length)
}
