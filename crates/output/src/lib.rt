// A text written to a lent output, or refused where the output is too short (01, refusal 12).
#![tactic(auto)]

ghost use Rattle.std.specs.Prelude.{◌≡◌};
ghost use Rattle.output.specs.Output.{put_answer, put_out, LengthAnswered};

use refusals::Refusal;

// Writes a text to the front of `out`, and answers its length.
pub fn put(out: &mut [u8], text: &[u8]) -> Result<usize, Refusal>
    ensures value { result ≡ put_answer text.now out.old }
    ensures out_after { out.new ≡ put_out text.now out.old }
{
    if out.len() < text.len() {
        return Err(Refusal::OutputTooShort);
    }
    search::copy_at(out, 0, text);
    Ok(text.len())
}

// The claim that the length written is answered, that the rest of the output is unchanged, and on a refusal all of it.
pub fn length_answered()
    ensures { LengthAnswered }
{}
