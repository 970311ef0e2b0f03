// The packet option (CIPSO, FIPS 188): written for a label, and read back to one (02, Five). Nothing is changed but the lent output.
#![tactic(auto)]

ghost use Rattle.std.specs.Prelude.{◌≡◌, ◌<◌, ◌≤◌, length};
ghost use Rattle.output.specs.Output.{put_answer, put_out};
ghost use Rattle.store.specs.Layout.{store};
ghost use Rattle.store.specs.LentWithin.{lent};
ghost use Rattle.set_bytes.specs.SetBytes.{own_bytes};
ghost use Rattle.search.specs.Bytes.{same_bytes};
ghost use Rattle.cipso_option.specs.Option.{trimmed, option_of, option_answer, option_out, is_option, doi_in, our_doi, peer_given, peer_shown, label as sender, not_read, own_peer};
ghost use Rattle.cipso_option.specs.Within.{said_of, mapped_given};

use numbers::CategorySet;
use refusals::Refusal;
use store::Lent;

// The most bytes of a label that goes as its own bits.
pub const OWN_LONGEST: usize = 23;

// What an option says: the label's length and its bytes, behind which the others are 0; or a refusal's number.
#[repr(C)]
#[derive(Drop)]
pub struct PeerLabel {
    pub refused: bool,
    pub number: u8,
    pub length: usize,
    pub bytes: [u8; 255],
}

// How many bytes there are up to the last that is not 0.
fn trimmed_length(bytes: &[u8]) -> usize
    ensures { result ≡ length (trimmed bytes.now) }
{
    let mut n = bytes.len();
    while 0 < n {
        if bytes[n - 1] != 0 {
            return n;
        }
        n -= 1;
    }
    0
}

// Writes the option of a level and a set.
fn put_option(out: &mut [u8], level: u8, set: CategorySet) -> Result<usize, Refusal>
    ensures value { result ≡ put_answer (option_of level set) out.old }
    ensures out_after { out.new ≡ put_out (option_of level set) out.old }
{
    let mut bitmap = [0u8; 24];
    set_bytes::write_bitmap(&mut bitmap, 0, set);
    let n = trimmed_length(&bitmap);
    let mut text = [0u8; 34];
    text[0] = 134;
    text[1] = (10 + n) as u8;
    text[5] = 3;
    text[6] = 1;
    text[7] = (4 + n) as u8;
    text[9] = level;
    search::copy_at(&mut text, 10, &bitmap[0..n]);
    output::put(out, &text[0..10 + n])
}

// Writes the option of a label: of its mapping, or of its own bits.
pub fn write_option(state: Lent, label: &[u8], out: &mut [u8]) -> Result<usize, Refusal>
    ensures value { result ≡ option_answer (lent state.entry) label.now out.old }
    ensures out_after { out.new ≡ option_out (lent state.entry) label.now out.old }
{
    if let Some(mapped) = lookups::by_label(state, label)? {
        return put_option(out, mapped.level, mapped.set);
    }
    if OWN_LONGEST < label.len() {
        return Err(Refusal::NotInAnOption);
    }
    put_option(out, numbers::OWN_LEVEL as u8, set_bytes::set_of_own(label))
}

// Whether bytes have an option's layout.
fn is_option(option: &[u8]) -> bool
    ensures { result ≡ is_option option.now }
{
    let n = option.len();
    if n < 10 {
        return false;
    }
    if 40 < n {
        return false;
    }
    (option[0] == 134)
        & ((option[1] as usize == n)
            & ((option[6] == 1) & ((option[7] as usize == n - 6) & (option[8] == 0))))
}

// Whether an option has our DOI. Who calls it has tested its layout.
fn is_ours(option: &[u8]) -> bool
    requires { 10 ≤ length option.now }
    ensures { result ≡ same_bytes (doi_in option.now) our_doi }
{
    (option[2] == 0) & ((option[3] == 0) & ((option[4] == 0) & (option[5] == 3)))
}

// What an option says by its bytes alone: its level and its set.
fn said_by(option: &[u8]) -> Result<(u8, CategorySet), Refusal>
    ensures { result ≡ said_of option.now }
{
    if !is_option(option) {
        return Err(Refusal::BadOption);
    }
    if !is_ours(option) {
        return Err(Refusal::OtherDoi);
    }
    let bitmap = &option[10..option.len()];
    if !set_bytes::only_categories(bitmap) {
        return Err(Refusal::BadOptionCategory);
    }
    Ok((option[9], set_bytes::set_of_bitmap(bitmap)))
}

// A refusal as a host sees it.
fn refused(refusal: Refusal) -> PeerLabel
    ensures { result ≡ peer_shown (not_read refusal) }
{
    PeerLabel {
        refused: true,
        number: refusal.number(),
        length: 0,
        bytes: [0u8; 255],
    }
}

// A label as a host sees it. Who calls it has made sure that it is not too long.
fn shown(label: &[u8]) -> PeerLabel
    requires { length label.now ≤ 255 }
    ensures { result ≡ peer_shown (sender label.now) }
{
    let mut bytes = [0u8; 255];
    search::copy_at(&mut bytes, 0, label);
    PeerLabel {
        refused: false,
        number: 0,
        length: label.len(),
        bytes,
    }
}

// The label whose own bits are a set's categories.
fn own_peer(set: CategorySet) -> PeerLabel
    ensures { result ≡ peer_shown (own_peer (trimmed (own_bytes set))) }
{
    let mut bytes = [0u8; 23];
    set_bytes::write_own(&mut bytes, set);
    let n = trimmed_length(&bytes);
    if !alphabet::well_formed(&bytes[0..n]) {
        return refused(Refusal::BadLabel { place: 0 });
    }
    shown(&bytes[0..n])
}

// The lowest-numbered label with a level and a set.
fn mapped_peer(state: Lent, level: u8, set: CategorySet) -> PeerLabel
    ensures { result ≡ peer_shown (mapped_given (lent state.entry) level set) }
{
    let found = lookups::by_level(state, level as u64, set);
    match found {
        Ok(Some(n)) => shown(places::label_at(state.labels, n)),
        Ok(None) => refused(Refusal::NoSuchMapping),
        Err(refusal) => refused(refusal),
    }
}

// The label that an option says.
pub fn read_option(state: Lent, option: &[u8]) -> PeerLabel
    ensures { result ≡ peer_shown (peer_given (lent state.entry) option.now) }
{
    let said = said_by(option);
    match said {
        Err(refusal) => {
            if !damage::undamaged(state) {
                return refused(Refusal::Damaged);
            }
            refused(refusal)
        }
        Ok((level, set)) => {
            if level as u64 != numbers::OWN_LEVEL {
                return mapped_peer(state, level, set);
            }
            if !damage::undamaged(state) {
                return refused(Refusal::Damaged);
            }
            own_peer(set)
        }
    }
}
