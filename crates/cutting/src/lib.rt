// Where a trace that is read in pieces may be cut.
#![tactic(auto)]

ghost use Rattle.std.specs.Prelude.{◌≡◌, ◌-◌, ◌%◌, ◌≤◌, length, take, drop};
ghost use Rattle.cutting.specs.Cutting.{whole_lines, whole, WholeItems, Cut, LeftOver};

// The two forms of a trace: lines, or records of six bytes.
#[derive(Clone, Copy, PartialEq, Eq)]
pub enum Form {
    Text,
    Records,
}

// How many bytes are whole lines: up to and with the last line feed.
fn whole_lines(bytes: &[u8]) -> usize
    ensures value { result ≡ whole_lines bytes.now }
    ensures within { result ≤ length bytes.now }
{
    bytes
        .iter()
        .rposition(|b| *b == b'\n')
        .map_or(0, |place| place + 1)
}

// How many of so many bytes are whole records.
fn whole_records(bytes: usize) -> usize
    ensures { result ≡ bytes - bytes % 6 }
{
    bytes - bytes % 6
}

// How many bytes from the front are whole items: a piece is cut there, and the rest is put in front of the next.
pub fn whole_items(form: Form, bytes: &[u8]) -> usize
    ensures value { result ≡ whole form bytes.now }
    ensures within { result ≤ length bytes.now }
    ensures front { WholeItems form (take result bytes.now) }
    ensures cut { Cut form bytes.now result }
    ensures rest { LeftOver form (drop result bytes.now) }
{
    // The form is a caller's data: a closure in its place would still be picked by a match on it.
    match form {
        Form::Text => whole_lines(bytes),
        Form::Records => whole_records(bytes.len()),
    }
}
