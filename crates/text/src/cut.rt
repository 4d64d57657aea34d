ghost use Rattle.std.specs.Prelude.{◌≡◌, ◌<◌, ◌==◌, [], ◌∷◌, length, position, Some, None};
ghost use Rattle.text.specs.Cuts.{upto, past, parts, Parted, Whole};
ghost use Rattle.trace.specs.Text.{pieces};

// The place of the first byte `at`.
fn find_byte(bytes: &[u8], at: u8) -> Option<usize>
    ensures { result ≡ position (λ b. b == at) bytes.now }
{
    bytes.iter().position(|b| *b == at)
}

// What stands before the first byte `at` and what follows it; None without such a byte.
fn split_once(bytes: &[u8], at: u8) -> Option<(&[u8], &[u8])>
    ensures { elim result [ Some x ↦ Parted at bytes.now x.0.now x.1.now × (x.0.now ≡ upto at bytes.now) × (x.1.now ≡ past at bytes.now) | None ↦ Whole at bytes.now × (upto at bytes.now ≡ bytes.now) × (past at bytes.now ≡ []) ] }
{
    let place = find_byte(bytes, at)?;
    Some((&bytes[..place], &bytes[place + 1..]))
}

// The line before the first line feed and what follows it; None without a line feed.
pub fn split_line(bytes: &[u8]) -> Option<(&[u8], &[u8])>
    ensures { elim result [ Some x ↦ Parted 10 bytes.now x.0.now x.1.now | None ↦ Whole 10 bytes.now ] }
{
    split_once(bytes, b'\n')
}

// How many fields the commas of a line part.
pub fn count_fields(line: &[u8]) -> usize
    ensures count { result ≡ length (pieces 44 line.now) }
    ensures fields { pieces 44 line.now ≡ parts result 44 line.now }
{
    line.iter().filter(|b| **b == b',').count() + 1
}

// The first field and what follows its comma; nothing follows the last field.
pub fn take_field(line: &[u8]) -> (&[u8], &[u8])
    ensures field { result.0.now ≡ upto 44 line.now }
    ensures rest { result.1.now ≡ past 44 line.now }
    ensures several { 1 < length (pieces 44 line.now) → pieces 44 line.now ≡ result.0.now ∷ pieces 44 result.1.now }
    ensures only { length (pieces 44 line.now) ≡ 1 → pieces 44 line.now ≡ result.0.now ∷ [] }
{
    match split_once(line, b',') {
        Some((field, rest)) => (field, rest),
        None => (line, &[]),
    }
}
