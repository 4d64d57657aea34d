ghost use Rattle.std.specs.Prelude.{◌≡◌, ◌-◌, ◌*◌, ◌^◌, ◌≤◌, min, length, take, sum};

// The sum of a row, but never past the largest.
fn sum_all(row: &[u32]) -> u64
    ensures value { result ≡ min (sum row.now) (2 ^ 64 - 1) }
    ensures few { result ≤ length row.now * 2 ^ 32 }
{
    let mut total: u64 = 0;
    for c in row {
        total = total.saturating_add(u64::from(*c));
    }
    total
}

// The sum of the first d counters of a row, or of all where it has fewer; it stays at the largest that 64 bits hold.
pub fn sum_first(row: &[u32], d: usize) -> u64
    ensures value { result ≡ min (sum (take d row.now)) (2 ^ 64 - 1) }
    ensures few { result ≤ d * 2 ^ 32 }
{
    sum_all(&row[..d.min(row.len())])
}
