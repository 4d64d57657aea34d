ghost use Rattle.std.specs.Prelude.{◌≡◌};
ghost use Rattle.text.specs.Worked.{Worked, worked_bytes};

// A trace with a fault of each kind; what an empty text and this one mean.
pub fn worked_text() -> &'static [u8]
    ensures bytes { result.now ≡ worked_bytes }
    ensures meaning { Worked }
{
    b"01,r,0\n1,r,4294967296\n1,r,0"
}
