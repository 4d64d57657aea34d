ghost use Rattle.std.specs.Prelude.{◌≡◌};
ghost use Rattle.records.specs.Worked.{worked_bytes, Worked};

// One record by example: processor 1 writes at address 4096.
pub fn worked_record() -> [u8; 6]
    ensures bytes { result ≡ worked_bytes }
    ensures meaning { Worked }
{
    [0x01, 0x01, 0x00, 0x00, 0x10, 0x00]
}
