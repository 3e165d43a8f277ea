// The form of a parameter group number (01, "Groups in one frame").
ghost use Rattle.std.specs.Prelude.{◌≡◌};
ghost use Rattle.frame.specs.Pgn.{pgn_ok};

// Whether a number is a PGN: 18 bits, and the low byte 0 where its PF is below 240.
pub fn is_pgn(pgn: u32) -> bool
    ensures { result ≡ pgn_ok pgn }
{
    (pgn < 262144) & ((240 <= pgn / 256 % 256) | (pgn % 256 == 0))
}
