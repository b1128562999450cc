//! Lines that say nothing.
ghost use Rattle.std.specs.Prelude.{◌≡◌};
ghost use Rattle.cs_wire.specs.Blank.{is_blank_line};

/// Whether the line is spaces, tabs and carriage returns alone, so that nothing is done at it. It
/// takes no memory.
pub fn is_blank(line: &[u8]) -> bool
    ensures { result ≡ is_blank_line line.now }
{
    for byte in line {
        if *byte != b' ' && *byte != b'\t' && *byte != b'\r' {
            return false;
        }
    }
    true
}
