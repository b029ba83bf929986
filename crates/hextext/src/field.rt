// The fields of a line: numbers of one or more bytes, big-endian.
ghost use Rattle.std.specs.Prelude.{◌≡◌, ◌+◌, ◌≤◌, length};
ghost use Rattle.slices.specs.Over.{over_from};
ghost use Rattle.hextext.specs.Fields.{big_endian};

// Puts the last `count` bytes of a number into a line from place `at` on, the most significant first.
pub fn put_field(line: &mut [u8], at: usize, count: usize, x: u64)
    requires { at + count ≤ length line.old }
    ensures { line.new ≡ over_from at (big_endian count x) line.old }
{
    let mut rest = x;
    for i in (0..count).rev() {
        line[at + i] = (rest % 256) as u8;
        rest /= 256;
    }
}
