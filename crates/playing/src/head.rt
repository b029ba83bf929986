// The `45` line.
ghost use Rattle.std.specs.Prelude.{◌≡◌, List, ℕ};
ghost use Rattle.sheet.specs.Reading.{playing_refusal};
ghost use Rattle.sheet.specs.Refusal.{test_number};
ghost use Rattle.sheet.specs.Held.{LineHeld};

use hextext::Line;
use sheet::{BAR_LONGEST, BAR_SHORTEST, BARS_MOST, Refusal, byte_at, four_at};

// Whether a `45` line is refused.
// A test is one demand of the documents, in their order, so a range is two tests and no `contains`.
pub fn check_playing(l: Line) -> Result<(), Refusal>
    ensures { (b : List ℕ) → LineHeld l b → test_number result ≡ playing_refusal b }
{
    if l.count != 6 {
        return Err(Refusal::WrongByteCount);
    }
    let bars = byte_at(l, 1) as usize;
    if bars < 1 {
        return Err(Refusal::FieldOutOfRange);
    }
    if BARS_MOST < bars {
        return Err(Refusal::FieldOutOfRange);
    }
    let d = four_at(l, 2);
    if d == 0 {
        return Ok(());
    }
    if d < BAR_SHORTEST {
        return Err(Refusal::FieldOutOfRange);
    }
    if BAR_LONGEST < d {
        return Err(Refusal::FieldOutOfRange);
    }
    Ok(())
}
