// Callers of lines and layers, as an integrator writes them.
ghost use Rattle.std.specs.Prelude.{◌≡◌, ◌≤◌, min, [], ◌∷◌, length, drop};

use line::consume::fill;
use line::line::Line;
use line::meter::Meter;
use line::plain::Plain;

// Credit that is granted again lets the next bytes through.
pub fn two_grants() -> [u8; 2]
    ensures value { result ≡ 3 ∷ 4 ∷ [] }
{
    let bytes = [1, 2, 3, 4, 5];
    let mut line = Meter::new(Plain::new(&bytes, 3));
    // The result itself, which has two bytes whatever comes.
    let mut out = [0; 2];
    let _ = line.grant(2);
    fill(&mut line, &mut out);
    let _ = line.grant(2);
    fill(&mut line, &mut out);
    out
}

// Takes the first bytes of any line, as many as `credit` allows and `out` holds, and gives the line back with the rest.
pub fn front_of<L: Line>(line: L, credit: u32, out: &mut [u8]) -> (usize, L)
    ensures count { credit ≤ 65536 → result.0 ≡ min (length out.old) (min credit (length (L.Line.waiting line))) }
    ensures rest { L.Line.waiting result.1 ≡ drop result.0 (L.Line.waiting line) }
{
    let mut meter = Meter::new(line);
    let _ = meter.grant(credit);
    let k = fill(&mut meter, out);
    (k, meter.into_below())
}
