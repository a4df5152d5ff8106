// What navlog writes for a spreadsheet: a row for each message, raw numbers first, then quantities in their units.
use oxts_units::measure::{Measure, Unit};
use oxts_units::quantities::{Quantity, inertial, solution, time};
use reading::message::{Kind, Message};
use std::io;
use std::io::Write;

fn write_names<W: Write>(quantities: &[Quantity], out: &mut W) -> io::Result<()> {
    for Quantity(name, Unit(symbol, _)) in quantities {
        write!(out, ",{name} [{symbol}]")?;
    }
    Ok(())
}

pub fn write_header<W: Write>(out: &mut W) -> io::Result<()> {
    write!(out, "number,kind,place,code")?;
    for i in 0..9u8 {
        write!(out, ",raw{i}")?;
    }
    write_names(time(), out)?;
    write_names(inertial(), out)?;
    write_names(solution(), out)?;
    writeln!(out)
}

// Quantities in their units, or as many empty columns where the message is of another kind.
fn write_quantities<W: Write>(
    quantities: &[Quantity],
    raws: Option<&[i64]>,
    out: &mut W,
) -> io::Result<()> {
    for (i, Quantity(_, unit)) in quantities.iter().enumerate() {
        write!(out, ",")?;
        if let Some(raw) = raws.and_then(|raws| raws.get(i)) {
            let measure = Measure {
                raw: *raw,
                unit: *unit,
            };
            write!(out, "{measure}")?;
        }
    }
    Ok(())
}

pub(crate) fn write_row<W: Write>(message: &Message, out: &mut W) -> io::Result<()> {
    let Message {
        kind,
        number,
        place,
        code,
        quantities: raws,
    } = message;
    let bit = kind.bit();
    write!(out, "{number},{bit},{place},{code}")?;
    for raw in raws {
        write!(out, ",{raw}")?;
    }
    let of_inertial = (*kind == Kind::Inertial).then_some(&raws[..]);
    let of_solution = (*kind == Kind::Solution).then_some(&raws[..]);
    write_quantities(time(), of_inertial, out)?;
    write_quantities(inertial(), of_inertial.map(|raws| &raws[1..]), out)?;
    write_quantities(solution(), of_solution, out)?;
    writeln!(out)
}
