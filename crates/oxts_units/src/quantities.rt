// The quantities of inertial and solution messages, by name and unit, in the order in which a message has them: the time of an inertial message first, then the others.
use crate::measure::{MILLISECONDS, Scale, Unit};

// Name and unit. They go by place: a row is a line, which names would spread over four.
#[derive(Clone, Copy)]
pub struct Quantity(pub &'static str, pub Unit);

const ACCELERATION: Unit = Unit("m/s2", Scale::Steps(1, 4));

const RATE: Unit = Unit("rad/s", Scale::Steps(1, 5));

const VELOCITY: Unit = Unit("m/s", Scale::Steps(1, 4));

const ANGLE: Unit = Unit("rad", Scale::Steps(1, 6));

const COORDINATE: Unit = Unit("rad", Scale::Double);

const ALTITUDE: Unit = Unit("m", Scale::Single);

static TIME: [Quantity; 1] = [Quantity("time", MILLISECONDS)];

static INERTIAL: [Quantity; 6] = [
    Quantity("acceleration_x", ACCELERATION),
    Quantity("acceleration_y", ACCELERATION),
    Quantity("acceleration_z", ACCELERATION),
    Quantity("angular_rate_x", RATE),
    Quantity("angular_rate_y", RATE),
    Quantity("angular_rate_z", RATE),
];

static SOLUTION: [Quantity; 9] = [
    Quantity("latitude", COORDINATE),
    Quantity("longitude", COORDINATE),
    Quantity("altitude", ALTITUDE),
    Quantity("velocity_north", VELOCITY),
    Quantity("velocity_east", VELOCITY),
    Quantity("velocity_down", VELOCITY),
    Quantity("heading", ANGLE),
    Quantity("pitch", ANGLE),
    Quantity("roll", ANGLE),
];

pub fn time() -> &'static [Quantity] {
    &TIME
}

// Behind the time.
pub fn inertial() -> &'static [Quantity] {
    &INERTIAL
}

pub fn solution() -> &'static [Quantity] {
    &SOLUTION
}
