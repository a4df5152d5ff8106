// The quantities of a packet, batch by batch.
ghost use Rattle.std.specs.Prelude.{◌≡◌};
ghost use Rattle.oxts.specs.Batches.{vector_at, inertial_in, solution_in, batch_c_in, status_batch_in};

use crate::format::Format;
use crate::words::{byte_at, bytes_at, read_i24};
use std::fmt;

// Three signed 24-bit words.
#[derive(Clone, Copy, Default)]
pub struct Vector {
    pub x: i32,
    pub y: i32,
    pub z: i32,
}

// Batch A: milliseconds of the GPS minute, accelerations (10^-4 m/s^2) and angular rates (10^-5 rad/s).
#[derive(Clone, Copy)]
pub struct Inertial {
    pub time: u16,
    pub accelerations: Vector,
    pub rates: Vector,
}

// Batch B: latitude and longitude (the patterns of 64-bit floats, rad), altitude (the pattern of a 32-bit float, m),
// velocity north, east, down (10^-4 m/s) and heading, pitch, roll (10^-6 rad).
#[derive(Clone, Copy, Default)]
pub struct Solution {
    pub latitude: i64,
    pub longitude: i64,
    pub altitude: u32,
    pub velocity: Vector,
    pub attitude: Vector,
}

// Batch C, as the patterns of its first eight bytes and of its last four; zeros where the format has none.
#[derive(Clone, Copy)]
pub struct BatchC {
    pub front: i64,
    pub back: u32,
}

// The number of the status channel, the pattern of its eight bytes in Batch S, and Batch C.
#[derive(Clone, Copy)]
pub struct StatusBatch {
    pub channel: u8,
    pub batch_s: i64,
    pub batch_c: BatchC,
}

fn read_vector(words: [u8; 9]) -> Vector
    ensures value { result ≡ vector_at words 0 }
{
    let [a, b, c, d, e, f, g, h, i] = words;
    Vector {
        x: read_i24([a, b, c]),
        y: read_i24([d, e, f]),
        z: read_i24([g, h, i]),
    }
}

pub fn inertial_in(packet: &[u8]) -> Inertial
    ensures value { result ≡ inertial_in packet.now }
{
    Inertial {
        time: u16::from_le_bytes(bytes_at(packet, 1)),
        accelerations: read_vector(bytes_at(packet, 3)),
        rates: read_vector(bytes_at(packet, 12)),
    }
}

pub fn solution_in(packet: &[u8]) -> Solution
    ensures value { result ≡ solution_in packet.now }
{
    Solution {
        latitude: i64::from_le_bytes(bytes_at(packet, 23)),
        longitude: i64::from_le_bytes(bytes_at(packet, 31)),
        altitude: u32::from_le_bytes(bytes_at(packet, 39)),
        velocity: read_vector(bytes_at(packet, 43)),
        attitude: read_vector(bytes_at(packet, 52)),
    }
}

fn batch_c_in(format: Format, packet: &[u8]) -> BatchC
    ensures value { result ≡ batch_c_in format packet.now }
{
    match format {
        Format::Ncom => BatchC { front: 0, back: 0 },
        Format::Mcom => BatchC {
            front: i64::from_le_bytes(bytes_at(packet, 62)),
            back: u32::from_le_bytes(bytes_at(packet, 70)),
        },
    }
}

pub fn status_batch_in(format: Format, packet: &[u8]) -> StatusBatch
    ensures value { result ≡ status_batch_in format packet.now }
{
    let place = format.channel_place();
    StatusBatch {
        channel: byte_at(packet, place),
        batch_s: i64::from_le_bytes(bytes_at(packet, place + 1)),
        batch_c: batch_c_in(format, packet),
    }
}

// A vector and a solution each print their own fields.
impl fmt::Display for Vector {
    fn fmt<W: fmt::Write>(&self, f: &mut fmt::Formatter<W>) -> fmt::Result {
        let Vector { x, y, z } = *self;
        write!(f, "{x} {y} {z}")
    }
}

impl fmt::Display for Solution {
    fn fmt<W: fmt::Write>(&self, f: &mut fmt::Formatter<W>) -> fmt::Result {
        let Solution {
            latitude,
            longitude,
            altitude,
            velocity,
            attitude,
        } = *self;
        write!(
            f,
            "position {latitude} {longitude} {altitude} velocity {velocity} attitude {attitude}"
        )
    }
}
