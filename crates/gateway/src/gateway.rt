// A gateway between lines and partitions, for one family of packets.
use ports::bank::Bank;
use reader::reader::Reader;
use reading::family::Family;

mod calls;
mod pump;
mod questions;

#[derive(Drop)]
pub struct Gateway<F: Family> {
    reader: Reader<F>,
    bank: Bank,
}
