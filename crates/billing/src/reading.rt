// The power of a party in a slot of five minutes, in kW.
#[derive(Clone, Copy, Debug, PartialEq, Eq)]
pub struct Reading {
    pub party: u32,
    pub slot: u32,
    pub power: i32,
}
