// A call, by the number of its operation. Operations 1, 2 and 5 leave the context aside.
#[derive(Clone, Copy)]
pub struct Call {
    pub operation: u64,
    pub cpu: u64,
    pub time: u64,
    pub context: u64,
}
