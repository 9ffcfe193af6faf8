// What a set is written with, and why it is refused.
use mapping::{ArmingRefusal, RegisterRefusal};

// A value that is offered to a register.
#[derive(Clone, Copy, PartialEq, Eq, Debug)]
pub struct RegisterWrite {
    pub number: u64,
    pub value: u64,
}

#[derive(Clone, Copy, PartialEq, Eq, Debug)]
pub enum SetUpRefusal {
    // this write was refused, the first one that was
    Register(RegisterWrite, RegisterRefusal),
    // the registers were written, and did not arm
    Arming(ArmingRefusal),
}
