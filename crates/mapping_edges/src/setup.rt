// What the tests ask of a mapping, by the values of its registers.
use expect::set_of;
use mapping::{ArmingRefusal, Mapping, RegisterRefusal, RegisterSet};

// What a new set answers to a value for one register.
pub(crate) fn offer<M: Mapping>(number: u64, value: u64) -> Result<(), RegisterRefusal> {
    RegisterSet::<M>::new().write(number, value)
}

// What arming a set with these values answers.
pub(crate) fn arm<M: Mapping>(values: &[u64]) -> Result<(), ArmingRefusal> {
    set_of::<M>(values)
        .arm()
        .map(|_| ())
        .map_err(|(refusal, _)| refusal)
}
