// Register sets, written and armed.
ghost use Rattle.std.specs.Prelude.{IfOk};

use mapping::{ArmedSet, Mapping, RegisterSet};
use std::test::Fail;

// A set with these values, from register 0 on. A value that is refused is passed over, so a mapping may lack the last registers.
pub fn set_of<P: Mapping>(registers: &[u64]) -> RegisterSet<P> {
    let mut set = RegisterSet::new();
    for (number, value) in (0..).zip(registers) {
        let _ = set.write(number, *value);
    }
    set
}

// The set that is armed from these values.
pub fn armed_set<P: Mapping>(registers: &[u64]) -> Result<ArmedSet<P>, Fail>
    ensures { IfOk result (λ set. P.Mapping.armed set.mapping) }
{
    let Ok(armed) = set_of::<P>(registers).arm() else {
        return Err(Fail::new("not armed"));
    };
    Ok(armed)
}
