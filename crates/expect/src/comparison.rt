// What the helpers of the tests answer where two values differ. They take no runtime that may abort, since a function with one
// would keep any promise.
ghost use Rattle.std.specs.Prelude.{◌≡◌, is_ok};

use std::test::Fail;

// Acceptance, if the value found is the one that is due.
pub fn same<T: PartialEq + Drop>(found: T, due: T) -> Result<(), Fail>
    ensures { is_ok result ≡ T.eq found due }
{
    if found == due {
        Ok(())
    } else {
        Err(Fail::new("two values differ"))
    }
}
