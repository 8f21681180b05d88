// What the tests check by.
use std::fmt::Debug;
use std::test::Fail;

// A test goes on only if what it found is what it wanted.
pub fn same<T: PartialEq + Debug + Drop>(found: T, wanted: T) -> Result<(), Fail> {
    if found == wanted {
        Ok(())
    } else {
        Err(Fail::new(format_args!("{found:?}, and not {wanted:?}")))
    }
}
