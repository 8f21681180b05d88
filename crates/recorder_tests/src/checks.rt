// Checks that several tests make.
use std::alloc::Global;
use std::fmt::{Debug, Display};
use std::test::Fail;

// A test goes on only if what it found is what it wanted.
pub fn same<T: PartialEq + Debug + Drop>(found: T, wanted: T) -> Result<(), Fail> {
    if found == wanted {
        Ok(())
    } else {
        Err(Fail::new(format_args!("{found:?}, and not {wanted:?}")))
    }
}

// The same, in one case of several.
pub fn same_at<C: Debug + Drop, T: PartialEq + Debug + Drop>(
    case: C,
    found: T,
    wanted: T,
) -> Result<(), Fail> {
    if found == wanted {
        Ok(())
    } else {
        Err(Fail::new(format_args!("{found:?}, and not {wanted:?}, at {case:?}")))
    }
}

// The value is printed as this text.
pub fn says<T: Display>(heap: Global, value: &T, text: &str) -> Result<(), Fail> {
    same(value.to_string(heap)?.as_str(), text)
}

// It failed, and the error has this text.
pub fn fails<T: Drop, E: Display + Drop>(
    heap: Global,
    outcome: Result<T, E>,
    text: &str,
) -> Result<(), Fail> {
    match outcome {
        Ok(_) => Err("an error is expected".into()),
        Err(error) => says(heap, &error, text),
    }
}
