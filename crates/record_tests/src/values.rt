// What the tests compare their values by. (No library may end the process, so each crate of tests has this file.)
ghost use Rattle.std.specs.Prelude.{IsTrue};

use std::fmt::Debug;
use std::process::Abort;

// Ends a test whose value is not the one that is wanted, with both.
pub(crate) fn same<T: PartialEq + Debug + Drop>(rt: &impl Abort, got: T, wanted: T)
    ensures { IsTrue (T.eq got wanted) }
{
    assert_eq!(rt; got, wanted);
}

// As `same`, for a row of a table, which is told too.
pub(crate) fn same_at<P: Debug + Drop, T: PartialEq + Debug + Drop>(
    rt: &impl Abort,
    place: P,
    got: T,
    wanted: T,
)
    ensures { IsTrue (T.eq got wanted) }
{
    assert_eq!(rt; got, wanted, "at {place:?}");
}

// As `same_at`, for values that are not printed.
pub(crate) fn alike_at<P: Debug + Drop, T: PartialEq + Drop>(
    rt: &impl Abort,
    place: P,
    got: T,
    wanted: T,
)
    ensures { IsTrue (T.eq got wanted) }
{
    assert!(rt; got == wanted, "at {place:?}");
}
