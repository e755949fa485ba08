// How far the record ways of a form have come with the fields read so far.
use crate::group::WAYS;

// How far each record way has come, in the order in which they are listed: the index of the place at which, or behind which, the next
// field belongs; none, if the way does not take the fields so far. The ways themselves are the form's: each record that is read begins
// with a new array, which would copy them.
#[derive(Clone, Copy)]
pub struct Records {
    pub(crate) ways: [Option<u8>; WAYS],
}
