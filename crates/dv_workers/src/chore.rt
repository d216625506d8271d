// What a worker has to do.

use dv_local::Slice;

#[derive(Drop)]
pub enum Chore {
    /// A turn was done, and more may be.
    Ran,
    /// Nothing can be done before another worker has brought its slice.
    Rest,
    /// The workers are to stop.
    Stop,
    /// Steps of the thread of this slice, which is lent.
    Lent(Slice),
}
