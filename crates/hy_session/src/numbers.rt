//! Numbers and parts of lists.

ghost use Rattle.std.specs.Prelude.{◌≡◌, drop, IfOk};

use std::alloc::AllocError;

/// A length as a number of 32 bits. A list of 2^32 elements or more is want of memory.
pub fn number_of(length: usize) -> Result<u32, AllocError>
    ensures { IfOk result (λ n. n ≡ length) }
{
    u32::try_from(length).map_err(|_| AllocError)
}

/// The elements behind the first ones; none where there are no more.
pub fn elements_behind<T>(elements: &[T], count: usize) -> &[T]
    ensures { result.now ≡ drop count elements.now }
{
    if count < elements.len() {
        &elements[count..]
    } else {
        &[]
    }
}
